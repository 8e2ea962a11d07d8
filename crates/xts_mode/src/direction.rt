//! The two directions of a block cipher.

ghost use Rattle.std.specs.Prelude.{◌≡◌, ◌≤◌, ℕ, List, map, take};

use aes_block::BlockCipher;

/// A cipher function on blocks of sixteen bytes: the forward one of a key, or the inverse one.
pub(crate) trait Direction {
    ghost turned: { Self → List ℕ → List ℕ };

    fn turn_block(&self, b: &mut [u8; 16])
        ensures { b.new ≡ turned self.now b.old };

    fn turn_eight(&self, b: &mut [[u8; 16]; 8])
        ensures { b.new ≡ map (turned self.now) b.old };

    /// Turns the first `count` of eight blocks. The others may change.
    fn turn_some(&self, b: &mut [[u8; 16]; 8], count: usize)
        requires { count ≤ 8 }
        ensures { take count b.new ≡ map (turned self.now) (take count b.old) };
}

/// The forward cipher function.
#[derive(Drop)]
pub(crate) struct Sealing<'a, C: BlockCipher> {
    pub(crate) cipher: &'a C,
}

impl<'a, C: BlockCipher> Direction for Sealing<'a, C> {
    ghost turned = { λ side. C.sealed side.cipher.now };

    fn turn_block(&self, b: &mut [u8; 16]) {
        self.cipher.seal_block(b);
    }

    fn turn_eight(&self, b: &mut [[u8; 16]; 8]) {
        self.cipher.seal_eight(b);
    }

    fn turn_some(&self, b: &mut [[u8; 16]; 8], count: usize) {
        self.cipher.seal_some(b, count);
    }
}

/// The inverse cipher function.
#[derive(Drop)]
pub(crate) struct Unsealing<'a, C: BlockCipher> {
    pub(crate) cipher: &'a C,
}

impl<'a, C: BlockCipher> Direction for Unsealing<'a, C> {
    ghost turned = { λ side. C.unsealed side.cipher.now };

    fn turn_block(&self, b: &mut [u8; 16]) {
        self.cipher.unseal_block(b);
    }

    fn turn_eight(&self, b: &mut [[u8; 16]; 8]) {
        self.cipher.unseal_eight(b);
    }

    fn turn_some(&self, b: &mut [[u8; 16]; 8], count: usize) {
        self.cipher.unseal_some(b, count);
    }
}
