//! XTS.

ghost use Rattle.std.specs.Prelude.{◌≡◌, nat_le, length};
ghost use Rattle.std_defs.specs.Xts.{xts_seal, xts_unseal};
ghost use Rattle.xts_mode.specs.Laws.{xts_unseals_what_it_sealed};

use crate::blocks::{steal, turn_blocks};
use crate::direction::{Direction, Sealing, Unsealing};
use crate::tweak::Tweak;
use aes_block::{BlockCipher, Skcipher};
use kc_base::Errno;
use std::marker::Model;

/// Whether a text is a data unit: it has one whole block at least (5.1).
fn is_data_unit(text: &[u8]) -> bool
    ensures { result ≡ nat_le 16 (length text.now) }
{
    text.len() >= 16
}

/// XTS under two keys, seen as the cipher of Key1, for the data, and that of Key2, for the tweaks. An IV is a tweak
/// value of 16 bytes, the lowest first; a text is a data unit of 16 bytes or more.
///
/// The two keys differ, each place of a store has a tweak value of its own, and a data unit has at most 2^20 blocks, so
/// 16 MiB (SP 800-38E, 4). A place that is written again under the same keys keeps its tweak value, and who sees both
/// ciphertexts learns which blocks changed. No tag is made: a changed or an old ciphertext block opens to some text,
/// and nobody sees it. So it is for stores whose sectors have no room for a tag, and not for packets.
#[derive(Drop)]
pub struct Xts<C: BlockCipher + Drop> {
    body: C,
    tweak: C,
}

impl<C: BlockCipher + Drop> Model for Xts<C> {
    ghost Value = { C × C };

    ghost view = { λ mode. (mode.body, mode.tweak) };
}

impl<C: BlockCipher + Drop> Xts<C> {
    /// XTS over the ciphers of Key1 and of Key2.
    pub fn new(body: C, tweak: C) -> Xts<C>
        ensures { result ≡ (body, tweak) }
    {
        Xts { body, tweak }
    }

    /// The tweak of the first block of the data unit with this tweak value (5.3.1, step 1).
    fn first_tweak(&self, value: &[u8]) -> Tweak
        requires { length value.now ≡ 16 }
        ensures { result ≡ C.sealed self.now.1 value.now }
    {
        let mut block = [0u8; 16];
        block.copy_from_slice(value);
        self.tweak.seal_block(&mut block);
        Tweak::from_bytes(&block)
    }
}

impl<C: BlockCipher + Drop> Skcipher for Xts<C> {
    ghost iv_size = { λ _. 16 };

    ghost seals = { λ mode iv text. xts_seal (C.sealed mode.0) (C.sealed mode.1) iv text };

    ghost unseals = { λ mode iv text. xts_unseal (C.unsealed mode.0) (C.sealed mode.1) iv text };

    ghost inverse = { λ mode. xts_unseals_what_it_sealed
        (C.sealed mode.0) (C.unsealed mode.0) (C.sealed mode.1) (C.unsealed mode.1) (C.inverse mode.0) (C.inverse mode.1) };

    fn iv_len(&self) -> usize {
        16
    }

    fn seal(&self, iv: &[u8], b: &mut [u8]) -> Result<(), Errno> {
        if !is_data_unit(b) {
            return Err(Errno::EINVAL);
        }
        let forward = Sealing { cipher: &self.body };
        let mut tweak = self.first_tweak(iv);
        let stolen = b.len() % 16;
        if stolen == 0 {
            turn_blocks(&forward, &mut tweak, b);
            return Ok(());
        }
        let last = b.len() - stolen - 16;
        turn_blocks(&forward, &mut tweak, &mut b[..last]);
        let next = tweak.next();
        steal(&forward, &tweak, &next, &mut b[last..]);
        Ok(())
    }

    fn unseal(&self, iv: &[u8], b: &mut [u8]) -> Result<(), Errno> {
        if !is_data_unit(b) {
            return Err(Errno::EINVAL);
        }
        let inverse = Unsealing { cipher: &self.body };
        let mut tweak = self.first_tweak(iv);
        let stolen = b.len() % 16;
        if stolen == 0 {
            turn_blocks(&inverse, &mut tweak, b);
            return Ok(());
        }
        let last = b.len() - stolen - 16;
        turn_blocks(&inverse, &mut tweak, &mut b[..last]);
        let next = tweak.next();
        steal(&inverse, &next, &tweak, &mut b[last..]);
        Ok(())
    }
}
