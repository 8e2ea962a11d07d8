//! CTR as RFC 3686 has it.

ghost use Rattle.std.specs.Prelude.{◌≡◌, Some, length};
ghost use Rattle.std_defs.specs.Modes.{ctr, rfc3686_counter};
ghost use Rattle.ctr_mode.specs.Laws.{ctr_undoes_itself};

use crate::ctr::Ctr;
use aes_block::{BlockCipher, Skcipher};
use kc_base::Errno;
use std::marker::Model;

/// CTR whose first counter block is a nonce of 4 bytes, an IV of 8 and a block counter of 1 (RFC 3686, 4), seen as its
/// block cipher and the nonce. A text of any length is taken. It counts over all 128 bits, as the kernel does. The
/// RFC's counter has 32, so beyond 2^32 - 1 blocks under one IV this isn't the RFC's, and runs into the next IV's
/// blocks.
///
/// Under one key and nonce an IV may serve once (RFC 3686, 3.1): count the packets, and take a new key before the count
/// comes round. Two texts under one IV give away the sum of both. No tag is made, so a MAC belongs to it.
#[derive(Drop)]
pub struct Rfc3686<C: BlockCipher + Drop> {
    ctr: Ctr<C>,
    nonce: [u8; 4],
}

impl<C: BlockCipher + Drop> Model for Rfc3686<C> {
    ghost use Rattle.std.specs.Prelude.{ℕ, List};

    ghost Value = { C × List ℕ };

    ghost view = { λ mode. (mode.ctr, mode.nonce) };
}

impl<C: BlockCipher + Drop> Rfc3686<C> {
    /// The mode over a cipher, with the nonce that came with the cipher's key.
    pub fn new(cipher: C, nonce: [u8; 4]) -> Rfc3686<C>
        ensures { result ≡ (cipher, nonce) }
    {
        Rfc3686 {
            ctr: Ctr::new(cipher),
            nonce,
        }
    }

    /// CTR over its cipher.
    pub fn ctr(&self) -> &Ctr<C>
        ensures { result.now ≡ self.now.0 }
    {
        &self.ctr
    }

    /// The first counter block of a text, under an IV of 8 bytes.
    pub fn first_counter(&self, iv: &[u8]) -> [u8; 16]
        requires { length iv.now ≡ 8 }
        ensures { result ≡ rfc3686_counter self.now.1 iv.now }
    {
        counter_of(&self.nonce, iv)
    }

    /// The cipher that it was made with.
    pub fn cipher(&self) -> &C
        ensures { result.now ≡ self.now.0 }
    {
        self.ctr.cipher()
    }
}

/// The first counter block.
fn counter_of(nonce: &[u8; 4], iv: &[u8]) -> [u8; 16]
    requires { length iv.now ≡ 8 }
    ensures { result ≡ rfc3686_counter nonce.now iv.now }
{
    let mut block = [0, 0, 0, 0, 0, 0, 0, 0, 0, 0, 0, 0, 0, 0, 0, 1u8];
    block[..4].copy_from_slice(nonce);
    block[4..12].copy_from_slice(iv);
    block
}

impl<C: BlockCipher + Drop> Skcipher for Rfc3686<C> {
    ghost iv_size = { λ _. 8 };

    ghost seals = { λ mode iv text. Some (ctr (C.sealed mode.0) (rfc3686_counter mode.1 iv) text) };

    ghost unseals = { λ mode iv text. Some (ctr (C.sealed mode.0) (rfc3686_counter mode.1 iv) text) };

    ghost inverse = { λ mode. ctr_undoes_itself (C.sealed mode.0) 8 (rfc3686_counter mode.1) };

    fn iv_len(&self) -> usize {
        8
    }

    fn seal(&self, iv: &[u8], b: &mut [u8]) -> Result<(), Errno> {
        self.ctr.seal(&counter_of(&self.nonce, iv), b)
    }

    fn unseal(&self, iv: &[u8], b: &mut [u8]) -> Result<(), Errno> {
        self.seal(iv, b)
    }
}
