//! CBC.

ghost use Rattle.std.specs.Prelude.{◌≡◌};
ghost use Rattle.std_defs.specs.Modes.{cbc_seal, cbc_unseal};
ghost use Rattle.cbc_mode.specs.Laws.{cbc_unseals_what_it_sealed};

use crate::blocks::{seal_blocks, unseal_blocks};
use aes_block::{BlockCipher, Skcipher};
use kc_base::Errno;
use std::marker::Model;

/// CBC under a key, seen as its block cipher. An IV has 16 bytes. Texts of whole blocks of 16 bytes are taken, the
/// empty one among them.
///
/// Nobody may be able to foretell an IV (SP 800-38A, appendix C): draw it at random for each text. A counter or the
/// last ciphertext block won't do. Two texts under one IV show where they begin alike; so do equal ciphertext blocks,
/// which come up once the blocks under a key are near 2^64. No tag is made. Compare a MAC over IV and ciphertext before
/// anything is opened: who can tell whether a changed ciphertext opened to a well-formed text can read texts.
#[derive(Drop)]
pub struct Cbc<C: BlockCipher + Drop> {
    cipher: C,
}

impl<C: BlockCipher + Drop> Model for Cbc<C> {
    ghost Value = { C };

    ghost view = { λ mode. mode.cipher };
}

impl<C: BlockCipher + Drop> Cbc<C> {
    /// CBC over a cipher.
    pub fn new(cipher: C) -> Cbc<C>
        ensures { result ≡ cipher }
    {
        Cbc { cipher }
    }

    /// The cipher that it was made with.
    pub fn cipher(&self) -> &C
        ensures { result.now ≡ self.now }
    {
        &self.cipher
    }
}

impl<C: BlockCipher + Drop> Skcipher for Cbc<C> {
    ghost iv_size = { λ _. 16 };

    ghost seals = { λ mode iv text. cbc_seal (C.sealed mode) iv text };

    ghost unseals = { λ mode iv text. cbc_unseal (C.unsealed mode) iv text };

    ghost inverse = { λ mode. cbc_unseals_what_it_sealed (C.sealed mode) (C.unsealed mode) (C.inverse mode) };

    fn iv_len(&self) -> usize {
        16
    }

    fn seal(&self, iv: &[u8], b: &mut [u8]) -> Result<(), Errno> {
        if b.len() % 16 != 0 {
            return Err(Errno::EINVAL);
        }
        let mut before = [0u8; 16];
        before.copy_from_slice(iv);
        seal_blocks(&self.cipher, &before, b);
        Ok(())
    }

    fn unseal(&self, iv: &[u8], b: &mut [u8]) -> Result<(), Errno> {
        if b.len() % 16 != 0 {
            return Err(Errno::EINVAL);
        }
        let mut before = [0u8; 16];
        before.copy_from_slice(iv);
        unseal_blocks(&self.cipher, &before, b);
        Ok(())
    }
}
