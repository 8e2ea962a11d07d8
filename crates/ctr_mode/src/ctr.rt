//! CTR.

ghost use Rattle.std.specs.Prelude.{◌≡◌, Some};
ghost use Rattle.std_defs.specs.Modes.{ctr};
ghost use Rattle.ctr_mode.specs.Laws.{ctr_undoes_itself};

use crate::counter::Counter;
use crate::key_stream::apply_key_stream;
use aes_block::{BlockCipher, Skcipher};
use kc_base::Errno;
use std::marker::Model;

/// CTR under a key, seen as its block cipher. An IV is the first counter block, of 16 bytes; a text of any length is
/// taken.
///
/// Under one key no counter block may serve twice (SP 800-38A, appendix B): a text of n bytes takes its IV and the
/// blocks behind it, n / 16 of them rounded up in all. Two texts under one block give away the sum of both. IVs that
/// are drawn at random keep apart only while the blocks under a key stay far fewer than 2^64. No tag is made: who
/// changes a bit of a ciphertext changes that bit of the text, and nobody sees it, so a MAC belongs to it.
#[derive(Drop)]
pub struct Ctr<C: BlockCipher + Drop> {
    cipher: C,
}

impl<C: BlockCipher + Drop> Model for Ctr<C> {
    ghost Value = { C };

    ghost view = { λ mode. mode.cipher };
}

impl<C: BlockCipher + Drop> Ctr<C> {
    /// CTR over a cipher.
    pub fn new(cipher: C) -> Ctr<C>
        ensures { result ≡ cipher }
    {
        Ctr { cipher }
    }

    /// The cipher that it was made with.
    pub fn cipher(&self) -> &C
        ensures { result.now ≡ self.now }
    {
        &self.cipher
    }
}

impl<C: BlockCipher + Drop> Skcipher for Ctr<C> {
    ghost iv_size = { λ _. 16 };

    ghost seals = { λ mode iv text. Some (ctr (C.sealed mode) iv text) };

    ghost unseals = { λ mode iv text. Some (ctr (C.sealed mode) iv text) };

    ghost inverse = { λ mode. ctr_undoes_itself (C.sealed mode) 16 (λ iv. iv) };

    fn iv_len(&self) -> usize {
        16
    }

    fn seal(&self, iv: &[u8], b: &mut [u8]) -> Result<(), Errno> {
        let mut first = [0u8; 16];
        first.copy_from_slice(iv);
        apply_key_stream(&self.cipher, Counter::from_block(first), b);
        Ok(())
    }

    fn unseal(&self, iv: &[u8], b: &mut [u8]) -> Result<(), Errno> {
        self.seal(iv, b)
    }
}
