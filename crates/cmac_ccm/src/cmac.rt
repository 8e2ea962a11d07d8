//! CMAC.

ghost use Rattle.std.specs.Prelude.{◌≡◌, ◌≤◌, length};
ghost use Rattle.std_defs.specs.Blocks.{block_bytes as bytes_of};
ghost use Rattle.std_defs.specs.Cmac.{doubled, cmac_k1, cmac_k2, cmac_last, cmac};

use crate::chain::{add_block, chain_block, chain_blocks};
use aes_block::BlockCipher;
use std::marker::Model;
use std_defs::{block_bytes, block_number};

/// The block moved left by one bit, and the constant added where a 1 falls out (6.1). Both cases take the same steps,
/// since the block tells of the key.
fn double(block: u128) -> u128
    ensures { result ≡ doubled block }
{
    (block << 1) ^ (0x87 * (block >> 127))
}

/// CMAC under a key, seen as its block cipher.
///
/// The key is for this alone. The front of a MAC may serve as a tag: a guess at n bytes is right once in 256^n tries,
/// so take 8 or more (SP 800-38B, appendix A), and compare them by `tags_differ`. Take a new key after 2^48 texts at
/// most (appendix B). A MAC says nothing of order: against a text that is sent again put a number into it (appendix C).
#[derive(Drop)]
pub struct Cmac<C: BlockCipher + Drop> {
    cipher: C,
    k1: [u8; 16],
    k2: [u8; 16],
}

impl<C: BlockCipher + Drop> Model for Cmac<C> {
    ghost Value = { C };

    ghost view = { λ mac. mac.cipher };

    ghost invariant = { λ mac. (mac.k1 ≡ bytes_of (cmac_k1 (C.sealed mac.cipher))) × (mac.k2 ≡ bytes_of (cmac_k2 (C.sealed mac.cipher))) };
}

impl<C: BlockCipher + Drop> Cmac<C> {
    /// CMAC over a cipher: its subkeys are made once (6.1).
    pub fn new(cipher: C) -> Cmac<C>
        ensures { result ≡ cipher }
    {
        let mut block = [0u8; 16];
        cipher.seal_block(&mut block);
        let k1 = double(block_number(block));
        Cmac {
            cipher,
            k1: block_bytes(k1),
            k2: block_bytes(double(k1)),
        }
    }

    /// The cipher that it was made with.
    pub fn cipher(&self) -> &C
        ensures { result.now ≡ self.now }
    {
        &self.cipher
    }

    /// The MAC of a text of any length, of 16 bytes (6.2).
    pub fn mac(&self, text: &[u8]) -> [u8; 16]
        ensures { result ≡ cmac (C.sealed self.now) text.now }
    {
        let before = text.len().saturating_sub(1) / 16;
        let mut chain = [0u8; 16];
        chain_blocks(&self.cipher, &mut chain, text, before);
        let last = self.last_block(&text[16 * before..]);
        chain_block(&self.cipher, &mut chain, &last);
        chain
    }

    /// The last block, made whole and added to its subkey (6.2, step 4).
    pub(crate) fn last_block(&self, bytes: &[u8]) -> [u8; 16]
        requires { length bytes.now ≤ 16 }
        ensures { result ≡ cmac_last (C.sealed self.now) bytes.now }
    {
        let mut block = [0u8; 16];
        block[..bytes.len()].copy_from_slice(bytes);
        if bytes.len() == 16 {
            add_block(&mut block, &self.k1);
        } else {
            block[bytes.len()] = 0x80;
            add_block(&mut block, &self.k2);
        }
        block
    }
}
