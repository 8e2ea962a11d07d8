//! CBC over segments.

ghost use Rattle.std.specs.Prelude.{◌≡◌, ◌-◌, ◌/◌, ◌%◌, ◌<◌, All, nat_lt, if◌then◌else◌, length, drop, Some};
ghost use Rattle.std_defs.specs.Modes.{cbc_seal, cbc_unseal, cbc_block, cbc_before};
ghost use Rattle.seg_modes.specs.Cbc.{Seals, seals_none, seals_on, Unseals, unseals_none, unseals_on};

use crate::seg_cipher::SegCipher;
use aes_block::{BlockCipher, Skcipher};
use cbc_mode::Cbc;
use kc_base::Errno;
use sg_walk::{Segs, Walker};
use std::marker::Model;

/// What the type of a text says: each of its elements is a byte.
fn are_bytes(text: &[u8])
    ensures { All (λ x. x < 256) text.now }
{}

/// The last block of a text of whole blocks, or `before` where it has none.
fn last_block(before: [u8; 16], text: &[u8]) -> [u8; 16]
    ensures { result ≡ (if nat_lt (length text.now) 16 then before else drop (length text.now - 16) text.now) }
{
    if text.len() < 16 {
        return before;
    }
    let mut block = [0u8; 16];
    block.copy_from_slice(&text[text.len() - 16..]);
    block
}

/// The chain of CBC on its way over a text of whole blocks that is sealed: contracts see the cipher and the ciphertext
/// block before what comes next.
#[derive(Drop)]
pub struct SealingChain<'a, C: BlockCipher + Drop> {
    mode: &'a Cbc<C>,
    before: [u8; 16],
}

/// The same, of a text that is unsealed.
#[derive(Drop)]
pub struct UnsealingChain<'a, C: BlockCipher + Drop> {
    mode: &'a Cbc<C>,
    before: [u8; 16],
}

impl<'a, C: BlockCipher + Drop> Model for SealingChain<'a, C> {
    ghost use Rattle.std.specs.Prelude.{ℕ, List};

    ghost Value = { C × List ℕ };

    ghost view = { λ at. (at.mode.now, at.before) };
}

impl<'a, C: BlockCipher + Drop> Model for UnsealingChain<'a, C> {
    ghost use Rattle.std.specs.Prelude.{ℕ, List};

    ghost Value = { C × List ℕ };

    ghost view = { λ at. (at.mode.now, at.before) };
}

impl<'a, C: BlockCipher + Drop> SealingChain<'a, C> {
    /// The chain of a whole text.
    pub fn new(mode: &'a Cbc<C>, iv: [u8; 16]) -> SealingChain<'a, C>
        ensures { result ≡ (mode.now, iv) }
    {
        SealingChain { mode, before: iv }
    }
}

impl<'a, C: BlockCipher + Drop> UnsealingChain<'a, C> {
    /// The chain of a whole text.
    pub fn new(mode: &'a Cbc<C>, iv: [u8; 16]) -> UnsealingChain<'a, C>
        ensures { result ≡ (mode.now, iv) }
    {
        UnsealingChain { mode, before: iv }
    }
}

impl<'a, C: BlockCipher + Drop> Walker for SealingChain<'a, C> {
    ghost makes = { λ u text made v. Seals C.sealed u text made v };

    ghost stays = { λ walker. seals_none C.sealed walker };

    ghost joins = { λ u v w a b made_a made_b whole first second. seals_on C.sealed u v w a b made_a made_b whole first second };

    fn step(&mut self, piece: &mut [u8]) {
        are_bytes(&self.before);
        are_bytes(piece);
        // a piece of whole blocks is taken
        let _ = self.mode.seal(&self.before, piece);
        self.before = last_block(self.before, piece);
    }
}

impl<'a, C: BlockCipher + Drop> Walker for UnsealingChain<'a, C> {
    ghost makes = { λ u text made v. Unseals C.unsealed u text made v };

    ghost stays = { λ walker. unseals_none C.unsealed walker };

    ghost joins = { λ u v w a b made_a made_b whole first second. unseals_on C.unsealed u v w a b made_a made_b whole first second };

    fn step(&mut self, piece: &mut [u8]) {
        // the ciphertext block, which no longer stands in the piece then
        let next = last_block(self.before, piece);
        let _ = self.mode.unseal(&self.before, piece);
        self.before = next;
    }
}

impl<C: BlockCipher + Drop> SegCipher for Cbc<C> {
    fn seal_segs(&self, iv: &[u8], b: &mut Segs) -> Result<(), Errno> {
        if b.len() % 16 != 0 {
            return Err(Errno::EINVAL);
        }
        let mut first = [0u8; 16];
        first.copy_from_slice(iv);
        let mut chain = SealingChain::new(self, first);
        b.walk(&mut chain);
        Ok(())
    }

    fn unseal_segs(&self, iv: &[u8], b: &mut Segs) -> Result<(), Errno> {
        if b.len() % 16 != 0 {
            return Err(Errno::EINVAL);
        }
        let mut first = [0u8; 16];
        first.copy_from_slice(iv);
        let mut chain = UnsealingChain::new(self, first);
        b.walk(&mut chain);
        Ok(())
    }
}

/// Seals a text of whole blocks in its place. The IV becomes that of the text behind it: the last ciphertext block.
pub fn seal_on<C: BlockCipher + Drop>(mode: &Cbc<C>, iv: &mut [u8; 16], text: &mut [u8])
    requires { length text.old % 16 ≡ 0 }
    ensures made { cbc_seal (C.sealed mode.now) iv.old text.old ≡ Some text.new }
    ensures next { iv.new ≡ cbc_block (C.sealed mode.now) iv.old text.old (length text.old / 16) }
{
    let mut chain = SealingChain::new(mode, *iv);
    chain.step(text);
    *iv = chain.before;
}

/// Unseals a text of whole blocks in its place. The IV becomes that of the text behind it: the last block of what the
/// text was.
pub fn unseal_on<C: BlockCipher + Drop>(mode: &Cbc<C>, iv: &mut [u8; 16], text: &mut [u8])
    requires { length text.old % 16 ≡ 0 }
    ensures made { cbc_unseal (C.unsealed mode.now) iv.old text.old ≡ Some text.new }
    ensures next { iv.new ≡ cbc_before iv.old text.old (length text.old / 16) }
{
    let mut chain = UnsealingChain::new(mode, *iv);
    chain.step(text);
    *iv = chain.before;
}
