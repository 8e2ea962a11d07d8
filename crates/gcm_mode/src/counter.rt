//! The counter blocks of an IV, and the key stream that their ciphers are.

ghost use Rattle.std.specs.Prelude.{◌≡◌, length};
ghost use Rattle.std_defs.specs.Blocks.{block_bytes as bytes_of};
ghost use Rattle.std_defs.specs.Gcm.{pre_counter_block, inc32, counter_block, gctr, gcm_text};
ghost use Rattle.ctr_mode.specs.Streams.{AreFirst};

use aes_block::BlockCipher;
use ctr_mode::CounterBlocks;
use std_defs::{block_bytes, block_number};

/// The counter block after this one: the rightmost 32 bits count, and nothing is carried beyond them (6.2).
#[tactic(auto, unfolding(std_defs::specs::Gcm::inc32))]
fn next_counter(block: u128) -> u128
    ensures { result ≡ inc32 block }
{
    block / 0x1_0000_0000 * 0x1_0000_0000 + (block % 0x1_0000_0000 + 1) % 0x1_0000_0000
}

/// The counter block of an IV from which the tag is sealed (7.1, step 2).
#[tactic(auto, unfolding(std_defs::specs::Gcm::pre_counter_block))]
pub(crate) fn pre_counter(iv: &[u8; 12]) -> u128
    ensures { result ≡ pre_counter_block iv.now }
{
    let mut block = [0, 0, 0, 0, 0, 0, 0, 0, 0, 0, 0, 0, 0, 0, 0, 1u8];
    block[..12].copy_from_slice(iv);
    block_number(block)
}

/// The counter block of an IV from which the text is sealed (7.1, step 3).
pub(crate) fn first_counter(iv: &[u8; 12]) -> u128
    ensures { result ≡ inc32 (pre_counter_block iv.now) }
{
    next_counter(pre_counter(iv))
}

/// The counter block `count` after this one.
#[tactic(auto, using(crate::proofs::Counted::counted))]
#[inline(always)]
pub(crate) fn counter_after(block: u128, count: u64) -> u128
    ensures { result ≡ counter_block block count }
{
    block / 0x1_0000_0000 * 0x1_0000_0000
        + (block % 0x1_0000_0000 + u128::from(count)) % 0x1_0000_0000
}

/// The counter blocks from one on (6.5).
#[derive(Drop)]
pub(crate) struct Counter {
    pub(crate) next: u128,
}

impl CounterBlocks for Counter {
    ghost block = { λ counter n. bytes_of (counter_block counter.next n) };

    fn first(&self) -> [u8; 16] {
        block_bytes(self.next)
    }

    #[inline(always)]
    fn first_eight(&self) -> [[u8; 16]; 8] {
        [
            block_bytes(self.next),
            block_bytes(counter_after(self.next, 1)),
            block_bytes(counter_after(self.next, 2)),
            block_bytes(counter_after(self.next, 3)),
            block_bytes(counter_after(self.next, 4)),
            block_bytes(counter_after(self.next, 5)),
            block_bytes(counter_after(self.next, 6)),
            block_bytes(counter_after(self.next, 7)),
        ]
    }

    fn skip(&mut self, count: u64) {
        self.next = counter_after(self.next, count);
    }
}

/// The ciphers of J0 and of the counter blocks behind it, as many of the eight as a text of that length takes.
pub(crate) fn first_ciphers<C: BlockCipher>(
    cipher: &C,
    iv: &[u8; 12],
    text_len: usize,
) -> [[u8; 16]; 8]
    ensures { AreFirst (C.sealed cipher.now) (λ n. bytes_of (counter_block (pre_counter_block iv.now) n)) text_len result }
{
    let counters = Counter {
        next: pre_counter(iv),
    };
    ctr_mode::first_ciphers(cipher, &counters, text_len)
}

/// Xors the text with the ciphers of the counter blocks behind J0 (7.1, step 3), of which `first_ciphers` gave the
/// first.
pub(crate) fn apply_behind_first<C: BlockCipher>(
    cipher: &C,
    iv: &[u8; 12],
    first: &[[u8; 16]; 8],
    text: &mut [u8],
)
    requires { AreFirst (C.sealed cipher.now) (λ n. bytes_of (counter_block (pre_counter_block iv.now) n)) (length text.old) first.now }
    ensures { text.new ≡ gcm_text (C.sealed cipher.now) iv.now text.old }
{
    let counters = Counter {
        next: pre_counter(iv),
    };
    ctr_mode::apply_behind_first(cipher, counters, first, text);
}

/// Xors the text with the ciphers of the counter blocks from `initial` on (6.5).
pub(crate) fn apply_key_stream<C: BlockCipher>(cipher: &C, initial: u128, text: &mut [u8])
    ensures { text.new ≡ gctr (C.sealed cipher.now) initial text.old }
{
    ctr_mode::apply_key_stream(cipher, Counter { next: initial }, text);
}
