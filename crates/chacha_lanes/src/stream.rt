//! The key stream over a text.

ghost use Rattle.std.specs.Prelude.{◌≡◌, ℕ, ◌+◌, ◌*◌, ◌/◌, ◌%◌, ◌^◌, ◌<◌, ◌≤◌, length, slice_index, bit_xor};
ghost use Rattle.std_defs.specs.ChaCha20.{stream_byte};

use crate::rounds::eight_blocks;
use crate::transposed::transposed;
use std::simd::prelude::*;

/// Adds the bytes of eight words to the text at a place.
#[inline(always)]
fn add_words(text: &mut [u8], at: usize, words: u32x8)
    requires { at + 32 ≤ length text.old }
    ensures long { length text.new ≡ length text.old }
    ensures before { (i : ℕ) → i < at → slice_index text.new i ≡ slice_index text.old i }
    ensures there { (k : ℕ) → k < 32
        → slice_index text.new (at + k) ≡ bit_xor (slice_index text.old (at + k)) (slice_index words (k / 4) / 256 ^ (k % 4) % 256) }
    ensures behind { (i : ℕ) → at + 32 ≤ i → slice_index text.new i ≡ slice_index text.old i }
{
    let sum = u8x32::from_slice(&text[at..at + 32]) ^ words.to_le_bytes();
    text[at..at + 32].copy_from_slice(&sum.to_array());
}

/// Adds eight blocks of the stream to 512 bytes (2.4).
pub(crate) fn xor_eight(text: &mut [u8], key: &[u32; 8], counter: u32, nonce: &[u32; 3])
    requires { length text.old ≡ 512 }
    ensures long { length text.new ≡ 512 }
    ensures sum { (i : ℕ) → i < 512 → slice_index text.new i ≡ bit_xor (slice_index text.old i) (stream_byte key.now nonce.now counter i) }
{
    let x = eight_blocks(key, counter, nonce);
    let front = transposed(x[0], x[1], x[2], x[3], x[4], x[5], x[6], x[7]);
    let back = transposed(x[8], x[9], x[10], x[11], x[12], x[13], x[14], x[15]);
    for n in 0..8usize {
        add_words(text, 64 * n, front[n]);
        add_words(text, 64 * n + 32, back[n]);
    }
}
