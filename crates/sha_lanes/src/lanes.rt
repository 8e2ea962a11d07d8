//! The message schedules of eight blocks (6.2.2, step 1), each in a lane of vectors.

ghost use Rattle.std.specs.Prelude.{◌≡◌, ℕ, ◌+◌, ◌*◌, ◌<◌, ◌≤◌, length, map, slice_index};
ghost use Rattle.std.specs.List.{range_with_len};
ghost use Rattle.std.specs.Int.{rotate_right, w32};
ghost use Rattle.sha2.specs.Sha256.{small_sigma0, small_sigma1};
ghost use Rattle.sha_lanes.specs.Lanes.{in_lane, block_at, keyed_words, first_row, next_row};

use crate::constants::ROUND_CONSTANTS;
use crate::one_block::word_at;
use std::simd::prelude::*;

/// Each lane, rotated.
#[inline(always)]
pub(crate) fn rotated(x: u32x8, by: u32) -> u32x8
    requires low { 1 ≤ by }
    requires high { by < 32 }
    ensures { result ≡ map (λ w. rotate_right w32 w by) x }
{
    (x >> u32x8::splat(by)) | (x << u32x8::splat(32 - by))
}

/// The lower case σ 0 of each lane (4.1.2).
#[inline(always)]
fn lower_sigma0(x: u32x8) -> u32x8
    ensures { result ≡ map small_sigma0 x }
{
    rotated(x, 7) ^ rotated(x, 18) ^ (x >> u32x8::splat(3))
}

/// The lower case σ 1 of each lane (4.1.2).
#[inline(always)]
fn lower_sigma1(x: u32x8) -> u32x8
    ensures { result ≡ map small_sigma1 x }
{
    rotated(x, 17) ^ rotated(x, 19) ^ (x >> u32x8::splat(10))
}

/// Word `t` of each block, for one of the first 16.
#[inline(always)]
fn first_row(blocks: &[u8], t: usize) -> [u32; 8]
    requires blocks { length blocks.now ≡ 512 }
    requires word { t < 16 }
    ensures { result ≡ first_row blocks.now t }
{
    let i = 4 * t;
    [
        word_at(blocks, i),
        word_at(blocks, 64 + i),
        word_at(blocks, 128 + i),
        word_at(blocks, 192 + i),
        word_at(blocks, 256 + i),
        word_at(blocks, 320 + i),
        word_at(blocks, 384 + i),
        word_at(blocks, 448 + i),
    ]
}

/// A row as a vector.
#[inline(always)]
fn vector(row: &[u32; 8]) -> u32x8
    ensures { result ≡ map (slice_index row.now) (range_with_len 0 8) }
{
    u32x8::from_array(*row)
}

/// Word `t` of each schedule from those before it.
#[inline(always)]
pub(crate) fn next_row(rows: &[[u32; 8]; 64], t: usize) -> u32x8
    requires from { 16 ≤ t }
    requires to { t < 64 }
    ensures { result ≡ next_row rows.now t }
{
    lower_sigma1(vector(&rows[t - 2]))
        + vector(&rows[t - 7])
        + lower_sigma0(vector(&rows[t - 15]))
        + vector(&rows[t - 16])
}

/// Writes the schedules of eight blocks, with the constants of the rounds added to them: row `t` has the word `t` of
/// each.
pub(crate) fn write_eight(rows: &mut [[u32; 8]; 64], blocks: &[u8])
    requires { length blocks.now ≡ 512 }
    ensures { (n : ℕ) → n < 8 → in_lane rows.new n ≡ keyed_words (block_at blocks.now n) }
{
    'first: for t in 0..16usize {
        rows[t] = first_row(blocks, t);
    }
    'next: for t in 16..64usize {
        rows[t] = next_row(rows, t).to_array();
    }
    'keyed: for t in 0..64usize {
        rows[t] = (vector(&rows[t]) + u32x8::splat(ROUND_CONSTANTS[t])).to_array();
    }
}
