//! The rounds of eight blocks, of eight messages, each in a lane of vectors.

ghost use Rattle.std.specs.Prelude.{◌≡◌, ℕ, ◌+◌, ◌<◌, ◌≤◌, List, length, slice_index};
ghost use Rattle.sha2.specs.Sha256.{add32, add_state, big_sigma0, big_sigma1, ch, compress, maj, round, rounds, schedule};
ghost use Rattle.sha_lanes.specs.Lanes.{block_at, in_lane};
ghost use Rattle.sha_lanes.specs.Words.{IsRoundsAt};

use crate::constants::ROUND_CONSTANTS;
use crate::lanes::{next_row, rotated};
use crate::transposed::eight_rows;
use std::simd::prelude::*;

/// The sum of each lane, with the carry dropped.
#[inline(always)]
fn sum(x: u32x8, y: u32x8) -> u32x8
    ensures { (n : ℕ) → n < 8 → slice_index result n ≡ add32 (slice_index x n) (slice_index y n) }
{
    x + y
}

/// Ch of each lane (4.1.2).
#[inline(always)]
fn choice(x: u32x8, y: u32x8, z: u32x8) -> u32x8
    ensures { (n : ℕ) → n < 8 → slice_index result n ≡ ch (slice_index x n) (slice_index y n) (slice_index z n) }
{
    (x & y) ^ (!x & z)
}

/// Maj of each lane (4.1.2).
#[inline(always)]
fn majority(x: u32x8, y: u32x8, z: u32x8) -> u32x8
    ensures { (n : ℕ) → n < 8 → slice_index result n ≡ maj (slice_index x n) (slice_index y n) (slice_index z n) }
{
    y ^ ((x ^ y) & (y ^ z))
}

/// The upper case Σ 0 of each lane (4.1.2).
#[inline(always)]
fn upper_sigma0(x: u32x8) -> u32x8
    ensures { (n : ℕ) → n < 8 → slice_index result n ≡ big_sigma0 (slice_index x n) }
{
    rotated(x, 2) ^ rotated(x, 13) ^ rotated(x, 22)
}

/// The upper case Σ 1 of each lane (4.1.2).
#[inline(always)]
fn upper_sigma1(x: u32x8) -> u32x8
    ensures { (n : ℕ) → n < 8 → slice_index result n ≡ big_sigma1 (slice_index x n) }
{
    rotated(x, 6) ^ rotated(x, 11) ^ rotated(x, 25)
}

/// A round on the working variables of eight blocks, with the sums of the constant and each word.
#[inline(always)]
fn round(v: [u32x8; 8], word: u32x8) -> [u32x8; 8]
    ensures { (n k w : ℕ) → n < 8 → slice_index word n ≡ add32 w k → in_lane result n ≡ round (in_lane v n) k w }
{
    let temp1 = sum(
        sum(sum(v[7], word), choice(v[4], v[5], v[6])),
        upper_sigma1(v[4]),
    );
    let temp2 = sum(upper_sigma0(v[0]), majority(v[0], v[1], v[2]));
    [
        sum(temp1, temp2),
        v[0],
        v[1],
        v[2],
        sum(v[3], temp1),
        v[4],
        v[5],
        v[6],
    ]
}

/// The hash values with the working variables added to them (6.2.2, step 4).
#[inline(always)]
fn added(state: [u32x8; 8], v: [u32x8; 8]) -> [u32x8; 8]
    ensures { (n : ℕ) → n < 8 → in_lane result n ≡ add_state (in_lane state n) (in_lane v n) }
{
    [
        sum(state[0], v[0]),
        sum(state[1], v[1]),
        sum(state[2], v[2]),
        sum(state[3], v[3]),
        sum(state[4], v[4]),
        sum(state[5], v[5]),
        sum(state[6], v[6]),
        sum(state[7], v[7]),
    ]
}

/// Round `t` of all blocks with the word of each, which is kept for the words behind it.
#[inline(always)]
fn step(rows: &mut [[u32; 8]; 64], v: [u32x8; 8], t: usize, words: u32x8) -> [u32x8; 8]
    requires { t < 64 }
    ensures { (n : ℕ) (h b : List ℕ) → n < 8 → slice_index words n ≡ slice_index (schedule b 48) t
        → IsRoundsAt h b (in_lane rows.old n) (in_lane v n) t → IsRoundsAt h b (in_lane rows.new n) (in_lane result n) (t + 1) }
{
    rows[t] = words.to_array();
    round(v, sum(words, u32x8::splat(ROUND_CONSTANTS[t])))
}

/// One of the rounds behind the first 16, whose words come from those before them.
#[inline(always)]
fn next_step(rows: &mut [[u32; 8]; 64], v: [u32x8; 8], t: usize) -> [u32x8; 8]
    requires from { 16 ≤ t }
    requires to { t < 64 }
    ensures { (n : ℕ) (h b : List ℕ) → n < 8 → IsRoundsAt h b (in_lane rows.old n) (in_lane v n) t
        → IsRoundsAt h b (in_lane rows.new n) (in_lane result n) (t + 1) }
{
    let words = next_row(rows, t);
    step(rows, v, t, words)
}

/// Eight of the first rounds from `t` on, whose words are the blocks'.
#[inline(always)]
fn eight_first_steps(
    rows: &mut [[u32; 8]; 64],
    blocks: &[u8],
    v: [u32x8; 8],
    t: usize,
) -> [u32x8; 8]
    requires blocks { length blocks.now ≡ 512 }
    requires rounds { t + 8 ≤ 16 }
    ensures { (n : ℕ) (h : List ℕ) → n < 8 → IsRoundsAt h (block_at blocks.now n) (in_lane rows.old n) (in_lane v n) t
        → IsRoundsAt h (block_at blocks.now n) (in_lane rows.new n) (in_lane result n) (t + 8) }
{
    let words = eight_rows(blocks, t);
    let v = step(rows, v, t, words[0]);
    let v = step(rows, v, t + 1, words[1]);
    let v = step(rows, v, t + 2, words[2]);
    let v = step(rows, v, t + 3, words[3]);
    let v = step(rows, v, t + 4, words[4]);
    let v = step(rows, v, t + 5, words[5]);
    let v = step(rows, v, t + 6, words[6]);
    step(rows, v, t + 7, words[7])
}

/// Eight of the others, after which each working variable is in its place again.
#[inline(always)]
fn eight_next_steps(rows: &mut [[u32; 8]; 64], v: [u32x8; 8], t: usize) -> [u32x8; 8]
    requires from { 16 ≤ t }
    requires to { t + 8 ≤ 64 }
    ensures { (n : ℕ) (h b : List ℕ) → n < 8 → IsRoundsAt h b (in_lane rows.old n) (in_lane v n) t
        → IsRoundsAt h b (in_lane rows.new n) (in_lane result n) (t + 8) }
{
    let v = next_step(rows, v, t);
    let v = next_step(rows, v, t + 1);
    let v = next_step(rows, v, t + 2);
    let v = next_step(rows, v, t + 3);
    let v = next_step(rows, v, t + 4);
    let v = next_step(rows, v, t + 5);
    let v = next_step(rows, v, t + 6);
    next_step(rows, v, t + 7)
}

/// The working variables behind all rounds, in room for the words.
#[inline(always)]
fn all_steps(rows: &mut [[u32; 8]; 64], blocks: &[u8], state: [u32x8; 8]) -> [u32x8; 8]
    requires { length blocks.now ≡ 512 }
    ensures { (n : ℕ) → n < 8 → in_lane result n ≡ rounds (in_lane state n) (schedule (block_at blocks.now n) 48) 64 }
{
    let v = eight_first_steps(rows, blocks, state, 0);
    let mut v = eight_first_steps(rows, blocks, v, 8);
    for turn in 2..8usize {
        let next = eight_next_steps(rows, v, 8 * turn);
        v = next;
    }
    v
}

/// Takes a block into each of eight hash values (6.2.2): lane `n` has the value `n`, and the block `n` of the bytes.
/// The words stand in `rows`.
#[tactic(auto, unfolding(sha2::specs::Sha256::compress))]
pub fn compress_in_step(state: [u32x8; 8], rows: &mut [[u32; 8]; 64], blocks: &[u8]) -> [u32x8; 8]
    requires { length blocks.now ≡ 512 }
    ensures { (n : ℕ) → n < 8 → in_lane result n ≡ compress (in_lane state n) (block_at blocks.now n) }
{
    let v = all_steps(rows, blocks, state);
    added(state, v)
}
