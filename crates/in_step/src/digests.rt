//! The digests of eight messages, each hashed in a lane.

ghost use Rattle.std.specs.Prelude.{◌≡◌, ◌≢◌, ℕ, List, [], ◌+◌, ◌*◌, ◌/◌, ◌%◌, ◌^◌, ◌<◌, ◌≤◌, ◌++◌, min, length, slice_index, slice_index_or};
ghost use Rattle.sha2.specs.Sha256.{digest_bytes, hash_after, initial_hash_256, sha256};
ghost use Rattle.sha_lanes.specs.Hashers.{HasAbsorbed};
ghost use Rattle.sha_lanes.specs.Lanes.{block_at, in_lane};
ghost use Rattle.in_step.specs.Pieces.{AreCounts, AreShort, behind, piece};

use crate::padding::{count_of, put_block};
use sha_lanes::{Sha256, compress_in_step, compressed, digest_of};
use std::simd::prelude::*;

/// Fewer messages than these are hashed sooner one by one: a step costs as much as so many blocks.
const LEAST_LANES: usize = 4;

/// The hash value in each lane.
fn in_all_lanes(value: &[u32; 8]) -> [u32x8; 8]
    ensures { (n : ℕ) → n < 8 → in_lane result n ≡ value.now }
{
    [
        u32x8::splat(value[0]),
        u32x8::splat(value[1]),
        u32x8::splat(value[2]),
        u32x8::splat(value[3]),
        u32x8::splat(value[4]),
        u32x8::splat(value[5]),
        u32x8::splat(value[6]),
        u32x8::splat(value[7]),
    ]
}

/// The hash value in a lane.
fn lane_of(values: &[u32x8; 8], lane: usize) -> [u32; 8]
    requires { lane < 8 }
    ensures { result ≡ in_lane values.now lane }
{
    [
        values[0].to_array()[lane],
        values[1].to_array()[lane],
        values[2].to_array()[lane],
        values[3].to_array()[lane],
        values[4].to_array()[lane],
        values[5].to_array()[lane],
        values[6].to_array()[lane],
        values[7].to_array()[lane],
    ]
}

/// How many blocks each message has with its padding.
fn counts_of(firsts: &[&[u8]; 8], seconds: &[&[u8]; 8]) -> [usize; 8]
    requires { AreShort firsts.now seconds.now }
    ensures { AreCounts result firsts.now seconds.now }
{
    let mut counts = [0usize; 8];
    for n in 0..8usize {
        counts[n] = count_of(firsts[n], seconds[n]);
    }
    counts
}

/// How many of the counts are no less than this one.
fn as_many(counts: &[usize; 8], least: usize) -> usize {
    counts.iter().filter(|count| **count >= least).count()
}

/// How many blocks are hashed in step: as many as enough messages have.
fn steps_of(counts: &[usize; 8]) -> usize {
    let mut steps = 0;
    for count in counts {
        if *count > steps && as_many(counts, *count) >= LEAST_LANES {
            steps = *count;
        }
    }
    steps
}

/// Writes block `i` of the message, where it has one.
#[inline(always)]
fn put_next(block: &mut [u8], taken: u64, first: &[u8], second: &[u8], count: usize, i: usize)
    requires block { length block.old ≡ 64 }
    requires short { length first.now + length second.now < 2 ^ 63 }
    requires edge { taken % 64 ≡ 0 }
    requires count { count ≡ (length first.now + length second.now + 72) / 64 }
    ensures { i < count → block.new ≡ block_at (behind taken first.now second.now) i }
{
    if i < count {
        put_block(block, taken, first, second, i);
    }
}

/// Writes block `i` of each message that has it into its lane's place.
fn put_blocks(
    blocks: &mut [u8; 512],
    taken: u64,
    firsts: &[&[u8]; 8],
    seconds: &[&[u8]; 8],
    counts: &[usize; 8],
    i: usize,
)
    requires short { AreShort firsts.now seconds.now }
    requires counts { AreCounts counts.now firsts.now seconds.now }
    requires edge { taken % 64 ≡ 0 }
    ensures { (n : ℕ) → n < 8 → i < slice_index counts.now n
        → block_at blocks.new n ≡ block_at (behind taken (piece firsts.now n) (piece seconds.now n)) i }
{
    for n in 0..8usize {
        put_next(
            &mut blocks[64 * n..64 * n + 64],
            taken,
            firsts[n],
            seconds[n],
            counts[n],
            i,
        );
    }
}

/// Keeps the hash value of a lane whose count is in the range.
fn keep_one(
    kept: &mut [u32; 8],
    values: &[u32x8; 8],
    lane: usize,
    count: usize,
    from: usize,
    to: usize,
)
    requires { lane < 8 }
    ensures taken { from ≤ count → count ≤ to → kept.new ≡ in_lane values.now lane }
    ensures below { count < from → kept.new ≡ kept.old }
{
    if from <= count && count <= to {
        *kept = lane_of(values, lane);
    }
}

/// Keeps the hash values of the messages whose count is in the range.
fn keep(kept: &mut [[u32; 8]; 8], values: &[u32x8; 8], counts: &[usize; 8], from: usize, to: usize)
    ensures taken { (n : ℕ) → n < 8 → from ≤ slice_index counts.now n → slice_index counts.now n ≤ to
        → slice_index_or kept.new n [] ≡ in_lane values.now n }
    ensures below { (n : ℕ) → n < 8 → slice_index counts.now n < from → slice_index_or kept.new n [] ≡ slice_index_or kept.old n [] }
{
    for n in 0..8usize {
        keep_one(&mut kept[n], values, n, counts[n], from, to);
    }
}

/// The hash values behind the first `steps` blocks of each message, or behind all of them where there are fewer.
fn hash_in_step(
    start: &[u32; 8],
    taken: u64,
    firsts: &[&[u8]; 8],
    seconds: &[&[u8]; 8],
    counts: &[usize; 8],
    steps: usize,
) -> [[u32; 8]; 8]
    requires short { AreShort firsts.now seconds.now }
    requires counts { AreCounts counts.now firsts.now seconds.now }
    requires edge { taken % 64 ≡ 0 }
    ensures { (n : ℕ) → n < 8 → slice_index_or result n []
        ≡ hash_after start.now (behind taken (piece firsts.now n) (piece seconds.now n)) (min steps (slice_index counts.now n)) }
{
    let mut rows = [[0u32; 8]; 64];
    let mut blocks = [0u8; 512];
    let mut values = in_all_lanes(start);
    let mut kept = [*start; 8];
    for i in 0..steps {
        put_blocks(&mut blocks, taken, firsts, seconds, counts, i);
        let next = compress_in_step(values, &mut rows, &blocks);
        values = next;
        keep(&mut kept, &values, counts, i + 1, i + 1);
    }
    keep(&mut kept, &values, counts, steps, usize::MAX);
    kept
}

/// The hash value behind the blocks of a message from `from` to `to`.
fn hash_rest(
    value: [u32; 8],
    taken: u64,
    first: &[u8],
    second: &[u8],
    from: usize,
    to: usize,
) -> [u32; 8]
    requires short { length first.now + length second.now < 2 ^ 63 }
    requires edge { taken % 64 ≡ 0 }
    requires order { from ≤ to }
    requires within { to ≤ (length first.now + length second.now + 72) / 64 }
    ensures { (h : List ℕ) → value ≡ hash_after h (behind taken first.now second.now) from
        → result ≡ hash_after h (behind taken first.now second.now) to }
{
    let mut value = value;
    let mut block = [0u8; 64];
    for i in from..to {
        put_block(&mut block, taken, first, second, i);
        let next = compressed(value, &block);
        value = next;
    }
    value
}

/// The digests of the messages behind a hash value, which has taken so many bytes.
fn digests_behind(
    start: &[u32; 8],
    taken: u64,
    firsts: &[&[u8]; 8],
    seconds: &[&[u8]; 8],
) -> [[u8; 32]; 8]
    requires short { AreShort firsts.now seconds.now }
    requires edge { taken % 64 ≡ 0 }
    ensures { (n : ℕ) → n < 8 → slice_index_or result n []
        ≡ digest_bytes (hash_after start.now (behind taken (piece firsts.now n) (piece seconds.now n))
        ((length (piece firsts.now n) + length (piece seconds.now n) + 72) / 64)) 8 }
{
    let counts = counts_of(firsts, seconds);
    let steps = steps_of(&counts);
    let values = hash_in_step(start, taken, firsts, seconds, &counts, steps);
    let mut digests = [[0u8; 32]; 8];
    for n in 0..8usize {
        let from = steps.min(counts[n]);
        let value = hash_rest(values[n], taken, firsts[n], seconds[n], from, counts[n]);
        digests[n] = digest_of(&value);
    }
    digests
}

/// The digests of eight messages: of what the hasher was given, and behind it the lane's two pieces. It was given whole
/// blocks. The pieces of a lane have fewer than 2^63 bytes together. No memory is taken.
pub fn digests_in_step(hasher: &Sha256, firsts: &[&[u8]; 8], seconds: &[&[u8]; 8]) -> [[u8; 32]; 8]
    requires short { AreShort firsts.now seconds.now }
    ensures { (m : List ℕ) (n : ℕ) → HasAbsorbed hasher.now m → length m % 64 ≡ 0 → n < 8
        → slice_index_or result n [] ≡ sha256 (m ++ (piece firsts.now n ++ piece seconds.now n)) }
{
    digests_behind(&hasher.value(), hasher.taken() / 64 * 64, firsts, seconds)
}
