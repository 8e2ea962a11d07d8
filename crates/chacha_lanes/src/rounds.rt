//! The rounds of eight blocks, each in a lane.

ghost use Rattle.std.specs.Prelude.{◌≡◌, ℕ, ◌+◌, ◌*◌, ◌%◌, ◌^◌, ◌<◌, length, slice_index};
ghost use Rattle.std_defs.specs.ChaCha20.{add32, column_round, diagonal_round, double_rounds, initial_state, block_word};
ghost use Rattle.chacha_lanes.specs.Lanes.{lane, lane_at};

use crate::lanes::{add, quarter_round};
use std::simd::prelude::*;

#[inline(always)]
fn column_round(x: [u32x8; 16]) -> [u32x8; 16]
    ensures { (j : ℕ) → j < 8 → lane j result ≡ column_round (lane j x) }
{
    let [
        x0,
        x1,
        x2,
        x3,
        x4,
        x5,
        x6,
        x7,
        x8,
        x9,
        x10,
        x11,
        x12,
        x13,
        x14,
        x15,
    ] = x;
    let (x0, x4, x8, x12) = quarter_round(x0, x4, x8, x12);
    let (x1, x5, x9, x13) = quarter_round(x1, x5, x9, x13);
    let (x2, x6, x10, x14) = quarter_round(x2, x6, x10, x14);
    let (x3, x7, x11, x15) = quarter_round(x3, x7, x11, x15);
    [
        x0, x1, x2, x3, x4, x5, x6, x7, x8, x9, x10, x11, x12, x13, x14, x15,
    ]
}

#[inline(always)]
fn diagonal_round(x: [u32x8; 16]) -> [u32x8; 16]
    ensures { (j : ℕ) → j < 8 → lane j result ≡ diagonal_round (lane j x) }
{
    let [
        x0,
        x1,
        x2,
        x3,
        x4,
        x5,
        x6,
        x7,
        x8,
        x9,
        x10,
        x11,
        x12,
        x13,
        x14,
        x15,
    ] = x;
    let (x0, x5, x10, x15) = quarter_round(x0, x5, x10, x15);
    let (x1, x6, x11, x12) = quarter_round(x1, x6, x11, x12);
    let (x2, x7, x8, x13) = quarter_round(x2, x7, x8, x13);
    let (x3, x4, x9, x14) = quarter_round(x3, x4, x9, x14);
    [
        x0, x1, x2, x3, x4, x5, x6, x7, x8, x9, x10, x11, x12, x13, x14, x15,
    ]
}

/// The states before the rounds: the same words in each lane, but for the counter (2.3).
#[inline(always)]
fn initial_states(key: &[u32; 8], counter: u32, nonce: &[u32; 3]) -> [u32x8; 16]
    ensures { (j : ℕ) → j < 8 → lane j result
        ≡ initial_state key.now nonce.now (counter + j) }
{
    [
        u32x8::splat(0x6170_7865),
        u32x8::splat(0x3320_646e),
        u32x8::splat(0x7962_2d32),
        u32x8::splat(0x6b20_6574),
        u32x8::splat(key[0]),
        u32x8::splat(key[1]),
        u32x8::splat(key[2]),
        u32x8::splat(key[3]),
        u32x8::splat(key[4]),
        u32x8::splat(key[5]),
        u32x8::splat(key[6]),
        u32x8::splat(key[7]),
        u32x8::splat(counter) + u32x8::from_array([0, 1, 2, 3, 4, 5, 6, 7]),
        u32x8::splat(nonce[0]),
        u32x8::splat(nonce[1]),
        u32x8::splat(nonce[2]),
    ]
}

/// Eight blocks from a counter on: vector k has word k of each (2.3).
#[inline(always)]
pub(crate) fn eight_blocks(key: &[u32; 8], counter: u32, nonce: &[u32; 3]) -> [u32x8; 16]
    ensures { (j k : ℕ) → j < 8 → k < 16 → lane_at result k j
        ≡ block_word key.now nonce.now (counter + j) k }
{
    let first = initial_states(key, counter, nonce);
    let mut x = first;
    'rounds: for _round in 0..10u32 {
        x = diagonal_round(column_round(x));
    }
    [
        add(x[0], first[0]),
        add(x[1], first[1]),
        add(x[2], first[2]),
        add(x[3], first[3]),
        add(x[4], first[4]),
        add(x[5], first[5]),
        add(x[6], first[6]),
        add(x[7], first[7]),
        add(x[8], first[8]),
        add(x[9], first[9]),
        add(x[10], first[10]),
        add(x[11], first[11]),
        add(x[12], first[12]),
        add(x[13], first[13]),
        add(x[14], first[14]),
        add(x[15], first[15]),
    ]
}
