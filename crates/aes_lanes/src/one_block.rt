//! The look-ups and steps of sealing on one block, in a vector of 16 bytes.
//!
//! The S-box takes bytes one by one, so ShiftRows is left undone: the state after round n is one that ShiftRows, done n
//! times, puts in order, and MixColumns takes the bytes of a column from where they then lie. Four times leave each
//! byte in its place, so there are four arrangements.

ghost use Rattle.std.specs.Prelude.{◌≡◌, ℕ, length, map, take, bit_xor};
ghost use Rattle.std.specs.Fn.{iterate};
ghost use Rattle.std.specs.Simd.Lanes.{zip2};
ghost use Rattle.std_defs.specs.Aes.{mul8, sbox, shift_rows, mix_columns};
ghost use Rattle.aes_lanes.specs.Lookup.{look, AreIndices, low, high, first_part, second_part};
ghost use Rattle.aes_lanes.specs.Pairs.{turned};
ghost use Rattle.aes_lanes.specs.SealingTower.{tower_byte, less_sbox, ordered};

use crate::lookup::{
    FIRST_FROM_TOWER, HIGH_TO_TOWER, INVERSE, LOW_TO_TOWER, RATIO, SECOND_FROM_TOWER,
};
use crate::sealing_tower::{FIRST_IN_TOWER, FIRST_TWICE, SECOND_IN_TOWER, SECOND_TWICE};
use std::simd::prelude::*;

const FRONT: [usize; 16] = [0, 1, 2, 3, 4, 5, 6, 7, 8, 9, 10, 11, 12, 13, 14, 15];

/// From where each byte comes by ShiftRows, done 0 to 3 times. A constant would be copied wherever an entry is read.
static SHIFTED: [[u8; 16]; 4] = [
    [0, 1, 2, 3, 4, 5, 6, 7, 8, 9, 10, 11, 12, 13, 14, 15],
    [0, 5, 10, 15, 4, 9, 14, 3, 8, 13, 2, 7, 12, 1, 6, 11],
    [0, 9, 2, 11, 4, 13, 6, 15, 8, 1, 10, 3, 12, 5, 14, 7],
    [0, 13, 10, 7, 4, 1, 14, 11, 8, 5, 2, 15, 12, 9, 6, 3],
];

/// Where the byte one on in each byte's column lies, in the four arrangements.
static ONE_ON: [[u8; 16]; 4] = [
    [1, 2, 3, 0, 5, 6, 7, 4, 9, 10, 11, 8, 13, 14, 15, 12],
    [5, 6, 7, 4, 9, 10, 11, 8, 13, 14, 15, 12, 1, 2, 3, 0],
    [9, 10, 11, 8, 13, 14, 15, 12, 1, 2, 3, 0, 5, 6, 7, 4],
    [13, 14, 15, 12, 1, 2, 3, 0, 5, 6, 7, 4, 9, 10, 11, 8],
];

/// Where the byte three on lies.
static THREE_ON: [[u8; 16]; 4] = [
    [3, 0, 1, 2, 7, 4, 5, 6, 11, 8, 9, 10, 15, 12, 13, 14],
    [15, 12, 13, 14, 3, 0, 1, 2, 7, 4, 5, 6, 11, 8, 9, 10],
    [11, 8, 9, 10, 15, 12, 13, 14, 3, 0, 1, 2, 7, 4, 5, 6],
    [7, 4, 5, 6, 11, 8, 9, 10, 15, 12, 13, 14, 3, 0, 1, 2],
];

/// The first of two blocks.
#[inline(always)]
pub(crate) fn front_of(x: u8x32) -> u8x16
    ensures { result ≡ take 16 x }
{
    x.swizzle(FRONT)
}

/// Each lane's entry of the table.
#[inline(always)]
fn looked_up(table: [u8; 16], index: u8x16) -> u8x16
    requires long { length table ≡ 16 }
    requires places { AreIndices index }
    ensures { result ≡ map (look table) index }
{
    u8x16::from_array(table).swizzle_dyn_within::<16>(index)
}

#[inline(always)]
fn low_half(x: u8x16) -> u8x16
    ensures { result ≡ map low x }
{
    x & u8x16::splat(15)
}

#[inline(always)]
fn high_half(x: u8x16) -> u8x16
    ensures { result ≡ map high x }
{
    x >> u8x16::splat(4)
}

#[inline(always)]
pub(crate) fn sum(x: u8x16, y: u8x16) -> u8x16
    ensures { result ≡ zip2 bit_xor x y }
{
    x ^ y
}

/// Both parts of the inverse of each element of the tower.
#[inline(always)]
fn inverted(y: u8x16) -> (u8x16, u8x16)
    ensures first { result.0 ≡ map first_part y }
    ensures second { result.1 ≡ map second_part y }
{
    let k = low_half(y);
    let i = high_half(y);
    let j = sum(i, k);
    let ratio = looked_up(RATIO, k);
    let p = sum(looked_up(INVERSE, i), ratio);
    let q = sum(looked_up(INVERSE, j), ratio);
    (sum(looked_up(INVERSE, p), j), sum(looked_up(INVERSE, q), i))
}

/// Bytes of a state, in the tower.
#[inline(always)]
pub(crate) fn one_in_tower(x: u8x16) -> u8x16
    ensures { map tower_byte result ≡ x }
{
    let left = looked_up(LOW_TO_TOWER, low_half(x));
    let right = looked_up(HIGH_TO_TOWER, high_half(x));
    sum(left, right)
}

/// The sum of the entries for both parts of each lane's inverse.
#[inline(always)]
fn by_both(firsts: [u8; 16], seconds: [u8; 16], first: u8x16, second: u8x16) -> u8x16
    requires first { length firsts ≡ 16 }
    requires second { length seconds ≡ 16 }
    requires first_places { AreIndices first }
    requires second_places { AreIndices second }
    ensures { result ≡ zip2 bit_xor (map (look firsts) first) (map (look seconds) second) }
{
    sum(looked_up(firsts, first), looked_up(seconds, second))
}

/// The S-box less its constant, and twice that.
#[inline(always)]
fn one_made(y: u8x16) -> (u8x16, u8x16)
    ensures once { map tower_byte result.0 ≡ map (λ y. less_sbox (tower_byte y)) y }
    ensures twice { map tower_byte result.1 ≡ map (λ y. mul8 2 (less_sbox (tower_byte y))) y }
{
    let (first, second) = inverted(y);
    let once = by_both(FIRST_IN_TOWER, SECOND_IN_TOWER, first, second);
    let twice = by_both(FIRST_TWICE, SECOND_TWICE, first, second);
    (once, twice)
}

/// The S-box, as the bytes themselves.
#[inline(always)]
pub(crate) fn one_made_last(y: u8x16) -> u8x16
    ensures { result ≡ map (λ y. sbox (tower_byte y)) y }
{
    let (first, second) = inverted(y);
    let less = by_both(FIRST_FROM_TOWER, SECOND_FROM_TOWER, first, second);
    less ^ u8x16::splat(0x63)
}

/// Sums of elements, in whichever arrangement.
#[inline(always)]
fn one_added(x: u8x16, y: u8x16) -> u8x16
    ensures { (n : ℕ) → ordered n result ≡ zip2 bit_xor (ordered n x) (ordered n y) }
{
    x ^ y
}

/// ShiftRows, so many times.
#[inline(always)]
pub(crate) fn shifted(x: u8x16, times: usize) -> u8x16
    ensures { result ≡ iterate shift_rows times x }
{
    looked_up(x.to_array(), u8x16::from_array(SHIFTED[times % 4]))
}

#[inline(always)]
fn one_on(x: u8x16, round: usize) -> u8x16
    ensures { ordered round result ≡ turned 1 (ordered round x) }
{
    looked_up(x.to_array(), u8x16::from_array(ONE_ON[round % 4]))
}

#[inline(always)]
fn three_on(x: u8x16, round: usize) -> u8x16
    ensures { ordered round result ≡ turned 3 (ordered round x) }
{
    looked_up(x.to_array(), u8x16::from_array(THREE_ON[round % 4]))
}

/// A round of one block, under a key in the tower to which the constant of the S-box was added. The next round waits
/// for the last shuffle alone, since the key and the other terms are added before.
#[inline(always)]
pub(crate) fn one_round(y: u8x16, key: u8x16, round: usize) -> u8x16
    ensures { ordered round result ≡ zip2 bit_xor (mix_columns (map less_sbox (ordered round y))) (ordered round key) }
{
    let (once, twice) = one_made(y);
    let front = one_added(twice, one_on(once, round));
    let rest = one_added(three_on(once, round), key);
    one_added(one_added(rest, front), one_on(front, round))
}
