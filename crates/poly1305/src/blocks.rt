//! The numbers of four blocks, one in each lane.

ghost use Rattle.std.specs.Prelude.{◌≡◌, ℕ, ◌+◌, ◌*◌, ◌^◌, ◌<◌, ◌≤◌, length, take, drop, slice_index};
ghost use Rattle.std_defs.specs.Poly1305.{little_endian};
ghost use Rattle.poly1305.specs.Limbs.{value_in, AreBelow};

use crate::lanes::{down, even, four_words, low, odd, plus, up_twelve};
use std::simd::prelude::*;

/// The limbs of the number of two words, and of what stands in front of them.
#[inline(always)]
fn limbs_of(first: u64x4, second: u64x4, front: u64x4) -> [u64x4; 5]
    ensures below { (j : ℕ) → j < 4 → slice_index front j < 2 ^ 25 → AreBelow (2 ^ 26) result j }
    ensures value { (j : ℕ) → j < 4 → slice_index front j < 2 ^ 25
        → value_in result j ≡ slice_index first j + 2 ^ 64 * slice_index second j + 2 ^ 104 * slice_index front j }
{
    let middle = plus(down(first, 52), up_twelve(second));
    [
        low(first),
        low(down(first, 26)),
        middle,
        low(down(second, 14)),
        plus(down(second, 40), front),
    ]
}

/// Four blocks of sixteen bytes, with `front` where the byte behind a block stands.
#[inline(always)]
pub(crate) fn four_blocks(bytes: &[u8], at: usize, front: u64x4) -> [u64x4; 5]
    requires { at + 64 ≤ length bytes.now }
    ensures below { (j : ℕ) → j < 4 → slice_index front j < 2 ^ 25 → AreBelow (2 ^ 26) result j }
    ensures value { (j : ℕ) → j < 4 → slice_index front j < 2 ^ 25
        → value_in result j ≡ little_endian (take 16 (drop (at + 16 * j) bytes.now)) + 2 ^ 104 * slice_index front j }
{
    let x = four_words(bytes, at);
    let y = four_words(bytes, at + 32);
    limbs_of(even(x, y), odd(x, y), front)
}
