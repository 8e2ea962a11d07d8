//! Sums, products and parts of four numbers, each in a lane.

ghost use Rattle.std.specs.Prelude.{◌≡◌, ℕ, ◌+◌, ◌*◌, ◌/◌, ◌%◌, ◌^◌, ◌<◌, ◌≤◌, ◌++◌, length, take, drop, slice_index};
ghost use Rattle.std_defs.specs.Poly1305.{little_endian};

use std::simd::prelude::*;

const LOW_WORD: u64 = 0xffff_ffff;

const LIMB: u64 = 0x03ff_ffff;

const EVEN: [usize; 4] = [0, 2, 4, 6];

const ODD: [usize; 4] = [1, 3, 5, 7];

/// The sum of each lane, where it fits.
#[inline(always)]
pub(crate) fn plus(a: u64x4, b: u64x4) -> u64x4
    ensures { (j : ℕ) → j < 4 → slice_index a j + slice_index b j < 2 ^ 64 → slice_index result j ≡ slice_index a j + slice_index b j }
{
    a + b
}

/// The product of each lane, of two numbers of 32 bits.
#[inline(always)]
pub(crate) fn times(a: u64x4, b: u64x4) -> u64x4
    ensures { (j : ℕ) → j < 4 → slice_index a j < 2 ^ 32 → slice_index b j < 2 ^ 32
        → slice_index result j ≡ slice_index a j * slice_index b j }
{
    (a & u64x4::splat(LOW_WORD)) * (b & u64x4::splat(LOW_WORD))
}

/// What is below 2^26 in each lane.
#[inline(always)]
pub(crate) fn low(a: u64x4) -> u64x4
    ensures { (j : ℕ) → j < 4 → slice_index result j ≡ slice_index a j % 2 ^ 26 }
{
    a & u64x4::splat(LIMB)
}

/// What is carried on in each lane.
#[inline(always)]
pub(crate) fn high(a: u64x4) -> u64x4
    ensures { (j : ℕ) → j < 4 → slice_index result j ≡ slice_index a j / 2 ^ 26 }
{
    a >> u64x4::splat(26)
}

/// Five times each lane, where it fits.
#[inline(always)]
pub(crate) fn five_times(a: u64x4) -> u64x4
    ensures { (j : ℕ) → j < 4 → slice_index a j < 2 ^ 60 → slice_index result j ≡ 5 * slice_index a j }
{
    a + (a << u64x4::splat(2))
}

/// Each lane without its lowest bits.
#[inline(always)]
pub(crate) fn down(a: u64x4, by: u64) -> u64x4
    requires { by < 64 }
    ensures { (j : ℕ) → j < 4 → slice_index result j ≡ slice_index a j / 2 ^ by }
{
    a >> u64x4::splat(by)
}

/// The lowest 14 bits of each lane, from place 12 on.
#[inline(always)]
pub(crate) fn up_twelve(a: u64x4) -> u64x4
    ensures { (j : ℕ) → j < 4 → slice_index result j ≡ slice_index a j % 2 ^ 14 * 2 ^ 12 }
{
    low(a << u64x4::splat(12))
}

/// Lanes 0 and 2 of two vectors, and lanes 1 and 3.
#[inline(always)]
pub(crate) fn even(a: u64x4, b: u64x4) -> u64x4
    ensures { (j : ℕ) → j < 4 → slice_index result j ≡ slice_index (a ++ b) (2 * j) }
{
    a.shuffle(b, EVEN)
}

#[inline(always)]
pub(crate) fn odd(a: u64x4, b: u64x4) -> u64x4
    ensures { (j : ℕ) → j < 4 → slice_index result j ≡ slice_index (a ++ b) (2 * j + 1) }
{
    a.shuffle(b, ODD)
}

/// Four numbers of 64 bits, the least significant byte first.
#[inline(always)]
pub(crate) fn four_words(bytes: &[u8], at: usize) -> u64x4
    requires { at + 32 ≤ length bytes.now }
    ensures long { length result ≡ 4 }
    ensures word { (j : ℕ) → j < 4 → slice_index result j ≡ little_endian (take 8 (drop (at + 8 * j) bytes.now)) }
{
    u64x4::from_le_bytes(u8x32::from_slice(&bytes[at..at + 32]))
}
