//! Numbers in five limbs: the sum over the lanes, and the remainder modulo the prime.

ghost use Rattle.std.specs.Prelude.{◌≡◌, ℕ, ◌+◌, ◌*◌, ◌%◌, ◌^◌, ◌<◌, slice_index};
ghost use Rattle.std_defs.specs.Poly1305.{prime};
ghost use Rattle.poly1305.specs.Limbs.{limb, value, value_of, value_in, AreBelow};

use std::simd::prelude::*;

const LIMB: u64 = 0x03ff_ffff;

/// A number in five limbs.
pub(crate) fn limbs_of(x: u128) -> [u64; 5]
    ensures value { value_of result ≡ x }
    ensures below { (k : ℕ) → slice_index result k < 2 ^ 26 }
{
    let first = (x & 0xffff_ffff_ffff_ffff) as u64;
    let second = (x >> 64) as u64;
    [
        first & LIMB,
        (first >> 26) & LIMB,
        (first >> 52) + ((second << 12) & LIMB),
        (second >> 14) & LIMB,
        second >> 40,
    ]
}

/// The sum of four lanes.
#[inline(always)]
fn lane_sum(x: u64x4) -> u64
    requires { (j : ℕ) → j < 4 → slice_index x j < 2 ^ 27 }
    ensures { result ≡ slice_index x 0 + slice_index x 1 + slice_index x 2 + slice_index x 3 }
{
    let [a, b, c, d] = x.to_array();
    a + b + c + d
}

/// The sum of the numbers in four lanes.
#[inline(always)]
pub(crate) fn sum_of_lanes(h: [u64x4; 5]) -> [u64; 5]
    requires { (j : ℕ) → j < 4 → AreBelow (2 ^ 27) h j }
    ensures value { value_of result ≡ value_in h 0 + value_in h 1 + value_in h 2 + value_in h 3 }
    ensures below { (k : ℕ) → slice_index result k < 2 ^ 29 }
{
    let [h0, h1, h2, h3, h4] = h;
    [
        lane_sum(h0),
        lane_sum(h1),
        lane_sum(h2),
        lane_sum(h3),
        lane_sum(h4),
    ]
}

/// A number in the first lane, beside zeros.
#[inline(always)]
pub(crate) fn in_first_lane(x: [u64; 5]) -> [u64x4; 5]
    ensures first { (k : ℕ) → limb result k 0 ≡ slice_index x k }
    ensures zeros { (j k : ℕ) → 0 < j → limb result k j ≡ 0 }
{
    let [x0, x1, x2, x3, x4] = x;
    [
        first_lane(x0),
        first_lane(x1),
        first_lane(x2),
        first_lane(x3),
        first_lane(x4),
    ]
}

/// A word in the first lane, beside zeros.
#[inline(always)]
fn first_lane(x: u64) -> u64x4
    ensures first { slice_index result 0 ≡ x }
    ensures zeros { (j : ℕ) → 0 < j → slice_index result j ≡ 0 }
{
    u64x4::from_array([x, 0, 0, 0])
}

/// The number of the tag: the limbs' number modulo the prime, and s added to it.
pub(crate) fn reduced(x: [u64; 5], s: u128) -> u128
    requires { (k : ℕ) → slice_index x k < 2 ^ 29 }
    ensures { result ≡ (value_of x % prime + s) % 2 ^ 128 }
{
    let [x0, x1, x2, x3, x4] = x;
    reduced_limbs(x0, x1, x2, x3, x4, s)
}

fn reduced_limbs(x0: u64, x1: u64, x2: u64, x3: u64, x4: u64, s: u128) -> u128
    requires { (x0 < 2 ^ 29) × (x1 < 2 ^ 29) × (x2 < 2 ^ 29) × (x3 < 2 ^ 29) × (x4 < 2 ^ 29) }
    ensures { result ≡ (value x0 x1 x2 x3 x4 % prime + s) % 2 ^ 128 }
{
    let y1 = x1 + (x0 >> 26);
    let y2 = x2 + (y1 >> 26);
    let y3 = x3 + (y2 >> 26);
    let y4 = x4 + (y3 >> 26);
    let y0 = (x0 & LIMB) + 5 * (y4 >> 26);
    // after a second turn, all but the last limb are below 2^26
    let z1 = (y1 & LIMB) + (y0 >> 26);
    let z2 = (y2 & LIMB) + (z1 >> 26);
    let z3 = (y3 & LIMB) + (z2 >> 26);
    let z4 = (y4 & LIMB) + (z3 >> 26);
    let z0 = y0 & LIMB;
    // how often the prime goes into it, once at most
    let q = (z4
        + (((z3 & LIMB) + (((z2 & LIMB) + (((z1 & LIMB) + ((z0 + 5) >> 26)) >> 26)) >> 26)) >> 26))
        >> 26;
    let low = z0 as u128
        + ((z1 & LIMB) as u128) * (1 << 26)
        + ((z2 & LIMB) as u128) * (1 << 52)
        + ((z3 & LIMB) as u128) * (1 << 78)
        + ((z4 & 0x00ff_ffff) as u128) * (1 << 104);
    low.wrapping_add((5 * q) as u128).wrapping_add(s)
}
