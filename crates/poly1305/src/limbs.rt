//! Numbers in limbs of 26 bits, one in each lane.

ghost use Rattle.std.specs.Prelude.{◌≡◌, ℕ, ◌+◌, ◌*◌, ◌%◌, ◌^◌, ◌<◌, slice_index};
ghost use Rattle.std_defs.specs.Poly1305.{prime};
ghost use Rattle.poly1305.specs.Limbs.{value_in, products_in, AreBelow};

use crate::lanes::{five_times, high, low, plus, times};
use std::simd::prelude::*;

/// Each lane with its carries taken on, the last one as five times it to the front.
#[inline(always)]
pub(crate) fn carried(d: [u64x4; 5]) -> [u64x4; 5]
    ensures below { (j : ℕ) → j < 4 → AreBelow (2 ^ 61) d j → AreBelow (2 ^ 27) result j }
    ensures value { (j : ℕ) → j < 4 → AreBelow (2 ^ 61) d j → value_in result j % prime ≡ value_in d j % prime }
{
    let [d0, d1, d2, d3, d4] = d;
    let e4 = plus(d4, high(d3));
    let e1 = plus(d1, high(d0));
    let e0 = plus(low(d0), five_times(high(e4)));
    let e2 = plus(d2, high(e1));
    let e3 = plus(low(d3), high(e2));
    let f1 = plus(low(e1), high(e0));
    let f4 = plus(low(e4), high(e3));
    [low(e0), f1, low(e2), low(e3), f4]
}

/// The sum of five products in each lane.
#[inline(always)]
fn sum_of_products(a: [u64x4; 5], b: [u64x4; 5]) -> u64x4
    ensures { (j : ℕ) → j < 4 → AreBelow (2 ^ 28) a j → AreBelow (2 ^ 30) b j → slice_index result j ≡ products_in a b j }
{
    let [a0, a1, a2, a3, a4] = a;
    let [b0, b1, b2, b3, b4] = b;
    plus(
        plus(
            plus(times(a0, b0), times(a1, b1)),
            plus(times(a2, b2), times(a3, b3)),
        ),
        times(a4, b4),
    )
}

/// The product of each lane, modulo the prime, with its carries not taken on.
#[inline(always)]
pub(crate) fn products(h: [u64x4; 5], r: [u64x4; 5]) -> [u64x4; 5]
    ensures below { (j : ℕ) → j < 4 → AreBelow (2 ^ 28) h j → AreBelow (2 ^ 27) r j → AreBelow (2 ^ 61) result j }
    ensures product { (j : ℕ) → j < 4 → AreBelow (2 ^ 28) h j → AreBelow (2 ^ 27) r j
        → value_in result j % prime ≡ value_in h j * value_in r j % prime }
{
    let [r0, r1, r2, r3, r4] = r;
    let s1 = five_times(r1);
    let s2 = five_times(r2);
    let s3 = five_times(r3);
    let s4 = five_times(r4);
    [
        sum_of_products(h, [r0, s4, s3, s2, s1]),
        sum_of_products(h, [r1, r0, s4, s3, s2]),
        sum_of_products(h, [r2, r1, r0, s4, s3]),
        sum_of_products(h, [r3, r2, r1, r0, s4]),
        sum_of_products(h, [r4, r3, r2, r1, r0]),
    ]
}

/// The product of each lane, modulo the prime.
#[inline(always)]
pub(crate) fn multiplied(h: [u64x4; 5], r: [u64x4; 5]) -> [u64x4; 5]
    ensures below { (j : ℕ) → j < 4 → AreBelow (2 ^ 28) h j → AreBelow (2 ^ 27) r j → AreBelow (2 ^ 27) result j }
    ensures product { (j : ℕ) → j < 4 → AreBelow (2 ^ 28) h j → AreBelow (2 ^ 27) r j
        → value_in result j % prime ≡ value_in h j * value_in r j % prime }
{
    carried(products(h, r))
}

/// The sum of each lane.
#[inline(always)]
pub(crate) fn sum(a: [u64x4; 5], b: [u64x4; 5]) -> [u64x4; 5]
    ensures below { (j : ℕ) → j < 4 → AreBelow (2 ^ 27) a j → AreBelow (2 ^ 26) b j → AreBelow (2 ^ 28) result j }
    ensures sum { (j : ℕ) → j < 4 → AreBelow (2 ^ 27) a j → AreBelow (2 ^ 26) b j → value_in result j ≡ value_in a j + value_in b j }
{
    let [a0, a1, a2, a3, a4] = a;
    let [b0, b1, b2, b3, b4] = b;
    [
        plus(a0, b0),
        plus(a1, b1),
        plus(a2, b2),
        plus(a3, b3),
        plus(a4, b4),
    ]
}
