//! Products of two blocks before reduction.

ghost use Rattle.std.specs.Prelude.{◌≡◌, ◌<◌, ◌^◌, bit_xor};
ghost use Rattle.std_defs.specs.Aes.{product};
ghost use Rattle.ghash_clmul.specs.Wide.{number, reduced as reduced_of};

use crate::lanes::{added, folded};
use instructions::{clmul_high_high, clmul_high_low, clmul_low_high, clmul_low_low};
use std::marker::Model;
use std::simd::prelude::*;

/// A product before reduction, in three parts of 128 bits that overlap: the middle one stands 64 places up, the high
/// one 128. Contracts see its number, which is below 2^256.
#[derive(Drop)]
pub(crate) struct Wide {
    low: u64x2,
    middle: u64x2,
    high: u64x2,
}

impl Model for Wide {
    ghost use Rattle.std.specs.Prelude.{ℕ, ◌<◌, ◌^◌};
    ghost use Rattle.ghash_clmul.specs.Wide.{number, spanned};

    ghost Value = { ℕ };

    ghost view = { λ w. spanned (number w.low) (number w.middle) (number w.high) };

    ghost invariant = { λ w. (number w.low < 2 ^ 128) × (number w.middle < 2 ^ 128) × (number w.high < 2 ^ 128) };
}

/// The product of two blocks as polynomials, by those of their halves.
#[inline(always)]
pub(crate) fn product_of(x: u64x2, y: u64x2) -> Wide
    ensures { result ≡ product (number x) (number y) 128 }
{
    Wide {
        low: clmul_low_low(x, y),
        middle: added(clmul_low_high(x, y), clmul_high_low(x, y)),
        high: clmul_high_high(x, y),
    }
}

/// The sum of two products.
#[inline(always)]
pub(crate) fn sum(x: Wide, y: Wide) -> Wide
    ensures { result ≡ bit_xor x y }
{
    Wide {
        low: added(x.low, y.low),
        middle: added(x.middle, y.middle),
        high: added(x.high, y.high),
    }
}

/// The block that is congruent to the product.
#[inline(always)]
pub(crate) fn reduced(x: Wide) -> u64x2
    ensures reduces { number result ≡ reduced_of x }
    ensures fits { number result < 2 ^ 128 }
{
    added(x.high, folded(added(x.middle, folded(x.low))))
}
