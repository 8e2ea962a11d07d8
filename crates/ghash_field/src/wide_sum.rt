//! A sum of 32 bytes, which is moved on byte by byte and then reduced to a block.

ghost use Rattle.std.specs.Prelude.{◌≡◌, ◌<◌, ◌≤◌, ◌∷◌, ℕ, length, take, slice_index, bit_xor};
ghost use Rattle.std.specs.Simd.Lanes.{zip2};
ghost use Rattle.std_defs.specs.Blocks.{block_number as number_of};
ghost use Rattle.ghash_field.specs.ByteRows.{whole};

use std::simd::prelude::*;
use std_defs::block_number;

const ONE_ON: [usize; 16] = [16, 0, 1, 2, 3, 4, 5, 6, 7, 8, 9, 10, 11, 12, 13, 14];

const CARRIED: [usize; 16] = [31, 0, 1, 2, 3, 4, 5, 6, 7, 8, 9, 10, 11, 12, 13, 14];

/// The first 16 bytes moved on by one, and others added.
#[inline(always)]
pub(crate) fn moved(low: u8x16, added: u8x16) -> u8x16
    ensures value { result ≡ zip2 bit_xor (0 ∷ take 15 low) added }
    ensures long { length added ≡ 16 }
    ensures small { (i : ℕ) → slice_index added i < 256 }
{
    low.shuffle(u8x16::splat(0), ONE_ON) ^ added
}

/// The last 16 bytes moved on by one, behind the first.
#[inline(always)]
pub(crate) fn carried(low: u8x16, high: u8x16) -> u8x16
    ensures { result ≡ slice_index low 15 ∷ take 15 high }
{
    high.shuffle(low, CARRIED)
}

/// The block that is congruent to the polynomial.
#[inline(always)]
pub(crate) fn reduced(low: u8x16, high: u8x16) -> u128
    requires { slice_index high 15 ≡ 0 }
    ensures { result ≡ whole low high }
{
    let low = block_number(low.to_array());
    let high = block_number(high.to_array());
    low ^ (high ^ (high >> 1) ^ (high >> 2) ^ (high >> 7))
}
