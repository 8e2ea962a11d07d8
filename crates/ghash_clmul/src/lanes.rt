//! Blocks as vectors of two halves of 64 bits, the low one first.

ghost use Rattle.std.specs.Prelude.{◌≡◌, ◌+◌, ◌*◌, ◌≤◌, ◌<◌, ◌^◌, length, bit_xor};
ghost use Rattle.std_defs.specs.Blocks.{block_number, text_block};
ghost use Rattle.std_defs.proofs.Multiples.{times_power};
ghost use Rattle.ghash_clmul.specs.Wide.{number};

use instructions::clmul_low_low;
use std::simd::prelude::*;

/// x^63 + x^62 + x^57 in the low half.
const FOLD: [u64; 2] = [0xc200_0000_0000_0000, 0];

const SWAPPED: [usize; 2] = [1, 0];

/// The block whose number is `x`.
#[inline(always)]
pub(crate) fn lanes_of(x: u128) -> u64x2
    ensures { number result ≡ x }
{
    let high = (x >> 64) as u64;
    let low = (x & 0xffff_ffff_ffff_ffff) as u64;
    u64x2::from_array([low, high])
}

/// The number of a block.
#[inline(always)]
pub(crate) fn number_of(x: u64x2) -> u128
    ensures { result ≡ number x }
{
    let [low, high] = x.to_array();
    (u128::from(high) << 64) | u128::from(low)
}

/// The block of sixteen bytes.
#[inline(always)]
fn of_bytes(bytes: u8x16) -> u64x2
    ensures { number result ≡ block_number bytes }
{
    u64x2::from_le_bytes(bytes.reverse())
}

/// The bytes of block `j` of a text.
#[inline(always)]
#[tactic(auto, unfolding(std_defs::specs::Blocks::text_block))]
fn bytes_at(text: &[u8], j: usize) -> u8x16
    requires { 16 * j + 16 ≤ length text.now }
    ensures { result ≡ text_block text.now j }
{
    u8x16::from_slice(&text[16 * j..16 * j + 16])
}

/// Block `j` of a text.
#[inline(always)]
pub(crate) fn lanes_at(text: &[u8], j: usize) -> u64x2
    requires { 16 * j + 16 ≤ length text.now }
    ensures { number result ≡ block_number (text_block text.now j) }
{
    of_bytes(bytes_at(text, j))
}

/// The sum of two blocks.
#[inline(always)]
pub(crate) fn added(x: u64x2, y: u64x2) -> u64x2
    ensures sum { number result ≡ bit_xor (number x) (number y) }
    ensures fits { number result < 2 ^ 128 }
{
    x ^ y
}

/// The block times x^64: the halves change places, and the low one times x^128 is folded back by one product.
#[inline(always)]
pub(crate) fn folded(x: u64x2) -> u64x2
    ensures folds { number result ≡ times_power 64 (number x) }
    ensures fits { number result < 2 ^ 128 }
{
    added(
        x.swizzle(SWAPPED),
        clmul_low_low(u64x2::from_array(FOLD), x),
    )
}
