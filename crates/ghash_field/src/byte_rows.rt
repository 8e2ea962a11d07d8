//! Products by rows of bytes: row `k` has byte `k` of the product of each half byte. A shuffle reads it for all bytes
//! of a block at once, whatever they are.

ghost use Rattle.std.specs.Prelude.{◌≡◌, ◌<◌, ◌^◌, ◌++◌, ◌/◌, ℕ, map, bit_and, slice_index, bit_xor, length};
ghost use Rattle.std_defs.specs.Blocks.{block_number as number_of, block_bytes as bytes_of};
ghost use Rattle.ghash_field.specs.ByteRows.{AreRows, AreHalves, AreProducts, column, in_halves};

use crate::multiples::{halved, multiples_of};
use crate::transposition::transposed;
use std::simd::prelude::*;

/// A byte of the product of each high half byte, and of each low one.
#[derive(Clone, Copy)]
pub(crate) struct Row {
    pub(crate) lanes: u8x32,
}

/// The products of all half bytes at the front of a block with a block.
#[derive(Drop)]
pub(crate) struct Rows {
    pub(crate) h: u128,
    pub(crate) rows: [Row; 16],
    ghost fits: { h < 2 ^ 128 },
    ghost products: { AreRows rows h },
}

/// Bytes, with their high halves and their low ones.
#[derive(Clone, Copy)]
pub(crate) struct Halves {
    pub(crate) bytes: u8x16,
    pub(crate) lanes: u8x32,
    ghost halves: { AreHalves lanes bytes },
    ghost wide: { length lanes ≡ 32 },
    ghost small: { (i : ℕ) → slice_index bytes i < 256 },
}

const BOTH: [usize; 32] = [
    0, 1, 2, 3, 4, 5, 6, 7, 8, 9, 10, 11, 12, 13, 14, 15, 16, 17, 18, 19, 20, 21, 22, 23, 24, 25,
    26, 27, 28, 29, 30, 31,
];

const FIRST: [usize; 16] = [0, 1, 2, 3, 4, 5, 6, 7, 8, 9, 10, 11, 12, 13, 14, 15];

const SECOND: [usize; 16] = [
    16, 17, 18, 19, 20, 21, 22, 23, 24, 25, 26, 27, 28, 29, 30, 31,
];

#[inline(always)]
fn high_half(x: u8x16) -> u8x16
    ensures { result ≡ map (λ b. b / 16) x }
{
    x >> u8x16::splat(4)
}

#[inline(always)]
fn low_half(x: u8x16) -> u8x16
    ensures { result ≡ map (λ b. bit_and b 15) x }
{
    x & u8x16::splat(15)
}

/// The halves of bytes.
#[inline(always)]
pub(crate) fn halves_of(bytes: u8x16) -> Halves
    ensures { result.bytes ≡ bytes }
{
    let lanes = high_half(bytes).shuffle(low_half(bytes), BOTH);
    Halves { bytes, lanes }
}

/// The sums of the lanes.
#[inline(always)]
pub(crate) fn sum(x: u8x32, y: u8x32) -> u8x32
    ensures { in_halves result ≡ bit_xor (in_halves x) (in_halves y) }
{
    x ^ y
}

/// Both halves together.
#[inline(always)]
pub(crate) fn together(x: u8x32) -> u8x16
    ensures { number_of result ≡ in_halves x }
{
    x.swizzle(FIRST) ^ x.swizzle(SECOND)
}

/// A block's bytes in lanes.
#[inline(always)]
pub(crate) fn lanes_of(x: u128) -> u8x16
    ensures { result ≡ bytes_of x }
{
    let high = (x >> 64) as u64;
    let low = (x & 0xffff_ffff_ffff_ffff) as u64;
    u64x2::from_array([low, high]).to_le_bytes().reverse()
}

/// Two blocks behind one another.
#[inline(always)]
fn joined(x: u8x16, y: u8x16) -> u8x32
    ensures { result ≡ x ++ y }
{
    x.shuffle(y, BOTH)
}

/// The products of each half byte at the front of a block, and behind the front half byte, with a block.
fn products_of(h: u128) -> [Row; 16]
    ensures { AreProducts result h }
{
    let high = multiples_of(h);
    let low = multiples_of(halved(halved(halved(halved(h)))));
    let mut rows = [Row {
        lanes: u8x32::splat(0),
    }; 16];
    for n in 0..16usize {
        rows[n] = Row {
            lanes: joined(lanes_of(high[n]), lanes_of(low[n])),
        };
    }
    rows
}

impl Rows {
    /// The rows of a block.
    pub(crate) fn new(h: u128) -> Rows
        ensures { result.h ≡ h }
    {
        let rows = transposed(&products_of(h));
        Rows { h, rows }
    }

    /// The entries of row `k` for the halves of bytes.
    #[inline(always)]
    pub(crate) fn looked_up(&self, k: usize, x: Halves) -> u8x32
        requires { k < 16 }
        ensures { in_halves result ≡ column self.now.h k x.bytes }
    {
        self.rows[k].lanes.swizzle_dyn_within::<16>(x.lanes)
    }
}
