//! The inverse S-box by look-ups of half bytes, and the tables of both directions. A byte becomes an element of the
//! field over sixteen, whose inverse takes look-ups in tables of sixteen alone.

ghost use Rattle.std.specs.Prelude.{◌≡◌, length, map, bit_xor};
ghost use Rattle.std.specs.Simd.Lanes.{zip2};
ghost use Rattle.std_defs.specs.Aes.{inverse_sbox};
ghost use Rattle.aes_lanes.specs.Lookup.{look, AreIndices, low, high, first_part, second_part};

use std::simd::prelude::*;

/// The tower's element of a low half, and of a high half.
pub(crate) const LOW_TO_TOWER: [u8; 16] = [
    0x00, 0x70, 0x2a, 0x5a, 0x98, 0xe8, 0xb2, 0xc2, 0x08, 0x78, 0x22, 0x52, 0x90, 0xe0, 0xba, 0xca,
];

pub(crate) const HIGH_TO_TOWER: [u8; 16] = [
    0x00, 0x4d, 0x7c, 0x31, 0x7d, 0x30, 0x01, 0x4c, 0x81, 0xcc, 0xfd, 0xb0, 0xfc, 0xb1, 0x80, 0xcd,
];

/// The same, of a byte whose S-box is undone.
pub(crate) const INVERSE_LOW_TO_TOWER: [u8; 16] = [
    0xe8, 0xb7, 0xbc, 0xe3, 0xec, 0xb3, 0xb8, 0xe7, 0xf2, 0xad, 0xa6, 0xf9, 0xf6, 0xa9, 0xa2, 0xfd,
];

pub(crate) const INVERSE_HIGH_TO_TOWER: [u8; 16] = [
    0x00, 0x65, 0x05, 0x60, 0xe6, 0x83, 0xe3, 0x86, 0x94, 0xf1, 0x91, 0xf4, 0x72, 0x17, 0x77, 0x12,
];

/// Inverses in the field of sixteen. That of 0 is beyond all tables, which give 0 there.
pub(crate) const INVERSE: [u8; 16] = [
    0x80, 0x01, 0x08, 0x0d, 0x0f, 0x06, 0x05, 0x0e, 0x02, 0x0c, 0x0b, 0x0a, 0x09, 0x03, 0x07, 0x04,
];

pub(crate) const RATIO: [u8; 16] = [
    0x80, 0x07, 0x0b, 0x0f, 0x06, 0x0a, 0x04, 0x01, 0x09, 0x08, 0x05, 0x02, 0x0c, 0x0e, 0x0d, 0x03,
];

/// The S-box from both parts of an inverse, less 0x63.
pub(crate) const FIRST_FROM_TOWER: [u8; 16] = [
    0x00, 0xc7, 0xbd, 0x6f, 0x17, 0x6d, 0xd2, 0xd0, 0x78, 0xa8, 0x02, 0xc5, 0x7a, 0xbf, 0xaa, 0x15,
];

pub(crate) const SECOND_FROM_TOWER: [u8; 16] = [
    0x00, 0x6a, 0xbb, 0x5f, 0xa5, 0x74, 0xe4, 0xcf, 0xfa, 0x35, 0x2b, 0x41, 0xd1, 0x90, 0x1e, 0x8e,
];

/// The byte from both parts of an inverse.
pub(crate) const INVERSE_FIRST_FROM_TOWER: [u8; 16] = [
    0x00, 0x40, 0xf9, 0x7e, 0x53, 0xea, 0x87, 0x13, 0x2d, 0x3e, 0x94, 0xd4, 0xb9, 0x6d, 0xaa, 0xc7,
];

pub(crate) const INVERSE_SECOND_FROM_TOWER: [u8; 16] = [
    0x00, 0x1d, 0x44, 0x93, 0x0f, 0x56, 0xd7, 0x12, 0x9c, 0x8e, 0xc5, 0xd8, 0x59, 0x81, 0x4b, 0xca,
];

/// Each of sixteen lanes, twice.
const TWICE: [usize; 32] = [
    0, 1, 2, 3, 4, 5, 6, 7, 8, 9, 10, 11, 12, 13, 14, 15, 0, 1, 2, 3, 4, 5, 6, 7, 8, 9, 10, 11, 12,
    13, 14, 15,
];

/// Each lane's entry of the table.
#[inline(always)]
pub(crate) fn looked_up(table: [u8; 16], index: u8x32) -> u8x32
    requires long { length table ≡ 16 }
    requires places { AreIndices index }
    ensures { result ≡ map (look table) index }
{
    u8x16::from_array(table)
        .swizzle(TWICE)
        .swizzle_dyn_within::<16>(index)
}

#[inline(always)]
pub(crate) fn low_half(x: u8x32) -> u8x32
    ensures { result ≡ map low x }
{
    x & u8x32::splat(15)
}

#[inline(always)]
pub(crate) fn high_half(x: u8x32) -> u8x32
    ensures { result ≡ map high x }
{
    x >> u8x32::splat(4)
}

/// The sums of the lanes in the field.
#[inline(always)]
pub(crate) fn sum(x: u8x32, y: u8x32) -> u8x32
    ensures { result ≡ zip2 bit_xor x y }
{
    x ^ y
}

/// Both parts of the inverse of each element of the tower.
#[inline(always)]
pub(crate) fn inverted(y: u8x32) -> (u8x32, u8x32)
    ensures first { result.0 ≡ map first_part y }
    ensures second { result.1 ≡ map second_part y }
{
    let k = low_half(y);
    let i = high_half(y);
    let j = sum(i, k);
    let ratio = looked_up(RATIO, k);
    let p = sum(looked_up(INVERSE, i), ratio);
    let q = sum(looked_up(INVERSE, j), ratio);
    (sum(looked_up(INVERSE, p), j), sum(looked_up(INVERSE, q), i))
}

/// The byte whose S-box each byte is.
#[inline(always)]
pub(crate) fn inverse_substituted(x: u8x32) -> u8x32
    ensures { result ≡ map inverse_sbox x }
{
    let left = looked_up(INVERSE_LOW_TO_TOWER, low_half(x));
    let right = looked_up(INVERSE_HIGH_TO_TOWER, high_half(x));
    let (first, second) = inverted(sum(left, right));
    sum(
        looked_up(INVERSE_FIRST_FROM_TOWER, first),
        looked_up(INVERSE_SECOND_FROM_TOWER, second),
    )
}
