//! Two blocks side by side.

ghost use Rattle.std.specs.Prelude.{◌≡◌, ◌++◌, take, drop};
ghost use Rattle.aes_lanes.specs.Pairs.{blocks_of};

use std::simd::prelude::*;

const FIRST: [usize; 16] = [0, 1, 2, 3, 4, 5, 6, 7, 8, 9, 10, 11, 12, 13, 14, 15];

const SECOND: [usize; 16] = [
    16, 17, 18, 19, 20, 21, 22, 23, 24, 25, 26, 27, 28, 29, 30, 31,
];

const BOTH: [usize; 32] = [
    0, 1, 2, 3, 4, 5, 6, 7, 8, 9, 10, 11, 12, 13, 14, 15, 16, 17, 18, 19, 20, 21, 22, 23, 24, 25,
    26, 27, 28, 29, 30, 31,
];

#[inline(always)]
pub(crate) fn joined(a: [u8; 16], b: [u8; 16]) -> u8x32
    ensures both { result ≡ a ++ b }
    ensures first { take 16 result ≡ a }
    ensures second { drop 16 result ≡ b }
{
    u8x16::from_array(a).shuffle(u8x16::from_array(b), BOTH)
}

#[inline(always)]
pub(crate) fn first_of(x: u8x32) -> [u8; 16]
    ensures { result ≡ take 16 x }
{
    x.swizzle(FIRST).to_array()
}

#[inline(always)]
pub(crate) fn second_of(x: u8x32) -> [u8; 16]
    ensures { result ≡ drop 16 x }
{
    x.swizzle(SECOND).to_array()
}

/// Eight blocks, two and two.
#[inline(always)]
pub(crate) fn paired(b: &[[u8; 16]; 8]) -> [u8x32; 4]
    ensures { blocks_of result ≡ b.now }
{
    [
        joined(b[0], b[1]),
        joined(b[2], b[3]),
        joined(b[4], b[5]),
        joined(b[6], b[7]),
    ]
}

/// The blocks of four pairs.
#[inline(always)]
pub(crate) fn parted(x: [u8x32; 4]) -> [[u8; 16]; 8]
    ensures { result ≡ blocks_of x }
{
    [
        first_of(x[0]),
        second_of(x[0]),
        first_of(x[1]),
        second_of(x[1]),
        first_of(x[2]),
        second_of(x[2]),
        first_of(x[3]),
        second_of(x[3]),
    ]
}
