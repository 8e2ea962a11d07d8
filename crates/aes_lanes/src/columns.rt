//! ShiftRows and its inverse, MixColumns and its inverse on two blocks side by side.

ghost use Rattle.std.specs.Prelude.{◌≡◌, map};
ghost use Rattle.std_defs.specs.Aes.{mul8, shift_rows, inverse_shift_rows, mix_columns, inverse_mix_columns};
ghost use Rattle.aes_lanes.specs.Pairs.{each_half, turned};

use crate::lookup::sum;
use std::simd::prelude::*;

const SHIFTED: [usize; 32] = [
    0, 5, 10, 15, 4, 9, 14, 3, 8, 13, 2, 7, 12, 1, 6, 11, 16, 21, 26, 31, 20, 25, 30, 19, 24, 29,
    18, 23, 28, 17, 22, 27,
];

const SHIFTED_BACK: [usize; 32] = [
    0, 13, 10, 7, 4, 1, 14, 11, 8, 5, 2, 15, 12, 9, 6, 3, 16, 29, 26, 23, 20, 17, 30, 27, 24, 21,
    18, 31, 28, 25, 22, 19,
];

const ONE_ON: [usize; 32] = [
    1, 2, 3, 0, 5, 6, 7, 4, 9, 10, 11, 8, 13, 14, 15, 12, 17, 18, 19, 16, 21, 22, 23, 20, 25, 26,
    27, 24, 29, 30, 31, 28,
];

const TWO_ON: [usize; 32] = [
    2, 3, 0, 1, 6, 7, 4, 5, 10, 11, 8, 9, 14, 15, 12, 13, 18, 19, 16, 17, 22, 23, 20, 21, 26, 27,
    24, 25, 30, 31, 28, 29,
];

const THREE_ON: [usize; 32] = [
    3, 0, 1, 2, 7, 4, 5, 6, 11, 8, 9, 10, 15, 12, 13, 14, 19, 16, 17, 18, 23, 20, 21, 22, 27, 24,
    25, 26, 31, 28, 29, 30,
];

/// ShiftRows of both blocks.
#[inline(always)]
pub(crate) fn shifted(x: u8x32) -> u8x32
    ensures { result ≡ each_half shift_rows x }
{
    x.swizzle(SHIFTED)
}

/// InvShiftRows of both blocks.
#[inline(always)]
pub(crate) fn shifted_back(x: u8x32) -> u8x32
    ensures { result ≡ each_half inverse_shift_rows x }
{
    x.swizzle(SHIFTED_BACK)
}

/// Each byte's next in its column.
#[inline(always)]
pub(crate) fn one_on(x: u8x32) -> u8x32
    ensures { result ≡ each_half (turned 1) x }
{
    x.swizzle(ONE_ON)
}

#[inline(always)]
fn two_on(x: u8x32) -> u8x32
    ensures { result ≡ each_half (turned 2) x }
{
    x.swizzle(TWO_ON)
}

#[inline(always)]
pub(crate) fn three_on(x: u8x32) -> u8x32
    ensures { result ≡ each_half (turned 3) x }
{
    x.swizzle(THREE_ON)
}

/// Twice each byte in the field.
#[inline(always)]
fn doubled(x: u8x32) -> u8x32
    ensures { result ≡ map (mul8 2) x }
{
    (x + x)
        ^ x.simd_ge(u8x32::splat(128))
            .select(u8x32::splat(0x1b), u8x32::splat(0))
}

/// MixColumns of both blocks.
#[inline(always)]
fn mixed(x: u8x32) -> u8x32
    ensures { result ≡ each_half mix_columns x }
{
    let next = one_on(x);
    let pair = sum(x, next);
    sum(sum(doubled(pair), next), two_on(pair))
}

/// InvMixColumns of both blocks: MixColumns, where four times each byte and the one two below it are added first.
#[inline(always)]
pub(crate) fn mixed_back(x: u8x32) -> u8x32
    ensures { result ≡ each_half inverse_mix_columns x }
{
    let crossed = sum(x, two_on(x));
    mixed(sum(x, doubled(doubled(crossed))))
}
