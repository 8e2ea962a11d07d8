//! Round keys as they are added to rows.

ghost use Rattle.std.specs.Prelude.{◌≡◌, ◌≤◌, map};
ghost use Rattle.std_defs.specs.Aes.{inverse_mix_columns};
ghost use Rattle.aes_lanes.specs.Pairs.{each_half};
ghost use Rattle.aes_lanes.specs.SealingTower.{tower_byte};
ghost use Rattle.aes_lanes.specs.Tower.{state_byte};
ghost use Rattle.aes_lanes.specs.RowKeys.{row_of, four_rows, bytes_by, less_constant, AreSealingKeys, AreUnsealingKeys};

use crate::columns::mixed_back;
use crate::round_keys::RoundKey;
use crate::sealing_tower::in_sealing_tower;
use crate::tower::in_tower;
use std::simd::prelude::*;

/// A round key in the tower: each row of it, four times.
#[derive(Clone, Copy)]
pub(crate) struct RowKey {
    pub(crate) first: u8x16,
    pub(crate) second: u8x16,
    pub(crate) third: u8x16,
    pub(crate) fourth: u8x16,
}

const FIRST: [usize; 16] = [0, 4, 8, 12, 0, 4, 8, 12, 0, 4, 8, 12, 0, 4, 8, 12];

const SECOND: [usize; 16] = [1, 5, 9, 13, 1, 5, 9, 13, 1, 5, 9, 13, 1, 5, 9, 13];

const THIRD: [usize; 16] = [2, 6, 10, 14, 2, 6, 10, 14, 2, 6, 10, 14, 2, 6, 10, 14];

const FOURTH: [usize; 16] = [3, 7, 11, 15, 3, 7, 11, 15, 3, 7, 11, 15, 3, 7, 11, 15];

#[inline(always)]
fn first_row(x: u8x32) -> u8x16
    ensures { result ≡ row_of 0 x }
{
    x.swizzle(FIRST)
}

#[inline(always)]
fn second_row(x: u8x32) -> u8x16
    ensures { result ≡ row_of 1 x }
{
    x.swizzle(SECOND)
}

#[inline(always)]
fn third_row(x: u8x32) -> u8x16
    ensures { result ≡ row_of 2 x }
{
    x.swizzle(THIRD)
}

#[inline(always)]
fn fourth_row(x: u8x32) -> u8x16
    ensures { result ≡ row_of 3 x }
{
    x.swizzle(FOURTH)
}

/// The rows of what lies at the front of a vector.
#[inline(always)]
fn rows_of_key(x: u8x32) -> RowKey
    ensures first { result.first ≡ row_of 0 x }
    ensures second { result.second ≡ row_of 1 x }
    ensures third { result.third ≡ row_of 2 x }
    ensures fourth { result.fourth ≡ row_of 3 x }
{
    RowKey {
        first: first_row(x),
        second: second_row(x),
        third: third_row(x),
        fourth: fourth_row(x),
    }
}

/// A key that lies twice in a vector, with the constant that the S-box adds.
fn sealing_key(key: u8x32) -> RowKey
    ensures { bytes_by tower_byte result ≡ four_rows (map less_constant key) }
{
    rows_of_key(in_sealing_tower(key ^ u8x32::splat(0x63)))
}

/// A key that lies twice in a vector, after InvMixColumns.
fn unsealing_key(key: u8x32) -> RowKey
    ensures { bytes_by state_byte result ≡ four_rows (each_half inverse_mix_columns key) }
{
    rows_of_key(in_tower(mixed_back(key)))
}

fn no_keys() -> [RowKey; 15] {
    let none = u8x16::splat(0);
    [RowKey {
        first: none,
        second: none,
        third: none,
        fourth: none,
    }; 15]
}

/// The first `count` round keys for sealing, and keys of no meaning behind them.
pub(crate) fn sealing_keys(keys: &[RoundKey; 15], count: usize) -> [RowKey; 15]
    requires { count ≤ 15 }
    ensures { AreSealingKeys count keys.now result }
{
    let mut rows = no_keys();
    for round in 0..count {
        rows[round] = sealing_key(keys[round].twice);
    }
    rows
}

/// The first `count` round keys for unsealing, and keys of no meaning behind them.
pub(crate) fn unsealing_keys(keys: &[RoundKey; 15], count: usize) -> [RowKey; 15]
    requires { count ≤ 15 }
    ensures { AreUnsealingKeys count keys.now result }
{
    let mut rows = no_keys();
    for round in 0..count {
        rows[round] = unsealing_key(keys[round].twice);
    }
    rows
}
