//! Matrices of bytes, transposed.

ghost use Rattle.std.specs.Prelude.{◌≡◌};
ghost use Rattle.ghash_field.specs.Transposition.{low_lanes, high_lanes, AreInterleaved, AreTransposed};

use crate::byte_rows::Row;
use std::simd::prelude::*;

const LOW: [usize; 32] = [
    0, 32, 1, 33, 2, 34, 3, 35, 4, 36, 5, 37, 6, 38, 7, 39, 16, 48, 17, 49, 18, 50, 19, 51, 20, 52,
    21, 53, 22, 54, 23, 55,
];

const HIGH: [usize; 32] = [
    8, 40, 9, 41, 10, 42, 11, 43, 12, 44, 13, 45, 14, 46, 15, 47, 24, 56, 25, 57, 26, 58, 27, 59,
    28, 60, 29, 61, 30, 62, 31, 63,
];

/// The first eight lanes of each half, in turn.
#[inline(always)]
fn of_low_lanes(x: u8x32, y: u8x32) -> u8x32
    ensures { result ≡ low_lanes x y }
{
    x.shuffle(y, LOW)
}

/// The last eight lanes of each half, in turn.
#[inline(always)]
fn of_high_lanes(x: u8x32, y: u8x32) -> u8x32
    ensures { result ≡ high_lanes x y }
{
    x.shuffle(y, HIGH)
}

/// Rows `i` and `i + 8` in turn, lane by lane.
#[inline(always)]
fn interleaved(rows: &[Row; 16]) -> [Row; 16]
    ensures { AreInterleaved rows.now result }
{
    let mut turned = *rows;
    for i in 0..8usize {
        turned[2 * i] = Row {
            lanes: of_low_lanes(rows[i].lanes, rows[i + 8].lanes),
        };
        turned[2 * i + 1] = Row {
            lanes: of_high_lanes(rows[i].lanes, rows[i + 8].lanes),
        };
    }
    turned
}

/// Lane `k` of row `n` becomes lane `n` of row `k`, in each half of the rows. Each of the four rounds moves one digit
/// of the row's number to the lane's, and one back.
pub(crate) fn transposed(rows: &[Row; 16]) -> [Row; 16]
    ensures { AreTransposed rows.now result }
{
    interleaved(&interleaved(&interleaved(&interleaved(rows))))
}
