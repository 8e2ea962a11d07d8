//! Eight blocks by rows: in each of four vectors the same row of all of them, so that MixColumns moves no byte within a
//! vector.

ghost use Rattle.std.specs.Prelude.{◌≡◌, [], ◌∷◌, ◌++◌, map};
ghost use Rattle.std_defs.specs.Aes.{inverse_shift_rows, inverse_sub_bytes, mix_columns, inverse_mix_columns};
ghost use Rattle.aes_lanes.specs.Pairs.{blocks_of};
ghost use Rattle.aes_lanes.specs.Places.{by_rows, low_words, high_words, low_quads, high_quads, columns_on};
ghost use Rattle.aes_lanes.specs.Tower.{term_byte};
ghost use Rattle.aes_lanes.specs.Rows.{eight_blocks, blocks_in, state_blocks, term_blocks, with_key};

use crate::row_keys::RowKey;
use crate::tower::{four_times_term, state_added, terms_added, twice_term, undone};
use std::simd::prelude::*;

/// Four vectors, from the top row. The first half of each has blocks 0, 2, 4 and 6, and the second 1, 3, 5 and 7, with
/// four bytes of a block beside one another.
#[derive(Clone, Copy)]
pub(crate) struct Rows {
    pub(crate) first: u8x32,
    pub(crate) second: u8x32,
    pub(crate) third: u8x32,
    pub(crate) fourth: u8x32,
}

/// The places of a block by rows, where it lies by columns.
const GROUPED: [usize; 32] = [
    0, 4, 8, 12, 1, 5, 9, 13, 2, 6, 10, 14, 3, 7, 11, 15, 16, 20, 24, 28, 17, 21, 25, 29, 18, 22,
    26, 30, 19, 23, 27, 31,
];

const LOW_WORDS: [usize; 32] = [
    0, 1, 2, 3, 32, 33, 34, 35, 4, 5, 6, 7, 36, 37, 38, 39, 16, 17, 18, 19, 48, 49, 50, 51, 20, 21,
    22, 23, 52, 53, 54, 55,
];

const HIGH_WORDS: [usize; 32] = [
    8, 9, 10, 11, 40, 41, 42, 43, 12, 13, 14, 15, 44, 45, 46, 47, 24, 25, 26, 27, 56, 57, 58, 59,
    28, 29, 30, 31, 60, 61, 62, 63,
];

const LOW_QUADS: [usize; 32] = [
    0, 1, 2, 3, 4, 5, 6, 7, 32, 33, 34, 35, 36, 37, 38, 39, 16, 17, 18, 19, 20, 21, 22, 23, 48, 49,
    50, 51, 52, 53, 54, 55,
];

const HIGH_QUADS: [usize; 32] = [
    8, 9, 10, 11, 12, 13, 14, 15, 40, 41, 42, 43, 44, 45, 46, 47, 24, 25, 26, 27, 28, 29, 30, 31,
    56, 57, 58, 59, 60, 61, 62, 63,
];

const ONE_COLUMN: [usize; 32] = [
    1, 2, 3, 0, 5, 6, 7, 4, 9, 10, 11, 8, 13, 14, 15, 12, 17, 18, 19, 16, 21, 22, 23, 20, 25, 26,
    27, 24, 29, 30, 31, 28,
];

const TWO_COLUMNS: [usize; 32] = [
    2, 3, 0, 1, 6, 7, 4, 5, 10, 11, 8, 9, 14, 15, 12, 13, 18, 19, 16, 17, 22, 23, 20, 21, 26, 27,
    24, 25, 30, 31, 28, 29,
];

const THREE_COLUMNS: [usize; 32] = [
    3, 0, 1, 2, 7, 4, 5, 6, 11, 8, 9, 10, 15, 12, 13, 14, 19, 16, 17, 18, 23, 20, 21, 22, 27, 24,
    25, 26, 31, 28, 29, 30,
];

const BOTH_HALVES: [usize; 32] = [
    0, 1, 2, 3, 4, 5, 6, 7, 8, 9, 10, 11, 12, 13, 14, 15, 0, 1, 2, 3, 4, 5, 6, 7, 8, 9, 10, 11, 12,
    13, 14, 15,
];

/// Both blocks by rows, where they lie by columns; or by columns, where they lie by rows.
#[inline(always)]
fn grouped(x: u8x32) -> u8x32
    ensures { result ≡ by_rows x }
{
    x.swizzle(GROUPED)
}

/// The words of both first quarters of each half, in turn.
#[inline(always)]
fn of_low_words(x: u8x32, y: u8x32) -> u8x32
    ensures { result ≡ low_words x y }
{
    x.shuffle(y, LOW_WORDS)
}

#[inline(always)]
fn of_high_words(x: u8x32, y: u8x32) -> u8x32
    ensures { result ≡ high_words x y }
{
    x.shuffle(y, HIGH_WORDS)
}

#[inline(always)]
fn of_low_quads(x: u8x32, y: u8x32) -> u8x32
    ensures { result ≡ low_quads x y }
{
    x.shuffle(y, LOW_QUADS)
}

#[inline(always)]
fn of_high_quads(x: u8x32, y: u8x32) -> u8x32
    ensures { result ≡ high_quads x y }
{
    x.shuffle(y, HIGH_QUADS)
}

/// The words of each half as a matrix of four by four, transposed.
#[inline(always)]
fn crossed(s: Rows) -> Rows
    ensures first { result.first ≡ low_quads (low_words s.first s.second) (low_words s.third s.fourth) }
    ensures second { result.second ≡ high_quads (low_words s.first s.second) (low_words s.third s.fourth) }
    ensures third { result.third ≡ low_quads (high_words s.first s.second) (high_words s.third s.fourth) }
    ensures fourth { result.fourth ≡ high_quads (high_words s.first s.second) (high_words s.third s.fourth) }
{
    let a = of_low_words(s.first, s.second);
    let b = of_high_words(s.first, s.second);
    let c = of_low_words(s.third, s.fourth);
    let d = of_high_words(s.third, s.fourth);
    Rows {
        first: of_low_quads(a, c),
        second: of_high_quads(a, c),
        third: of_low_quads(b, d),
        fourth: of_high_quads(b, d),
    }
}

/// The rows of four pairs of blocks.
#[inline(always)]
pub(crate) fn rows_of(a: u8x32, b: u8x32, c: u8x32, d: u8x32) -> Rows
    ensures { blocks_in result ≡ blocks_of (a ∷ b ∷ c ∷ d ∷ []) }
{
    crossed(Rows {
        first: grouped(a),
        second: grouped(b),
        third: grouped(c),
        fourth: grouped(d),
    })
}

/// The four pairs of blocks.
#[inline(always)]
pub(crate) fn pairs_of(s: Rows) -> [u8x32; 4]
    ensures { blocks_of result ≡ blocks_in s }
{
    let t = crossed(s);
    [
        grouped(t.first),
        grouped(t.second),
        grouped(t.third),
        grouped(t.fourth),
    ]
}

#[inline(always)]
pub(crate) fn one_column_on(x: u8x32) -> u8x32
    ensures { result ≡ columns_on 1 x }
{
    x.swizzle(ONE_COLUMN)
}

#[inline(always)]
pub(crate) fn two_columns_on(x: u8x32) -> u8x32
    ensures { result ≡ columns_on 2 x }
{
    x.swizzle(TWO_COLUMNS)
}

#[inline(always)]
pub(crate) fn three_columns_on(x: u8x32) -> u8x32
    ensures { result ≡ columns_on 3 x }
{
    x.swizzle(THREE_COLUMNS)
}

/// InvShiftRows of all blocks.
#[inline(always)]
pub(crate) fn shifted_back(s: Rows) -> Rows
    ensures { state_blocks result ≡ map inverse_shift_rows (state_blocks s) }
{
    Rows {
        first: s.first,
        second: three_columns_on(s.second),
        third: two_columns_on(s.third),
        fourth: one_column_on(s.fourth),
    }
}

/// InvSubBytes of all blocks, as terms.
#[inline(always)]
pub(crate) fn all_undone(s: Rows) -> Rows
    ensures { term_blocks result ≡ map inverse_sub_bytes (state_blocks s) }
{
    Rows {
        first: undone(s.first),
        second: undone(s.second),
        third: undone(s.third),
        fourth: undone(s.fourth),
    }
}

/// MixColumns of all blocks, as terms, from the rows.
#[inline(always)]
fn mixed(a: u8x32, b: u8x32, c: u8x32, d: u8x32) -> Rows
    ensures { term_blocks result ≡ map mix_columns (map (map term_byte) (eight_blocks (a ∷ b ∷ c ∷ d ∷ []))) }
{
    let ab = terms_added(a, b);
    let bc = terms_added(b, c);
    let cd = terms_added(c, d);
    let da = terms_added(d, a);
    Rows {
        first: terms_added(terms_added(twice_term(ab), b), cd),
        second: terms_added(terms_added(twice_term(bc), c), da),
        third: terms_added(terms_added(twice_term(cd), d), ab),
        fourth: terms_added(terms_added(twice_term(da), a), bc),
    }
}

/// InvMixColumns of all blocks, as terms, from the rows: MixColumns, where four times each byte and the one two below
/// it are added first.
#[inline(always)]
pub(crate) fn mixed_back(a: u8x32, b: u8x32, c: u8x32, d: u8x32) -> Rows
    ensures { term_blocks result ≡ map inverse_mix_columns (map (map term_byte) (eight_blocks (a ∷ b ∷ c ∷ d ∷ []))) }
{
    let u = four_times_term(terms_added(a, c));
    let v = four_times_term(terms_added(b, d));
    mixed(
        terms_added(a, u),
        terms_added(b, v),
        terms_added(c, u),
        terms_added(d, v),
    )
}

/// A row of a key in both halves.
#[inline(always)]
pub(crate) fn in_both(x: u8x16) -> u8x32
    ensures { result ≡ x ++ x }
{
    x.swizzle(BOTH_HALVES)
}

/// Adds a round key to terms of all blocks.
#[inline(always)]
pub(crate) fn key_added(s: Rows, key: RowKey) -> Rows
    ensures { state_blocks result
        ≡ eight_blocks (with_key s.first key.first ∷ with_key s.second key.second
        ∷ with_key s.third key.third ∷ with_key s.fourth key.fourth ∷ []) }
{
    Rows {
        first: state_added(s.first, in_both(key.first)),
        second: state_added(s.second, in_both(key.second)),
        third: state_added(s.third, in_both(key.third)),
        fourth: state_added(s.fourth, in_both(key.fourth)),
    }
}
