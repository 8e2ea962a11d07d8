//! The state as four columns.

ghost use Rattle.std.specs.Prelude.{◌≡◌, ◌<◌, map};
ghost use Rattle.std_defs.specs.Aes.{add_round_key, sub_bytes, shift_rows, mix_columns, inverse_sub_bytes, inverse_shift_rows, inverse_mix_columns};
ghost use Rattle.aes_table.specs.Words.{bytes_of};
ghost use Rattle.aes_table.specs.States.{state_of};

use crate::columns::{first_column, last_column, sealed_column, unsealed_column};

/// Four columns, from the left.
#[derive(Clone, Copy)]
pub(crate) struct Columns {
    pub(crate) first: u32,
    pub(crate) second: u32,
    pub(crate) third: u32,
    pub(crate) fourth: u32,
}

/// The columns of a block.
#[inline(always)]
pub(crate) fn columns_of(b: &[u8; 16]) -> Columns
    ensures { state_of result ≡ b.now }
{
    Columns {
        first: u32::from_le_bytes([b[0], b[1], b[2], b[3]]),
        second: u32::from_le_bytes([b[4], b[5], b[6], b[7]]),
        third: u32::from_le_bytes([b[8], b[9], b[10], b[11]]),
        fourth: u32::from_le_bytes([b[12], b[13], b[14], b[15]]),
    }
}

/// The block of four columns.
#[inline(always)]
pub(crate) fn block_of(s: Columns) -> [u8; 16]
    ensures { result ≡ state_of s }
{
    let [a, b, c, d] = s.first.to_le_bytes();
    let [e, f, g, h] = s.second.to_le_bytes();
    let [i, j, k, l] = s.third.to_le_bytes();
    let [m, n, o, p] = s.fourth.to_le_bytes();
    [a, b, c, d, e, f, g, h, i, j, k, l, m, n, o, p]
}

/// AddRoundKey.
#[inline(always)]
pub(crate) fn key_added(s: Columns, words: &[u32; 60], round: usize) -> Columns
    requires { round < 15 }
    ensures { state_of result ≡ add_round_key (map bytes_of words.now) round (state_of s) }
{
    Columns {
        first: s.first ^ words[4 * round],
        second: s.second ^ words[4 * round + 1],
        third: s.third ^ words[4 * round + 2],
        fourth: s.fourth ^ words[4 * round + 3],
    }
}

/// A round: each column takes its bytes from those that ShiftRows brings there.
#[inline(always)]
pub(crate) fn sealed_round(s: Columns, words: &[u32; 60], round: usize) -> Columns
    requires { round < 15 }
    ensures { state_of result ≡ add_round_key (map bytes_of words.now) round (mix_columns (shift_rows (sub_bytes (state_of s)))) }
{
    let [a, b, c, d, e, f, g, h, i, j, k, l, m, n, o, p] = block_of(s);
    Columns {
        first: sealed_column(a, f, k, p, words[4 * round]),
        second: sealed_column(e, j, o, d, words[4 * round + 1]),
        third: sealed_column(i, n, c, h, words[4 * round + 2]),
        fourth: sealed_column(m, b, g, l, words[4 * round + 3]),
    }
}

/// The last round, which has no MixColumns.
#[inline(always)]
pub(crate) fn sealed_last(s: Columns, words: &[u32; 60], round: usize) -> Columns
    requires { round < 15 }
    ensures { state_of result ≡ add_round_key (map bytes_of words.now) round (shift_rows (sub_bytes (state_of s))) }
{
    let [a, b, c, d, e, f, g, h, i, j, k, l, m, n, o, p] = block_of(s);
    Columns {
        first: last_column(a, f, k, p, words[4 * round]),
        second: last_column(e, j, o, d, words[4 * round + 1]),
        third: last_column(i, n, c, h, words[4 * round + 2]),
        fourth: last_column(m, b, g, l, words[4 * round + 3]),
    }
}

/// A round undone, and words that went through InvMixColumns added.
#[inline(always)]
pub(crate) fn unsealed_round(s: Columns, back_words: &[u32; 60], round: usize) -> Columns
    requires { round < 15 }
    ensures { state_of result
        ≡ add_round_key (map bytes_of back_words.now) round (inverse_mix_columns (inverse_sub_bytes (inverse_shift_rows (state_of s)))) }
{
    let [a, b, c, d, e, f, g, h, i, j, k, l, m, n, o, p] = block_of(s);
    Columns {
        first: unsealed_column(a, n, k, h, back_words[4 * round]),
        second: unsealed_column(e, b, o, l, back_words[4 * round + 1]),
        third: unsealed_column(i, f, c, p, back_words[4 * round + 2]),
        fourth: unsealed_column(m, j, g, d, back_words[4 * round + 3]),
    }
}

/// The first round undone, which has no MixColumns before it.
#[inline(always)]
pub(crate) fn unsealed_first(s: Columns, words: &[u32; 60]) -> Columns
    ensures { state_of result ≡ add_round_key (map bytes_of words.now) 0 (inverse_sub_bytes (inverse_shift_rows (state_of s))) }
{
    let [a, b, c, d, e, f, g, h, i, j, k, l, m, n, o, p] = block_of(s);
    Columns {
        first: first_column(a, n, k, h, words[0]),
        second: first_column(e, b, o, l, words[1]),
        third: first_column(i, f, c, p, words[2]),
        fourth: first_column(m, j, g, d, words[3]),
    }
}
