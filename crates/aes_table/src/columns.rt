//! A column after a round, by look-ups. A column is a word, its top byte the lowest.

ghost use Rattle.std.specs.Prelude.{◌≡◌, ◌∷◌, [], map, slice_index};
ghost use Rattle.std_defs.specs.Aes.{xor_words, sbox, inverse_sbox};
ghost use Rattle.aes_table.specs.Words.{bytes_of, mixed, mixed_back};

use crate::tables::{
    back_first, back_fourth, back_second, back_third, first, fourth, second, third,
};

/// The S-box of a byte: it stands in an entry as it is, as MixColumns takes it once.
fn substituted(byte: u8) -> u8
    ensures { result ≡ sbox byte }
{
    first(byte).to_le_bytes()[1]
}

/// The inverse S-box of a byte: the sum of an entry's bytes, as those of a column of InvMixColumns are 1 together.
fn inverse_substituted(byte: u8) -> u8
    ensures { result ≡ inverse_sbox byte }
{
    let [a, b, c, d] = back_first(byte).to_le_bytes();
    (a ^ b) ^ (c ^ d)
}

/// A column after SubBytes, MixColumns and AddRoundKey, from its bytes before.
#[inline(always)]
pub(crate) fn sealed_column(a: u8, b: u8, c: u8, d: u8, key: u32) -> u32
    ensures { bytes_of result ≡ xor_words (mixed (map sbox (a ∷ b ∷ c ∷ d ∷ []))) (bytes_of key) }
{
    // the key first: it doesn't wait for the bytes
    key ^ first(a) ^ second(b) ^ third(c) ^ fourth(d)
}

/// A column after InvSubBytes and InvMixColumns, and a key added to it, from its bytes before.
#[inline(always)]
pub(crate) fn unsealed_column(a: u8, b: u8, c: u8, d: u8, key: u32) -> u32
    ensures { bytes_of result ≡ xor_words (mixed_back (map inverse_sbox (a ∷ b ∷ c ∷ d ∷ []))) (bytes_of key) }
{
    (back_first(a) ^ back_second(b)) ^ (back_third(c) ^ back_fourth(d)) ^ key
}

/// A column after SubBytes and AddRoundKey, from its bytes before.
#[inline(always)]
pub(crate) fn last_column(a: u8, b: u8, c: u8, d: u8, key: u32) -> u32
    ensures { bytes_of result ≡ xor_words (map sbox (a ∷ b ∷ c ∷ d ∷ [])) (bytes_of key) }
{
    u32::from_le_bytes([
        substituted(a),
        substituted(b),
        substituted(c),
        substituted(d),
    ]) ^ key
}

/// A column after InvSubBytes and AddRoundKey, from its bytes before.
#[inline(always)]
pub(crate) fn first_column(a: u8, b: u8, c: u8, d: u8, key: u32) -> u32
    ensures { bytes_of result ≡ xor_words (map inverse_sbox (a ∷ b ∷ c ∷ d ∷ [])) (bytes_of key) }
{
    u32::from_le_bytes([
        inverse_substituted(a),
        inverse_substituted(b),
        inverse_substituted(c),
        inverse_substituted(d),
    ]) ^ key
}

/// A word of the key schedule after InvMixColumns.
pub(crate) fn word_mixed_back(word: u32) -> u32
    ensures { bytes_of result ≡ mixed_back (bytes_of word) }
{
    let [a, b, c, d] = word.to_le_bytes();
    unsealed_column(
        substituted(a),
        substituted(b),
        substituted(c),
        substituted(d),
        0,
    )
}
