//! The instructions for AES of x86-64, on a state or a round key of sixteen bytes (FIPS 197, 3.4).

ghost use Rattle.std.specs.Prelude.{◌≡◌, bit_xor};
ghost use Rattle.std.specs.Simd.Lanes.{zip2};
ghost use Rattle.std_defs.specs.Aes.{sub_bytes as sub_bytes_of, inverse_sub_bytes as inverse_sub_bytes_of, shift_rows as shift_rows_of, inverse_shift_rows as inverse_shift_rows_of, mix_columns as mix_columns_of, inverse_mix_columns as inverse_mix_columns_of};

use aes_block::{
    inverse_mix_columns, inverse_shift_rows, inverse_sub_bytes, mix_columns, shift_rows, sub_bytes,
};
use std::simd::prelude::*;

/// AESENC: a round of sealing (FIPS 197, 5.1).
pub fn aesenc(state: u8x16, key: u8x16) -> u8x16
    ensures { result ≡ zip2 bit_xor (mix_columns_of (shift_rows_of (sub_bytes_of state))) key }
{
    let mut s = state.to_array();
    sub_bytes(&mut s);
    shift_rows(&mut s);
    mix_columns(&mut s);
    u8x16::from_array(s) ^ key
}

/// AESENCLAST: the last round of sealing, which mixes no columns.
pub fn aesenclast(state: u8x16, key: u8x16) -> u8x16
    ensures { result ≡ zip2 bit_xor (shift_rows_of (sub_bytes_of state)) key }
{
    let mut s = state.to_array();
    sub_bytes(&mut s);
    shift_rows(&mut s);
    u8x16::from_array(s) ^ key
}

/// AESDEC: a round of the equivalent inverse cipher (5.3.5).
pub fn aesdec(state: u8x16, key: u8x16) -> u8x16
    ensures { result ≡ zip2 bit_xor (inverse_mix_columns_of (inverse_sub_bytes_of (inverse_shift_rows_of state))) key }
{
    let mut s = state.to_array();
    inverse_shift_rows(&mut s);
    inverse_sub_bytes(&mut s);
    inverse_mix_columns(&mut s);
    u8x16::from_array(s) ^ key
}

/// AESDECLAST: the last round of the equivalent inverse cipher, which mixes no columns.
pub fn aesdeclast(state: u8x16, key: u8x16) -> u8x16
    ensures { result ≡ zip2 bit_xor (inverse_sub_bytes_of (inverse_shift_rows_of state)) key }
{
    let mut s = state.to_array();
    inverse_shift_rows(&mut s);
    inverse_sub_bytes(&mut s);
    u8x16::from_array(s) ^ key
}

/// AESIMC: InvMixColumns, which makes the round keys of the equivalent inverse cipher.
pub fn aesimc(key: u8x16) -> u8x16
    ensures { result ≡ inverse_mix_columns_of key }
{
    let mut mixed = key.to_array();
    inverse_mix_columns(&mut mixed);
    u8x16::from_array(mixed)
}
