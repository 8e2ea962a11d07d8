//! Bytes in the tower, as unsealing carries them from round to round: a state is kept as the elements whose inverses
//! the inverse S-box looks up. A term is an element that is only added up: a sum of terms and of one byte of a state is
//! a byte of a state.

ghost use Rattle.std.specs.Prelude.{◌≡◌, length, map, bit_xor};
ghost use Rattle.std.specs.Simd.Lanes.{zip2};
ghost use Rattle.std_defs.specs.Aes.{mul8, inverse_sbox};
ghost use Rattle.aes_lanes.specs.Lookup.{look, low, high, first_part, second_part};
ghost use Rattle.aes_lanes.specs.Tower.{state_byte, term_byte};

use crate::lookup::{
    INVERSE_FIRST_FROM_TOWER, INVERSE_HIGH_TO_TOWER, INVERSE_LOW_TO_TOWER,
    INVERSE_SECOND_FROM_TOWER, high_half, inverted, looked_up, low_half, sum,
};
use std::simd::prelude::*;

/// The term of the byte from both parts of an inverse.
const FIRST_TO_TERM: [u8; 16] = [
    0x00, 0xe6, 0x57, 0xcc, 0x88, 0x39, 0x9b, 0x6e, 0x44, 0x2a, 0xf5, 0x13, 0xb1, 0xa2, 0xdf, 0x7d,
];

const SECOND_TO_TERM: [u8; 16] = [
    0x00, 0x24, 0xe2, 0xfa, 0x15, 0xd3, 0x18, 0x31, 0xef, 0xde, 0x29, 0x0d, 0xc6, 0xcb, 0xf7, 0x3c,
];

/// Twice the byte of a term.
const LOW_TWICE: [u8; 16] = [
    0x00, 0xfc, 0xca, 0x36, 0x1a, 0xe6, 0xd0, 0x2c, 0x66, 0x9a, 0xac, 0x50, 0x7c, 0x80, 0xb6, 0x4a,
];

const HIGH_TWICE: [u8; 16] = [
    0x00, 0xc9, 0x34, 0xfd, 0xd7, 0x1e, 0xe3, 0x2a, 0xa7, 0x6e, 0x93, 0x5a, 0x70, 0xb9, 0x44, 0x8d,
];

/// Four times the byte of a term.
const LOW_FOUR_TIMES: [u8; 16] = [
    0x00, 0xf1, 0xdc, 0x2d, 0x65, 0x94, 0xb9, 0x48, 0x33, 0xc2, 0xef, 0x1e, 0x56, 0xa7, 0x8a, 0x7b,
];

const HIGH_FOUR_TIMES: [u8; 16] = [
    0x00, 0xea, 0xe7, 0x0d, 0x95, 0x7f, 0x72, 0x98, 0xbf, 0x55, 0x58, 0xb2, 0x2a, 0xc0, 0xcd, 0x27,
];

/// The sum of the entries for both halves of each lane.
#[inline(always)]
pub(crate) fn by_halves(lows: [u8; 16], highs: [u8; 16], x: u8x32) -> u8x32
    requires low { length lows ≡ 16 }
    requires high { length highs ≡ 16 }
    ensures { result ≡ map (λ x. bit_xor (look lows (low x)) (look highs (high x))) x }
{
    let left = looked_up(lows, low_half(x));
    let right = looked_up(highs, high_half(x));
    sum(left, right)
}

/// The sum of the entries for both parts of each lane's inverse.
#[inline(always)]
pub(crate) fn by_parts(firsts: [u8; 16], seconds: [u8; 16], y: u8x32) -> u8x32
    requires first { length firsts ≡ 16 }
    requires second { length seconds ≡ 16 }
    ensures { result ≡ map (λ y. bit_xor (look firsts (first_part y)) (look seconds (second_part y))) y }
{
    let (first, second) = inverted(y);
    let left = looked_up(firsts, first);
    let right = looked_up(seconds, second);
    sum(left, right)
}

/// Bytes of states, in the tower.
#[inline(always)]
pub(crate) fn in_tower(x: u8x32) -> u8x32
    ensures { map state_byte result ≡ x }
{
    by_halves(INVERSE_LOW_TO_TOWER, INVERSE_HIGH_TO_TOWER, x)
}

/// The inverse S-box, as terms.
#[inline(always)]
pub(crate) fn undone(y: u8x32) -> u8x32
    ensures { map term_byte result ≡ map (λ y. inverse_sbox (state_byte y)) y }
{
    by_parts(FIRST_TO_TERM, SECOND_TO_TERM, y)
}

/// The inverse S-box, as the bytes themselves.
#[inline(always)]
pub(crate) fn undone_last(y: u8x32) -> u8x32
    ensures { result ≡ map (λ y. inverse_sbox (state_byte y)) y }
{
    by_parts(INVERSE_FIRST_FROM_TOWER, INVERSE_SECOND_FROM_TOWER, y)
}

/// Twice the bytes of terms.
#[inline(always)]
pub(crate) fn twice_term(x: u8x32) -> u8x32
    ensures { map term_byte result ≡ map (λ x. mul8 2 (term_byte x)) x }
{
    by_halves(LOW_TWICE, HIGH_TWICE, x)
}

/// Four times the bytes of terms.
#[inline(always)]
pub(crate) fn four_times_term(x: u8x32) -> u8x32
    ensures { map term_byte result ≡ map (λ x. mul8 2 (mul8 2 (term_byte x))) x }
{
    by_halves(LOW_FOUR_TIMES, HIGH_FOUR_TIMES, x)
}

/// Sums of terms.
#[inline(always)]
pub(crate) fn terms_added(x: u8x32, y: u8x32) -> u8x32
    ensures { map term_byte result ≡ zip2 bit_xor (map term_byte x) (map term_byte y) }
{
    x ^ y
}

/// Sums of terms and of bytes of states.
#[inline(always)]
pub(crate) fn state_added(x: u8x32, y: u8x32) -> u8x32
    ensures { map state_byte result ≡ zip2 bit_xor (map term_byte x) (map state_byte y) }
{
    x ^ y
}
