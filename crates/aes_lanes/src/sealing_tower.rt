//! Bytes in the tower, as sealing carries them from round to round: a state is kept as the elements whose inverses the
//! S-box looks up. The constant that the S-box adds is left to the round keys, since MixColumns leaves it as it is.

ghost use Rattle.std.specs.Prelude.{◌≡◌, map, bit_xor};
ghost use Rattle.std.specs.Simd.Lanes.{zip2};
ghost use Rattle.std_defs.specs.Aes.{mul8, sbox};
ghost use Rattle.aes_lanes.specs.SealingTower.{tower_byte, less_sbox};

use crate::lookup::{FIRST_FROM_TOWER, HIGH_TO_TOWER, LOW_TO_TOWER, SECOND_FROM_TOWER};
use crate::tower::{by_halves, by_parts};
use std::simd::prelude::*;

/// The S-box less its constant, in the tower, from both parts of an inverse.
pub(crate) const FIRST_IN_TOWER: [u8; 16] = [
    0x00, 0x3e, 0x50, 0xcb, 0x8f, 0xe1, 0x9b, 0xb1, 0x44, 0xf5, 0x2a, 0x14, 0x6e, 0x7a, 0xdf, 0xa5,
];

pub(crate) const SECOND_IN_TOWER: [u8; 16] = [
    0x00, 0x23, 0xe2, 0xfa, 0x15, 0xd4, 0x18, 0x36, 0xef, 0xd9, 0x2e, 0x0d, 0xc1, 0xcc, 0xf7, 0x3b,
];

/// Twice it.
pub(crate) const FIRST_TWICE: [u8; 16] = [
    0x00, 0x24, 0x71, 0x0b, 0xc6, 0x93, 0x7a, 0xe2, 0xcd, 0x2f, 0x98, 0xbc, 0x55, 0xe9, 0xb7, 0x5e,
];

pub(crate) const SECOND_TWICE: [u8; 16] = [
    0x00, 0x29, 0xe1, 0x0a, 0x40, 0x88, 0xeb, 0x69, 0x4a, 0x23, 0x82, 0xab, 0xc8, 0x63, 0xa1, 0xc2,
];

/// Bytes of states, in the tower.
#[inline(always)]
pub(crate) fn in_sealing_tower(x: u8x32) -> u8x32
    ensures { map tower_byte result ≡ x }
{
    by_halves(LOW_TO_TOWER, HIGH_TO_TOWER, x)
}

/// The S-box less its constant, and twice that.
#[inline(always)]
pub(crate) fn made(y: u8x32) -> (u8x32, u8x32)
    ensures once { map tower_byte result.0 ≡ map (λ y. less_sbox (tower_byte y)) y }
    ensures twice { map tower_byte result.1 ≡ map (λ y. mul8 2 (less_sbox (tower_byte y))) y }
{
    let once = by_parts(FIRST_IN_TOWER, SECOND_IN_TOWER, y);
    let twice = by_parts(FIRST_TWICE, SECOND_TWICE, y);
    (once, twice)
}

/// The S-box, as the bytes themselves.
#[inline(always)]
pub(crate) fn made_last(y: u8x32) -> u8x32
    ensures { result ≡ map (λ y. sbox (tower_byte y)) y }
{
    let less = by_parts(FIRST_FROM_TOWER, SECOND_FROM_TOWER, y);
    less ^ u8x32::splat(0x63)
}

/// Sums of elements.
#[inline(always)]
pub(crate) fn added(x: u8x32, y: u8x32) -> u8x32
    ensures { map tower_byte result ≡ zip2 bit_xor (map tower_byte x) (map tower_byte y) }
{
    x ^ y
}
