//! PCLMULQDQ (Intel 64 and IA-32 Architectures Software Developer's Manual, volume 2B): the product of two polynomials
//! over bits, each a half of a vector. Bit i of a number is the coefficient of x^i, so nothing is carried.
//!
//! The low half of a vector is its first lane. The bodies take branches that depend on what is multiplied: a build in
//! which they are not the instruction must not run them on secrets.

ghost use Rattle.std.specs.Prelude.{◌≡◌};
ghost use Rattle.std_defs.specs.Aes.{product};
ghost use Rattle.instructions.specs.Carryless.{low_half, high_half, in_halves};

use std::simd::prelude::*;

/// The product of two polynomials of degrees below 64. Its degree is below 127.
#[tactic(auto, using(crate::proofs::Turns::turns))]
fn product_of(x: u64, y: u64) -> u128
    ensures { result ≡ product x y 64 }
{
    let mut z = 0u128;
    let mut v = u128::from(x);
    for i in 0..64u32 {
        if (y >> i) & 1 == 1 {
            z ^= v;
        }
        v <<= 1;
    }
    z
}

/// The vector of a number.
fn halves_of(z: u128) -> u64x2
    ensures { result ≡ in_halves z }
{
    u64x2::from_array([(z & 0xffff_ffff_ffff_ffff) as u64, (z >> 64) as u64])
}

/// PCLMULLQLQDQ, with the immediate byte 0x00: the product of the low half of `x` and the low half of `y`.
pub fn clmul_low_low(x: u64x2, y: u64x2) -> u64x2
    ensures { result ≡ in_halves (product (low_half x) (low_half y) 64) }
{
    let [a, _] = x.to_array();
    let [b, _] = y.to_array();
    halves_of(product_of(a, b))
}

/// PCLMULHQLQDQ, with the immediate byte 0x01: the product of the high half of `x` and the low half of `y`.
pub fn clmul_high_low(x: u64x2, y: u64x2) -> u64x2
    ensures { result ≡ in_halves (product (high_half x) (low_half y) 64) }
{
    let [_, a] = x.to_array();
    let [b, _] = y.to_array();
    halves_of(product_of(a, b))
}

/// PCLMULLQHQDQ, with the immediate byte 0x10: the product of the low half of `x` and the high half of `y`.
pub fn clmul_low_high(x: u64x2, y: u64x2) -> u64x2
    ensures { result ≡ in_halves (product (low_half x) (high_half y) 64) }
{
    let [a, _] = x.to_array();
    let [_, b] = y.to_array();
    halves_of(product_of(a, b))
}

/// PCLMULHQHQDQ, with the immediate byte 0x11: the product of the high half of `x` and the high half of `y`.
pub fn clmul_high_high(x: u64x2, y: u64x2) -> u64x2
    ensures { result ≡ in_halves (product (high_half x) (high_half y) 64) }
{
    let [_, a] = x.to_array();
    let [_, b] = y.to_array();
    halves_of(product_of(a, b))
}
