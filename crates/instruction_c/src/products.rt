//! The forms of the carry-less product.

use instructions::{clmul_high_high, clmul_high_low, clmul_low_high, clmul_low_low};
use std::simd::prelude::*;

#[unsafe(no_mangle)]
pub extern "C" fn instruction_clmul_low_low(x: &mut [u64; 2], y: &[u64; 2]) {
    *x = clmul_low_low(u64x2::from_array(*x), u64x2::from_array(*y)).to_array();
}

#[unsafe(no_mangle)]
pub extern "C" fn instruction_clmul_high_low(x: &mut [u64; 2], y: &[u64; 2]) {
    *x = clmul_high_low(u64x2::from_array(*x), u64x2::from_array(*y)).to_array();
}

#[unsafe(no_mangle)]
pub extern "C" fn instruction_clmul_low_high(x: &mut [u64; 2], y: &[u64; 2]) {
    *x = clmul_low_high(u64x2::from_array(*x), u64x2::from_array(*y)).to_array();
}

#[unsafe(no_mangle)]
pub extern "C" fn instruction_clmul_high_high(x: &mut [u64; 2], y: &[u64; 2]) {
    *x = clmul_high_high(u64x2::from_array(*x), u64x2::from_array(*y)).to_array();
}
