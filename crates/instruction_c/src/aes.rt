//! The instructions for AES.

use instructions::{aesdec, aesdeclast, aesenc, aesenclast, aesimc};
use std::simd::prelude::*;

#[unsafe(no_mangle)]
pub extern "C" fn instruction_aesenc(state: &mut [u8; 16], key: &[u8; 16]) {
    *state = aesenc(u8x16::from_array(*state), u8x16::from_array(*key)).to_array();
}

#[unsafe(no_mangle)]
pub extern "C" fn instruction_aesenclast(state: &mut [u8; 16], key: &[u8; 16]) {
    *state = aesenclast(u8x16::from_array(*state), u8x16::from_array(*key)).to_array();
}

#[unsafe(no_mangle)]
pub extern "C" fn instruction_aesdec(state: &mut [u8; 16], key: &[u8; 16]) {
    *state = aesdec(u8x16::from_array(*state), u8x16::from_array(*key)).to_array();
}

#[unsafe(no_mangle)]
pub extern "C" fn instruction_aesdeclast(state: &mut [u8; 16], key: &[u8; 16]) {
    *state = aesdeclast(u8x16::from_array(*state), u8x16::from_array(*key)).to_array();
}

#[unsafe(no_mangle)]
pub extern "C" fn instruction_aesimc(key: &mut [u8; 16]) {
    *key = aesimc(u8x16::from_array(*key)).to_array();
}
