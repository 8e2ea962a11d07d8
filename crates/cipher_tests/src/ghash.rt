//! GHASH by each form of a key: the GCM specification's test cases 2 and 4, another library's hash of a longer text,
//! and one form beside another.

use ghash_clmul::ClmulGhash;
use ghash_field::{BitGhash, GhashKey, LaneGhash, absorb, ghash_of, multiply};
use std::process::Abort;
use std_defs::block_bytes;

const H: u128 = 0x66e9_4bd4_ef8a_2c3b_884c_fa59_ca34_2b2e;

const OTHER_H: u128 = 0xb83b_5337_08bf_535d_0aa6_e529_80d5_3b78;

/// The associated bytes of test case 4.
const ASSOCIATED: [u8; 20] = [
    0xfe, 0xed, 0xfa, 0xce, 0xde, 0xad, 0xbe, 0xef, 0xfe, 0xed, 0xfa, 0xce, 0xde, 0xad, 0xbe, 0xef,
    0xab, 0xad, 0xda, 0xd2,
];

/// Its ciphertext.
const TEXT: [u8; 60] = [
    0x42, 0x83, 0x1e, 0xc2, 0x21, 0x77, 0x74, 0x24, 0x4b, 0x72, 0x21, 0xb7, 0x84, 0xd0, 0xd4, 0x9c,
    0xe3, 0xaa, 0x21, 0x2f, 0x2c, 0x02, 0xa4, 0xe0, 0x35, 0xc1, 0x7e, 0x23, 0x29, 0xac, 0xa1, 0x2e,
    0x21, 0xd5, 0x14, 0xb2, 0x54, 0x66, 0x93, 0x1c, 0x7d, 0x8f, 0x6a, 0x5a, 0xac, 0x84, 0xaa, 0x05,
    0x1b, 0xa3, 0x0b, 0x39, 0x6a, 0x0a, 0xac, 0x97, 0x3d, 0x58, 0xe0, 0x91,
];

/// A thousand bytes: byte i is 7 i + 3.
fn long_text() -> [u8; 1000] {
    let mut text = [0u8; 1000];
    for i in 0..1000usize {
        text[i] = ((7 * i + 3) % 256) as u8;
    }
    text
}

fn multiplies<K: GhashKey + Drop>(rt: &impl Abort) {
    let key = K::new(block_bytes(H));
    let x = 0x0388_dace_60b6_a392_f328_c2b9_71b2_fe78;
    let y = 0x5e2e_c746_9170_6288_2c85_b068_5353_deb7;
    let sum = 0xf38c_bb1a_d692_23dc_c345_7ae5_b6b0_f885;
    assert!(rt; key.product(x) == y);
    assert!(rt; u128::from_be_bytes(key.mul(block_bytes(y ^ 0x80))) == sum);
}

fn hashes<K: GhashKey + Drop>(rt: &impl Abort) {
    let key = K::new(block_bytes(OTHER_H));
    let short = ghash_of(&key, &ASSOCIATED, &TEXT, (160 << 64) | 480);
    assert!(rt; short == 0x698e_57f7_0e6e_cc7f_d946_3b72_60a9_ae5f);
    let text = long_text();
    let long = ghash_of(&key, &text[..40], &text, (320 << 64) | 8000);
    assert!(rt; long == 0x0b1d_8995_9fa8_2912_c100_bf80_299b_d07d);
}

/// Whether both forms of the key `h` give the same product of `x`, and the same hash of a text from `x` on.
fn agree(h: u128, x: u128, text: &[u8]) -> bool {
    let bits = BitGhash::new(block_bytes(h));
    let products = ClmulGhash::new(block_bytes(h));
    products.product(x) == bits.product(x) && absorb(&products, x, text) == absorb(&bits, x, text)
}

#[test]
fn multiplies_by_bits(rt: HostRuntime) {
    multiplies::<BitGhash>(&rt);
}

#[test]
fn multiplies_by_products_of_halves(rt: HostRuntime) {
    multiplies::<ClmulGhash>(&rt);
}

#[test]
fn hashes_by_each_form(rt: HostRuntime) {
    hashes::<BitGhash>(&rt);
    hashes::<LaneGhash>(&rt);
    hashes::<ClmulGhash>(&rt);
}

#[test]
fn products_of_halves_agree_with_bits(rt: HostRuntime) {
    let text = long_text();
    let mut h = H;
    let mut x = OTHER_H;
    for n in 0..40usize {
        assert!(rt; agree(h, x, &text[..25 * n]));
        h = multiply(h, x);
        x = multiply(x, x);
    }
}
