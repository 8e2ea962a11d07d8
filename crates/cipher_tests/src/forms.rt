//! Each form of AES 1,000 times over, with values of another library.

use aes_block::{Aes, BlockCipher};
use aes_lanes::LaneAes;
use aes_ni::NiAes;
use aes_table::TableAes;
use std::process::Abort;

// 00 01 02 .. 1f
const KEY: [u8; 32] = [
    0, 1, 2, 3, 4, 5, 6, 7, 8, 9, 10, 11, 12, 13, 14, 15, 16, 17, 18, 19, 20, 21, 22, 23, 24, 25,
    26, 27, 28, 29, 30, 31,
];

/// A block of zeros that is sealed 1,000 times over.
fn chained<C: BlockCipher>(cipher: &C) -> u128 {
    let mut block = [0u8; 16];
    for _ in 0..1000u32 {
        cipher.seal_block(&mut block);
    }
    u128::from_be_bytes(block)
}

/// What it comes to by each form.
fn chain_to(rt: &impl Abort, key: &[u8], sealed: u128) {
    assert!(rt; chained(&Aes::new(key).expect(rt, "a key")) == sealed);
    assert!(rt; chained(&TableAes::new(key).expect(rt, "a key")) == sealed);
    assert!(rt; chained(&LaneAes::new(key).expect(rt, "a key")) == sealed);
    assert!(rt; chained(&NiAes::new(key).expect(rt, "a key")) == sealed);
}

#[test]
fn a_thousand_chained_blocks(rt: HostRuntime) {
    for (length, sealed) in [
        (16usize, 0x1fd09ae87c7258990cc56156460ff206u128),
        (24, 0xb16827c199247bccf3bd908423b13929),
        (32, 0xa5ee6799c190df6c5be35ef1efc5db1b),
    ] {
        assert!(rt; length <= 32);
        chain_to(&rt, &KEY[..length], sealed);
    }
}
