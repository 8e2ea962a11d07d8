//! The forms of AES, with the vectors of FIPS 197.

use crate::given::{array, bytes, words_of};
use aes_block::{Aes, BlockCipher};
use aes_lanes::LaneAes;
use aes_ni::NiAes;
use aes_table::TableAes;
use std::alloc::Global;
use std::process::Abort;

/// In a row stand a key, a block and the block sealed: FIPS 197, appendices B and C, and a block of zeros under a key
/// of zeros.
const ROWS: &str = "\
2b7e151628aed2a6abf7158809cf4f3c 3243f6a8885a308d313198a2e0370734 3925841d02dc09fbdc118597196a0b32
000102030405060708090a0b0c0d0e0f 00112233445566778899aabbccddeeff 69c4e0d86a7b0430d8cdb78070b4c55a
000102030405060708090a0b0c0d0e0f1011121314151617 00112233445566778899aabbccddeeff dda97ca4864cdfe06eaf70a0ec0d7191
000102030405060708090a0b0c0d0e0f101112131415161718191a1b1c1d1e1f 00112233445566778899aabbccddeeff 8ea2b7ca516745bfeafc49904b496089
00000000000000000000000000000000 00000000000000000000000000000000 66e94bd4ef8a2c3b884cfa59ca342b2e
";

/// A cipher seals a block to this, and unseals it again.
fn goes_both_ways<C: BlockCipher>(
    rt: &impl Abort,
    cipher: &C,
    block: &[u8; 16],
    sealed: &[u8; 16],
) {
    let mut b = *block;
    cipher.seal_block(&mut b);
    assert!(rt; b == *sealed);
    cipher.unseal_block(&mut b);
    assert!(rt; b == *block);
}

/// A row holds by each form.
fn row_holds(rt: &impl Abort, alloc: Global, row: &'static str) {
    let words = words_of(rt, alloc, row);
    let [key, block, sealed] = words.as_slice() else {
        panic!(rt; "{row}")
    };
    let key = bytes(rt, alloc, key);
    let block = array(rt, block);
    let sealed = array(rt, sealed);
    goes_both_ways(rt, &Aes::new(&key).expect(rt, "a key"), &block, &sealed);
    goes_both_ways(
        rt,
        &TableAes::new(&key).expect(rt, "a key"),
        &block,
        &sealed,
    );
    goes_both_ways(rt, &LaneAes::new(&key).expect(rt, "a key"), &block, &sealed);
    goes_both_ways(rt, &NiAes::new(&key).expect(rt, "a key"), &block, &sealed);
}

#[test]
fn seals_and_unseals_the_standards_vectors(rt: HostRuntime) {
    for row in ROWS.lines() {
        row_holds(&rt, rt.alloc(), row);
    }
}
