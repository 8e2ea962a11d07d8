//! Values that the tests have in hexadecimal.

ghost use Rattle.std.specs.Prelude.{◌<◌, vec_len};

use aes_block::Aes;
use std::alloc::Global;
use std::process::Abort;

/// Bytes, `-` for none.
pub(crate) fn bytes(rt: &impl Abort, alloc: Global, text: &str) -> Vec<u8>
    ensures { vec_len result < 1000 }
{
    if text == "-" {
        return Vec::new(alloc);
    }
    let bytes = hex::decode(alloc, text).expect(rt, "hex");
    assert!(rt; bytes.len() < 1000);
    bytes
}

/// So many bytes.
pub(crate) fn array<const N: usize>(rt: &impl Abort, text: &str) -> [u8; N] {
    let mut made = [0u8; N];
    hex::decode_to_slice(text, &mut made).expect(rt, "hex of that length");
    made
}

/// AES under a key.
pub(crate) fn aes(rt: &impl Abort, alloc: Global, key: &str) -> Aes {
    Aes::new(&bytes(rt, alloc, key)).expect(rt, "a key of AES")
}

/// The words of a row.
pub(crate) fn words_of(rt: &impl Abort, alloc: Global, row: &'static str) -> Vec<&'static str> {
    let mut words = Vec::new(alloc);
    for word in row.split(' ') {
        words.push(word).expect(rt, "memory");
    }
    words
}
