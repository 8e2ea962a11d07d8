//! SHA-256 by lanes: the digests of NIST's example values, and those of `sha2` for each length.

ghost use Rattle.std.specs.Prelude.{◌<◌};

use crate::segments::bytes;
use sha2::Digest;

/// Messages of NIST's example values for SHA-256, and the empty one, with their digests.
const EXAMPLES: [(&str, &str); 4] = [
    (
        "",
        "e3b0c44298fc1c149afbf4c8996fb92427ae41e4649b934ca495991b7852b855",
    ),
    (
        "abc",
        "ba7816bf8f01cfea414140de5dae2223b00361a396177a9cb410ff61f20015ad",
    ),
    (
        "abcdbcdecdefdefgefghfghighijhijkijkljklmklmnlmnomnopnopq",
        "248d6a61d20638b8e5c026930c3e6039a33ce45964ff2167f6ecedd419db06c1",
    ),
    (
        "abcdefghbcdefghicdefghijdefghijkefghijklfghijklmghijklmnhijklmnoijklmnopjklmnopqklmnopqrlmnopqrsmnopqrstnopqrstu",
        "cf5b16a778af8380036ce59e7b0492370b249b11e8f07a51afac45037afee9d1",
    ),
];

/// The digest of a million letters `a`, of the examples too.
const MILLION: &str = "cdc76e5c9914fb9281a1c7e284d73e67f1809a48a497200e046d39ccc7112cd0";

/// The digest of a text that is taken in pieces of that size.
fn digest_in_pieces(text: &[u8], size: usize) -> [u8; 32]
    requires { 0 < size }
{
    let mut hasher = sha_lanes::Sha256::new();
    for piece in text.chunks(size) {
        hasher.update(piece);
    }
    hasher.finalize()
}

#[test]
fn the_examples_have_their_digests(rt: HostRuntime) {
    for (text, digest) in EXAMPLES {
        let digest = bytes(&rt, rt.alloc(), digest);
        for size in [1usize, 7, 64, 200] {
            assert!(rt; digest_in_pieces(text.as_bytes(), size).as_slice() == digest.as_slice());
        }
    }
}

#[test]
fn a_million_letters_have_their_digest(rt: HostRuntime) {
    let letters = [b'a'; 1000];
    let mut hasher = sha_lanes::Sha256::new();
    for _ in 0..1000 {
        hasher.update(letters.as_slice());
    }
    assert!(rt; hasher.finalize().as_slice() == bytes(&rt, rt.alloc(), MILLION).as_slice());
}

#[test]
fn each_length_has_the_digest_of_sha2(rt: HostRuntime) {
    let mut text = [0u8; 1200];
    for (i, byte) in text.iter_mut().enumerate() {
        *byte = (i * i % 251) as u8;
    }
    for length in 0..1200usize {
        let message = &text[..length];
        let digest = sha2::Sha256::digest(message);
        assert!(rt; sha_lanes::Sha256::digest(message) == digest);
        assert!(rt; digest_in_pieces(message, 1 + length % 600) == digest);
    }
}
