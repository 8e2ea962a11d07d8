//! GCM's test case 4 in three pieces, sealed and opened.

use aes_block::Aes;
use gcm_mode::{Gcm, GcmOpening, GcmSealing, Refusal};
use ghash_field::BitGhash;
use std::alloc::Global;
use std::process::Abort;

type AesGcm = Gcm<Aes, BitGhash>;

/// The key, the IV, the associated bytes, the text, its ciphertext and its tag.
const KEY: &str = "feffe9928665731c6d6a8f9467308308";

const IV: [u8; 12] = [
    0xca, 0xfe, 0xba, 0xbe, 0xfa, 0xce, 0xdb, 0xad, 0xde, 0xca, 0xf8, 0x88,
];

const ASSOCIATED: &str = "feedfacedeadbeeffeedfacedeadbeefabaddad2";

const TEXT: &str =
    "d9313225f88406e5a55909c5aff5269a86a7a9531534f7da2e4c303d8a318a721c3c0c95956809532fcf0e2449a6b525b16aedf5aa0de657ba637b39";

const SEALED: &str =
    "42831ec2217774244b7221b784d0d49ce3aa212f2c02a4e035c17e2329aca12e21d514b25466931c7d8f6a5aac84aa051ba30b396a0aac973d58e091";

const TAG: &str = "5bc94fbc3221a5db94fae95ae7121a47";

fn bytes(rt: &impl Abort, alloc: Global, text: &str) -> Vec<u8> {
    hex::decode(alloc, text).expect(rt, "hex")
}

fn gcm(rt: &impl Abort, alloc: Global) -> AesGcm {
    Gcm::new(Aes::new(&bytes(rt, alloc, KEY)).expect(rt, "a key of AES"))
}

fn add(gcm: &AesGcm, stream: &mut GcmSealing, piece: &[u8]) {
    let _ = stream.add(gcm, piece);
}

fn seal(gcm: &AesGcm, stream: &mut GcmSealing, piece: &mut [u8]) {
    let _ = stream.update(gcm, piece);
}

fn second(stream: &GcmSealing) -> GcmSealing {
    stream.copy()
}

fn tag_of(gcm: &AesGcm, stream: &mut GcmSealing) -> Option<[u8; 16]> {
    stream.tag(gcm).ok()
}

fn add_to_opening(gcm: &AesGcm, stream: &mut GcmOpening, piece: &[u8]) {
    let _ = stream.add(gcm, piece);
}

fn open(gcm: &AesGcm, stream: &mut GcmOpening, piece: &mut [u8]) {
    let _ = stream.update(gcm, piece);
}

fn verify(gcm: &AesGcm, stream: &mut GcmOpening, tag: &[u8]) -> Option<Refusal> {
    stream.verify(gcm, tag).err()
}

/// Where a text of 60 bytes is cut.
#[derive(Clone, Copy, Debug)]
struct Cuts {
    first: usize,
    second: usize,
}

/// The associated bytes in two pieces.
fn begun(rt: &impl Abort, alloc: Global, gcm: &AesGcm, cut: usize) -> GcmSealing {
    let associated = bytes(rt, alloc, ASSOCIATED);
    assert!(rt; cut <= associated.len());
    let mut stream = GcmSealing::begin(&IV);
    add(gcm, &mut stream, &associated[..cut]);
    add(gcm, &mut stream, &associated[cut..]);
    stream
}

/// The text, sealed in three pieces, of which a second stream seals the last two, is its ciphertext and its tag.
fn seals(rt: &impl Abort, alloc: Global, cuts: Cuts) -> bool {
    let Cuts {
        first: a,
        second: b,
    } = cuts;
    let gcm = gcm(rt, alloc);
    let mut text = bytes(rt, alloc, TEXT);
    assert!(rt; a <= b && b <= text.len());
    let mut stream = begun(rt, alloc, &gcm, a % 21);
    seal(&gcm, &mut stream, &mut text[..a]);
    let mut stream = second(&stream);
    seal(&gcm, &mut stream, &mut text[a..b]);
    seal(&gcm, &mut stream, &mut text[b..]);
    let Some(tag) = tag_of(&gcm, &mut stream) else {
        return false;
    };
    text == bytes(rt, alloc, SEALED)
        && tag.as_slice() == bytes(rt, alloc, TAG).as_slice()
        && tag_of(&gcm, &mut stream).is_none()
}

/// The ciphertext, opened in three pieces, is its text. A tag with a bit turned over is wrong, and after its verdict a
/// stream has ended.
fn opens(rt: &impl Abort, alloc: Global, cuts: Cuts, wrong: u8) -> bool {
    let Cuts {
        first: a,
        second: b,
    } = cuts;
    let gcm = gcm(rt, alloc);
    let mut text = bytes(rt, alloc, SEALED);
    let mut tag = bytes(rt, alloc, TAG);
    assert!(rt; a <= b && b <= text.len() && tag.len() == 16);
    tag[15] ^= wrong;
    let mut stream = GcmOpening::begin(&IV);
    add_to_opening(&gcm, &mut stream, &bytes(rt, alloc, ASSOCIATED));
    open(&gcm, &mut stream, &mut text[..a]);
    open(&gcm, &mut stream, &mut text[a..b]);
    open(&gcm, &mut stream, &mut text[b..]);
    let verdict = verify(&gcm, &mut stream, &tag);
    let want = if wrong == 0 {
        None
    } else {
        Some(Refusal::WrongTag)
    };
    text == bytes(rt, alloc, TEXT)
        && verdict == want
        && verify(&gcm, &mut stream, &tag) == Some(Refusal::Ended)
}

#[test]
fn a_text_sealed_in_pieces_is_the_test_case(rt: HostRuntime) {
    for first in 0..61usize {
        for second in first..61 {
            let cuts = Cuts { first, second };
            let right = seals(&rt, rt.alloc(), cuts);
            assert!(rt; right, "{cuts:?}");
        }
    }
}

#[test]
fn a_text_opened_in_pieces_has_one_tag(rt: HostRuntime) {
    for first in 0..61usize {
        for wrong in [0u8, 1, 128] {
            let cuts = Cuts { first, second: 60 };
            let right = opens(&rt, rt.alloc(), cuts, wrong);
            assert!(rt; right, "{cuts:?}, turned over: {wrong}");
        }
    }
}
