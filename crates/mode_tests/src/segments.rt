//! Texts in segments: every cut gives what the whole gives, and the whole begins with the vector of SP 800-38A under
//! CBC and CTR, and is what python's `cryptography` gives under the others.

ghost use Rattle.std.specs.Prelude.{◌≡◌};

use aes_block::Aes;
use authenc::Authenc;
use cbc_mode::Cbc;
use ctr_mode::{Ctr, Rfc3686};
use gcm_mode::{Gcm, Rfc4106};
use ghash_field::BitGhash;
use hmac_sha::Mac;
use kc_base::Bytes;
use seg_modes::SegCipher;
use sg_walk::Segs;
use std::alloc::Global;
use std::process::Abort;

/// The key of SP 800-38A, appendix F, of 128 bits.
const KEY: &str = "2b7e151628aed2a6abf7158809cf4f3c";

/// Its four blocks, and one more.
const PLAIN: &str =
    "6bc1bee22e409f96e93d7e117393172aae2d8a571e03ac9c9eb76fac45af8e5130c81c46a35ce411e5fbc1191a0a52eff69f2445df4f9b17ad2b417be66c3710000102030405060708090a0b0c0d0e0f";

const ASSOCIATED: &[u8] = b"associated bytes";

/// Bytes that are written in hexadecimal, `-` for none.
pub(crate) fn bytes(rt: &impl Abort, alloc: Global, text: &str) -> Vec<u8> {
    if text == "-" {
        return Vec::new(alloc);
    }
    hex::decode(alloc, text).expect(rt, "hex")
}

fn aes(rt: &impl Abort, alloc: Global) -> Aes {
    Aes::new(&bytes(rt, alloc, KEY)).expect(rt, "a key of AES")
}

/// A segment.
fn segment(rt: &impl Abort, alloc: Global, text: &[u8]) -> Bytes
    ensures { result ≡ text.now }
{
    Bytes::copy_of(alloc, text).expect(rt, "memory")
}

/// The text in one segment.
pub(crate) fn in_one(rt: &impl Abort, alloc: Global, text: &[u8]) -> Segs {
    assert!(rt; text.len() < 1000);
    let mut parts = Vec::new(alloc);
    parts.push(segment(rt, alloc, text)).expect(rt, "memory");
    Segs::from_parts(parts)
}

/// The text in three segments, which may be empty.
pub(crate) fn in_three(rt: &impl Abort, alloc: Global, text: &[u8], a: usize, b: usize) -> Segs {
    assert!(rt; a <= b && b <= text.len() && text.len() < 1000);
    let mut parts = Vec::new(alloc);
    parts
        .push(segment(rt, alloc, &text[..a]))
        .expect(rt, "memory");
    parts
        .push(segment(rt, alloc, &text[a..b]))
        .expect(rt, "memory");
    parts
        .push(segment(rt, alloc, &text[b..]))
        .expect(rt, "memory");
    Segs::from_parts(parts)
}

/// The text in one piece of memory, cut into three segments, which may be empty.
pub(crate) fn within_one(rt: &impl Abort, alloc: Global, text: &[u8], a: usize, b: usize) -> Segs {
    assert!(rt; a <= b && b <= text.len());
    let sizes = vec![in alloc; a, b - a, text.len() - b].expect(rt, "memory");
    Segs::cut_from(alloc, segment(rt, alloc, text), sizes).expect(rt, "memory")
}

/// The text of segments.
fn joined(rt: &impl Abort, alloc: Global, segs: &Segs) -> Bytes {
    let copy = segs.copy(alloc).expect(rt, "memory");
    copy.join(alloc).expect(rt, "memory")
}

/// A mode under an IV of its own, behind methods of which no clause speaks. A tag has its front in the array, and zeros
/// behind it.
trait Sealing {
    fn seals<R: Abort>(&self, rt: &R, text: &mut [u8]) -> [u8; 32];

    fn seals_segs<R: Abort>(&self, rt: &R, segs: &mut Segs) -> [u8; 32];

    fn opens_segs<R: Abort>(&self, rt: &R, segs: &mut Segs, tag: &[u8; 32]);
}

/// A mode with no tag, and an IV.
#[derive(Drop)]
struct Untagged<'a, M> {
    mode: M,
    iv: &'a [u8],
}

impl<'a, M: SegCipher> Sealing for Untagged<'a, M> {
    fn seals<R: Abort>(&self, rt: &R, text: &mut [u8]) -> [u8; 32] {
        assert!(rt; self.mode.iv_len() == self.iv.len());
        assert!(rt; self.mode.seal(self.iv, text).is_ok());
        [0; 32]
    }

    fn seals_segs<R: Abort>(&self, rt: &R, segs: &mut Segs) -> [u8; 32] {
        assert!(rt; self.mode.iv_len() == self.iv.len());
        assert!(rt; self.mode.seal_segs(self.iv, segs).is_ok());
        [0; 32]
    }

    fn opens_segs<R: Abort>(&self, rt: &R, segs: &mut Segs, _tag: &[u8; 32]) {
        assert!(rt; self.mode.iv_len() == self.iv.len());
        assert!(rt; self.mode.unseal_segs(self.iv, segs).is_ok());
    }
}

/// A tag of 16 bytes, and zeros behind it.
fn padded(tag: &[u8; 16]) -> [u8; 32] {
    let mut padded = [0u8; 32];
    padded[..16].copy_from_slice(tag);
    padded
}

impl Sealing for Gcm<Aes, BitGhash> {
    fn seals<R: Abort>(&self, rt: &R, text: &mut [u8]) -> [u8; 32] {
        let mut tag = [0u8; 16];
        assert!(rt; text.len() < 1000);
        self.seal(&[7; 12], ASSOCIATED, text, &mut tag);
        padded(&tag)
    }

    fn seals_segs<R: Abort>(&self, rt: &R, segs: &mut Segs) -> [u8; 32] {
        let mut tag = [0u8; 16];
        assert!(rt; segs.len() < 1000);
        self.seal_segs(&[7; 12], ASSOCIATED, segs, &mut tag);
        padded(&tag)
    }

    fn opens_segs<R: Abort>(&self, rt: &R, segs: &mut Segs, tag: &[u8; 32]) {
        assert!(rt; segs.len() < 1000);
        assert!(rt;
            self.unseal_segs(&[7; 12], ASSOCIATED, segs, &tag[..16])
                .is_ok()
        );
    }
}

impl Sealing for Rfc4106<Aes, BitGhash> {
    fn seals<R: Abort>(&self, rt: &R, text: &mut [u8]) -> [u8; 32] {
        let mut tag = [0u8; 16];
        assert!(rt; text.len() < 1000);
        assert!(rt; self.seal(&[7; 8], ASSOCIATED, text, &mut tag).is_ok());
        padded(&tag)
    }

    fn seals_segs<R: Abort>(&self, rt: &R, segs: &mut Segs) -> [u8; 32] {
        let mut tag = [0u8; 16];
        assert!(rt; segs.len() < 1000);
        assert!(rt; self.seal_segs(&[7; 8], ASSOCIATED, segs, &mut tag).is_ok());
        padded(&tag)
    }

    fn opens_segs<R: Abort>(&self, rt: &R, segs: &mut Segs, tag: &[u8; 32]) {
        assert!(rt; segs.len() < 1000);
        assert!(rt;
            self.unseal_segs(&[7; 8], ASSOCIATED, segs, &tag[..16])
                .is_ok()
        );
    }
}

impl Sealing for Authenc<Cbc<Aes>> {
    fn seals<R: Abort>(&self, rt: &R, text: &mut [u8]) -> [u8; 32] {
        let mut tag = [0u8; 32];
        assert!(rt; self.seal(&[7; 16], ASSOCIATED, text, &mut tag).is_ok());
        tag
    }

    fn seals_segs<R: Abort>(&self, rt: &R, segs: &mut Segs) -> [u8; 32] {
        let mut tag = [0u8; 32];
        assert!(rt; self.seal_segs(&[7; 16], ASSOCIATED, segs, &mut tag).is_ok());
        tag
    }

    fn opens_segs<R: Abort>(&self, rt: &R, segs: &mut Segs, tag: &[u8; 32]) {
        assert!(rt; self.unseal_segs(&[7; 16], ASSOCIATED, segs, tag).is_ok());
    }
}

/// The text cut into three is sealed to this with this tag, and opens again.
fn cut_gives<S: Sealing>(
    rt: &impl Abort,
    alloc: Global,
    mode: &S,
    plain: &[u8],
    (a, b): (usize, usize),
    (sealed, tag): (&[u8], &[u8; 32]),
) {
    let mut segs = in_three(rt, alloc, plain, a, b);
    let made = mode.seals_segs(rt, &mut segs);
    assert!(rt; made == *tag, "the tag, cut at {a} and {b}");
    assert!(rt;
        joined(rt, alloc, &segs).as_slice() == sealed,
        "sealing, cut at {a} and {b}"
    );
    mode.opens_segs(rt, &mut segs, tag);
    assert!(rt;
        joined(rt, alloc, &segs).as_slice() == plain,
        "opening, cut at {a} and {b}"
    );
}

/// Seals and opens the text, cut into three at every two places, as the whole, which begins with these bytes.
fn every_cut_gives_the_whole<S: Sealing>(rt: &impl Abort, alloc: Global, mode: &S, first: &str) {
    let plain = bytes(rt, alloc, PLAIN);
    let mut sealed = bytes(rt, alloc, PLAIN);
    let tag = mode.seals(rt, &mut sealed);
    assert!(rt; plain.len() == 80 && sealed.starts_with(&bytes(rt, alloc, first)));
    for a in 0..81usize {
        for b in a..81usize {
            cut_gives(rt, alloc, mode, &plain, (a, b), (&sealed, &tag));
        }
    }
}

#[test]
fn cbc_seals_every_cut_as_the_whole(rt: HostRuntime) {
    let mode = Untagged {
        mode: Cbc::new(aes(&rt, rt.alloc())),
        iv: &[0, 1, 2, 3, 4, 5, 6, 7, 8, 9, 10, 11, 12, 13, 14, 15],
    };
    let first =
        "7649abac8119b246cee98e9b12e9197d5086cb9b507219ee95db113a917678b273bed6b8e3c1743b7116e69e222295163ff1caa1681fac09120eca307586e1a7";
    every_cut_gives_the_whole(&rt, rt.alloc(), &mode, first);
}

#[test]
fn ctr_seals_every_cut_as_the_whole(rt: HostRuntime) {
    let mode = Untagged {
        mode: Ctr::new(aes(&rt, rt.alloc())),
        iv: &0xf0f1f2f3f4f5f6f7f8f9fafbfcfdfeffu128.to_be_bytes(),
    };
    let first =
        "874d6191b620e3261bef6864990db6ce9806f66b7970fdff8617187bb9fffdff5ae4df3edbd5d35e5b4f09020db03eab1e031dda2fbe03d1792170a0f3009cee";
    every_cut_gives_the_whole(&rt, rt.alloc(), &mode, first);
}

#[test]
fn gcm_seals_every_cut_as_the_whole(rt: HostRuntime) {
    let mode = Gcm::<Aes, BitGhash>::new(aes(&rt, rt.alloc()));
    let first =
        "6e602ce51aae98ccd9bbd5845c50c949b4623d1ba74ab596349d7bfc009765d7333cbd6f879a890644c43990eda7ab82e351cf8644fca2d1f36b8b3b34bfeb897008fc25cfa08c9c234a2e8d42642da0";
    every_cut_gives_the_whole(&rt, rt.alloc(), &mode, first);
}

#[test]
fn rfc3686_seals_every_cut_as_the_whole(rt: HostRuntime) {
    let mode = Untagged {
        mode: Rfc3686::new(aes(&rt, rt.alloc()), [0xf0, 0xf1, 0xf2, 0xf3]),
        iv: &[7; 8],
    };
    let first =
        "3ba1a6e8efd7c4bb55a0d6aef0145c122af216ded78b1d2b02e09772082be3654bd6ecfebc52feb3e9726938b0818b2537a53dc9975efe6cffe836a5ae7273611f1a218d55954f73240ed973e1bbd574";
    every_cut_gives_the_whole(&rt, rt.alloc(), &mode, first);
}

#[test]
fn rfc4106_seals_every_cut_as_the_whole(rt: HostRuntime) {
    let gcm = Gcm::<Aes, BitGhash>::new(aes(&rt, rt.alloc()));
    let mode = Rfc4106::new(gcm, [1, 2, 3, 4]);
    let first =
        "023e1817c3cbb769f48ff38d2af174a087bd77a3520423b4ccda0464c4a31faa62dea890b0cd3006a633d37fa0e763e5c8c8077a5ba5d4a91f0bebeec7cbab702f07551e23864422be3658f368bb07e1";
    every_cut_gives_the_whole(&rt, rt.alloc(), &mode, first);
}

#[test]
fn authenc_seals_every_cut_as_the_whole(rt: HostRuntime) {
    let mode = Authenc::new(Mac::new(b"key"), Cbc::new(aes(&rt, rt.alloc())));
    let first =
        "c16dc6711e05569495d23a31b5d7a9e2786cc3039f355c8a4ea0907e2f2ba51997fabd227d41e7914de40feac1fee2d19c3e97f0757effe550f46d388005993fea8c718401d98bd44523e40b83e48b90";
    every_cut_gives_the_whole(&rt, rt.alloc(), &mode, first);
}

#[test]
fn segments_are_read_written_and_cut(rt: HostRuntime) {
    let mut segs = in_three(&rt, rt.alloc(), b"abcdefgh", 3, 3);
    assert!(rt; segs.len() == 8);
    let mut piece = [0u8; 4];
    segs.copy_out(2, &mut piece);
    assert!(rt; piece == *b"cdef");
    segs.copy_in(2, b"XYZ");
    segs.cut(6);
    assert!(rt; segs.count() == 3);
    assert!(rt; joined(&rt, rt.alloc(), &segs).as_slice() == b"abXYZf".as_slice());
}

#[test]
fn segments_join_to_the_text(rt: HostRuntime) {
    let text = b"of sixteen bytes";
    let segs = in_three(&rt, rt.alloc(), text, 5, 13);
    assert!(rt; segs.count() == 3);
    assert!(rt; joined(&rt, rt.alloc(), &segs).as_slice() == text.as_slice());
}

#[test]
fn segments_within_one_piece_are_cut(rt: HostRuntime) {
    let mut segs = within_one(&rt, rt.alloc(), b"abcdefgh", 3, 5);
    assert!(rt; segs.len() == 8);
    segs.cut(4);
    assert!(rt; segs.count() == 3 && segs.single().is_none());
    assert!(rt; joined(&rt, rt.alloc(), &segs).as_slice() == b"abcd".as_slice());
}
