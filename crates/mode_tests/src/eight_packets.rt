//! Eight packets sealed at once: each tag is what python's `cryptography` and `hmac` give for that packet by itself. A
//! tag is that of the ciphertext, so it is right only where the ciphertext is.

ghost use Rattle.std.specs.Prelude.{◌≡◌, true};
ghost use Rattle.transforms.specs.Plans.{fits_tag};

use crate::segments::{bytes, in_one};
use crate::vectors::{plan_named, size_for};
use aes_block::{Aes, BlockCipher};
use aes_lanes::LaneAes;
use cbc_mode::Cbc;
use hmac_sha::Mac;
use in_step::{fit_in_step, seal_authenc_in_step};
use jobs_in_step::run_together;
use kc_base::Bytes;
use std::alloc::Global;
use std::process::Abort;
use std::sync::Arc;
use templates::Plan;
use transforms::{Ask, Dir, Finished, Job, Keyed, Request, prepare};

/// The key of AES: the bytes from 0 on.
const KEY: &str = "000102030405060708090a0b0c0d0e0f";

/// The key of HMAC: the bytes from 32 on.
const MAC_KEY: &str = "202122232425262728292a2b2c2d2e2f303132333435363738393a3b3c3d3e3f";

/// Both as a blob of authenc.
const BLOB: &str =
    "0800010000000010202122232425262728292a2b2c2d2e2f303132333435363738393a3b3c3d3e3f000102030405060708090a0b0c0d0e0f";

/// The lengths of eight texts, and the tags of the packets. Byte `j` of text `n` is j * j + 31 * n modulo 251, byte `k`
/// of its IV is 16 * n + k, and byte `j` of its 9 * n associated bytes is 7 * j + n, both modulo 256.
const CASES: [([usize; 8], [&str; 8]); 4] = [
    (
        [64, 1392, 256, 1024, 448, 832, 640, 1200],
        [
            "c5ecc9393f6abf92db14c38db7917bb52ae33822d6a3fb32b0306bfe5db1e9ae",
            "ed1cfd4c453a2656a48e90801ad873e72d2a9755ad46d7a08cc1af5bd2b4803b",
            "178746fa4e6d9c4828c33110ec55357f2ffbd3b93fd9c2e7bacec7fdab701eb5",
            "cd5397f086a3079f00afe85051df3442f2d4e54ad0af57b4f5bbb7b3e9a0454a",
            "3f50dfb44980f5e2e2d788ff9f361a84af6767c84909fcc426df79e801a89e3e",
            "e665b0e4158487763fe5b729c0ed06050b545c01e644e4f41cefd08cb00dffa9",
            "67f0f80dff4e31cce5f30a1dfc0090db266658e30d950d9aaebcedeabe039bb4",
            "826f29f961a25d16f9bd15ce4d051d92b7ce8e2a18a30cc6567d12bacd7ee272",
        ],
    ),
    (
        [1392, 1392, 1392, 1392, 1392, 1392, 1392, 1392],
        [
            "6635bb6fba725c46fc6c5b6337976aaa4f48414a50f8a4d808a3f0db290da425",
            "ed1cfd4c453a2656a48e90801ad873e72d2a9755ad46d7a08cc1af5bd2b4803b",
            "c33a00be4b5f6d0c73b64d9cc1b2861f35fd2dea6f9ba0e3d2501ecfc384fb17",
            "200fe799e56f84b687efcd443fd88a1a704448765ce26fd1632dc9e97a690337",
            "08d93f07a9f091ca2f1a1fdfd4ec7cad09f94d19b7ba62fbdc3b7c9c04e27dcc",
            "f9b62c1505d9a604e19dea2b00e831c8b625050ed8634357134c395865c23cf7",
            "3d28288567f27bd159cce996d29cc26c6b889f99747a4179ad6d1b727b2ef4c2",
            "d6e079f907fbfc6bd20cf4e28b8e49c44e3714e7d06e3566302c9f31c192184e",
        ],
    ),
    (
        [0, 16, 32, 48, 64, 80, 96, 112],
        [
            "f49240b78aa90e53f46106c3481e377e19696e777328b1cd6ec6061a0bd868a9",
            "6d9a59bb1571a636f3f12c250fd4501480c4db6245eb8c129fa1274015908e07",
            "80657f174f37e1f27c403f9d65bf5d62eccaa4aba89241626b88a925473ea97b",
            "2afcb76a2f4f7002c3a691690c4e01d15d6ae422284b98d0bcb7a5f7f70373f1",
            "123b6c217d0bf59ddc2aab20c53c5266749332343daa56c6122413fa2d8bd365",
            "ce0d62ada2a6755e3c962bb387b03bc017fe4d6b8e90748da356703d4cd9b8e5",
            "4f2e5b53b25651687312cc3ad5aa14a5f05ef815c509eb669bc997db9e8c2666",
            "478e2226fddc7dae2f8cdea170b88fc650937e63cdf7f551b86af76f1ae1dafd",
        ],
    ),
    (
        [16, 0, 0, 528, 0, 0, 0, 64],
        [
            "c73c1172bcd9eaf3aa2edbfb2c556bade4f7d0c35e68874a91750f7b3d470369",
            "118aa777262f8e8b80641e965ac8f77591d01221714a763d5c417a4eb0bdb95a",
            "a128ee9abf591d00f5b9ea821cf8654a101935b567bcba64adbd8232c8e37f34",
            "c3109d1f94989f48211894efdfbb82dbde5ba40c98df9df06dd6a9f43ec33e40",
            "6e5217ac9413c004154e9d605c053716e0c1000529772bc3acbf6ddde2d27843",
            "2cd4d0391d10f02f5fcc559b14fe2e069e9e24d7c04f8d82fa74f6732f4923b0",
            "1a4cc81c8371fedc69656b8fa0a1e951b447dcc684c1d4aa622d3218b8c925f9",
            "c1afe896eb50b629f2f7381d3a76ebd104b4d332eb1c78bb3343da8671f7df62",
        ],
    ),
];

/// So many bytes, each of which is `step` times its place and `first`, modulo 256.
fn counted(rt: &impl Abort, alloc: Global, length: usize, step: u8, first: u8) -> Vec<u8> {
    let mut made = Vec::new(alloc);
    for j in 0..length {
        made.push(((j % 256) as u8).wrapping_mul(step).wrapping_add(first))
            .expect(rt, "memory");
    }
    made
}

/// Text `n`.
fn text_of(rt: &impl Abort, alloc: Global, length: usize, n: usize) -> Vec<u8> {
    assert!(rt; length < 2000 && n < 8);
    let mut text = Vec::new(alloc);
    for j in 0..length {
        text.push(((j * j + 31 * n) % 251) as u8)
            .expect(rt, "memory");
    }
    text
}

/// The associated bytes of packet `n`.
fn aad_of(rt: &impl Abort, alloc: Global, n: u8) -> Vec<u8> {
    counted(rt, alloc, 9 * n as usize, 7, n)
}

/// The IVs of the packets.
fn ivs() -> [[u8; 16]; 8] {
    let mut ivs = [[0u8; 16]; 8];
    for (n, iv) in ivs.iter_mut().enumerate() {
        for (k, byte) in iv.iter_mut().enumerate() {
            *byte = (n as u8).wrapping_mul(16).wrapping_add(k as u8);
        }
    }
    ivs
}

/// Seals eight texts of these lengths, and compares their tags.
fn holds<C: BlockCipher + Drop>(
    rt: &impl Abort,
    alloc: Global,
    mode: &Cbc<C>,
    lengths: &[usize; 8],
    tags: &[&str; 8],
) {
    let mac = Mac::new(&bytes(rt, alloc, MAC_KEY));
    let mut texts = [
        text_of(rt, alloc, lengths[0], 0),
        text_of(rt, alloc, lengths[1], 1),
        text_of(rt, alloc, lengths[2], 2),
        text_of(rt, alloc, lengths[3], 3),
        text_of(rt, alloc, lengths[4], 4),
        text_of(rt, alloc, lengths[5], 5),
        text_of(rt, alloc, lengths[6], 6),
        text_of(rt, alloc, lengths[7], 7),
    ];
    let aads = [
        aad_of(rt, alloc, 0),
        aad_of(rt, alloc, 1),
        aad_of(rt, alloc, 2),
        aad_of(rt, alloc, 3),
        aad_of(rt, alloc, 4),
        aad_of(rt, alloc, 5),
        aad_of(rt, alloc, 6),
        aad_of(rt, alloc, 7),
    ];
    let aads = [
        aads[0].as_slice(),
        aads[1].as_slice(),
        aads[2].as_slice(),
        aads[3].as_slice(),
        aads[4].as_slice(),
        aads[5].as_slice(),
        aads[6].as_slice(),
        aads[7].as_slice(),
    ];
    assert!(rt; fit_in_step(&aads, &texts, lengths));
    let made = seal_authenc_in_step(&mac, mode, &ivs(), &aads, &mut texts, lengths);
    for (tag, want) in made.iter().zip(tags) {
        assert!(rt; tag.as_slice() == bytes(rt, alloc, want).as_slice());
    }
}

#[test]
fn packets_in_step_have_their_tags(rt: HostRuntime) {
    let alloc = rt.alloc();
    let key = bytes(&rt, alloc, KEY);
    let generic = Cbc::new(Aes::new(&key).expect(&rt, "a key of AES"));
    let lanes = Cbc::new(LaneAes::new(&key).expect(&rt, "a key of AES"));
    for (lengths, tags) in &CASES {
        holds(&rt, alloc, &generic, lengths, tags);
        holds(&rt, alloc, &lanes, lengths, tags);
    }
}

/// A job that seals packet `n`.
fn job_of(rt: &impl Abort, alloc: Global, plan: &Plan, authsize: u32, length: usize, n: u8) -> Job
    requires { fits_tag plan.now authsize ≡ true }
{
    let keyed = Keyed::set(alloc, plan, &bytes(rt, alloc, BLOB)).expect(rt, "a key");
    let request = Request {
        dir: Dir::Enc,
        iv: Bytes::from_vec(counted(rt, alloc, 16, 1, n.wrapping_mul(16))),
        aad: Bytes::from_vec(aad_of(rt, alloc, n)),
        text: in_one(rt, alloc, &text_of(rt, alloc, length, n as usize)),
    };
    assert!(rt; request.aad.len() < 1000 && request.text.len() < 1000);
    let ask = Ask {
        keyed: Arc::new(alloc, keyed).expect(rt, "memory"),
        authsize,
        request,
        client: 0,
        line: 0,
    };
    let ask = Arc::new(alloc, ask).expect(rt, "memory");
    prepare(alloc, ask).expect(rt, "a job")
}

/// Whether the answer ends with the tag.
fn ends_with(rt: &impl Abort, alloc: Global, answer: &Option<Finished>, tag: &str) -> bool {
    match answer {
        Some(Finished::Bytes(made)) => made.as_slice().ends_with(bytes(rt, alloc, tag).as_slice()),
        _ => false,
    }
}

#[test]
fn jobs_together_have_their_tags(rt: HostRuntime) {
    let alloc = rt.alloc();
    let plan = plan_named(&rt, alloc, "authenc(hmac(sha256-generic),cbc(aes-lanes))");
    let size = size_for(&plan, 32).expect(&rt, "a tag size");
    let keyed = Keyed::set(alloc, &plan, &bytes(&rt, alloc, BLOB)).expect(&rt, "a key");
    let (lengths, tags) = &CASES[2];
    let jobs = [
        Some(job_of(&rt, alloc, &plan, size, lengths[0], 0)),
        Some(job_of(&rt, alloc, &plan, size, lengths[1], 1)),
        Some(job_of(&rt, alloc, &plan, size, lengths[2], 2)),
        Some(job_of(&rt, alloc, &plan, size, lengths[3], 3)),
        None,
        Some(job_of(&rt, alloc, &plan, size, lengths[5], 5)),
        Some(job_of(&rt, alloc, &plan, size, lengths[6], 6)),
        Some(job_of(&rt, alloc, &plan, size, lengths[7], 7)),
    ];
    let answers = run_together(alloc, &keyed, jobs);
    for (n, answer) in answers.iter().enumerate() {
        assert!(rt; n == 4 || n < 8 && ends_with(&rt, alloc, answer, tags[n]));
    }
    assert!(rt; answers[4].is_none());
}
