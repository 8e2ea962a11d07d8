//! CTR, CMAC and HMAC in three pieces.

use aes_block::Aes;
use cmac_ccm::{Cmac, Message};
use ctr_mode::CtrText;
use hmac_sha::Mac;
use std::alloc::Global;
use std::process::Abort;

/// SP 800-38A, F.5.1: a key, the first counter block, four blocks, and their ciphertext. SP 800-38B, D.1: their CMAC.
const KEY: &str = "2b7e151628aed2a6abf7158809cf4f3c";

const COUNTER: [u8; 16] = [
    0xf0, 0xf1, 0xf2, 0xf3, 0xf4, 0xf5, 0xf6, 0xf7, 0xf8, 0xf9, 0xfa, 0xfb, 0xfc, 0xfd, 0xfe, 0xff,
];

const PLAIN: &str =
    "6bc1bee22e409f96e93d7e117393172aae2d8a571e03ac9c9eb76fac45af8e5130c81c46a35ce411e5fbc1191a0a52eff69f2445df4f9b17ad2b417be66c3710";

const COUNTED: &str =
    "874d6191b620e3261bef6864990db6ce9806f66b7970fdff8617187bb9fffdff5ae4df3edbd5d35e5b4f09020db03eab1e031dda2fbe03d1792170a0f3009cee";

const CMAC: &str = "51f0bebf7e3b9d92fc49741779363cfe";

/// RFC 4231, 4.7: the message under a key of 131 bytes 0xaa, and its MAC.
const MESSAGE: &[u8] = b"Test Using Larger Than Block-Size Key - Hash Key First";

const HMAC: &str = "60e431591ee0b67f0d8a26aacbf5b77f8e0bc6213728c5140546040f0ee37f54";

fn bytes(rt: &impl Abort, alloc: Global, text: &str) -> Vec<u8> {
    hex::decode(alloc, text).expect(rt, "hex")
}

fn aes(rt: &impl Abort, alloc: Global) -> Aes {
    Aes::new(&bytes(rt, alloc, KEY)).expect(rt, "a key of AES")
}

fn count(aes: &Aes, text: &mut CtrText, piece: &mut [u8]) {
    text.apply(aes, piece);
}

/// A text that goes on at the place that another has come to.
fn behind(text: &CtrText) -> CtrText {
    let (block, used) = text.place();
    CtrText::behind(block, used as u64)
}

fn counts(rt: &impl Abort, alloc: Global, a: usize, b: usize) -> bool {
    let aes = aes(rt, alloc);
    let mut text = bytes(rt, alloc, PLAIN);
    assert!(rt; a <= b && b <= text.len());
    let mut stream = CtrText::new(COUNTER);
    count(&aes, &mut stream, &mut text[..a]);
    let mut stream = behind(&stream);
    count(&aes, &mut stream, &mut text[a..b]);
    count(&aes, &mut stream, &mut text[b..]);
    text == bytes(rt, alloc, COUNTED)
}

fn chain(mac: &Cmac<Aes>, message: &mut Message, piece: &[u8]) {
    message.add(mac.cipher(), piece);
}

fn chained(mac: &Cmac<Aes>, message: &Message) -> [u8; 16] {
    mac.end(message)
}

fn chains(rt: &impl Abort, alloc: Global, a: usize, b: usize) -> bool {
    let mac = Cmac::new(aes(rt, alloc));
    let text = bytes(rt, alloc, PLAIN);
    assert!(rt; a <= b && b <= text.len());
    let mut message = Message::new();
    chain(&mac, &mut message, &text[..a]);
    chain(&mac, &mut message, &text[a..b]);
    chain(&mac, &mut message, &text[b..]);
    chained(&mac, &message).as_slice() == bytes(rt, alloc, CMAC).as_slice()
}

fn hashes(rt: &impl Abort, alloc: Global, a: usize, b: usize) -> bool {
    assert!(rt; a <= b && b <= MESSAGE.len());
    let mut message = Mac::new(&[0xaa; 131]).begin();
    message.add(&MESSAGE[..a]);
    message.add(&MESSAGE[a..b]);
    message.add(&MESSAGE[b..]);
    message.mac().as_slice() == bytes(rt, alloc, HMAC).as_slice()
}

#[test]
fn ctr_and_cmac_in_pieces_are_their_vectors(rt: HostRuntime) {
    for a in 0..65usize {
        for b in a..65 {
            let right = counts(&rt, rt.alloc(), a, b) && chains(&rt, rt.alloc(), a, b);
            assert!(rt; right, "cut at {a} and {b}");
        }
    }
}

#[test]
fn hmac_in_pieces_is_its_vector(rt: HostRuntime) {
    for a in 0..55usize {
        for b in a..55 {
            let right = hashes(&rt, rt.alloc(), a, b);
            assert!(rt; right, "cut at {a} and {b}");
        }
    }
}
