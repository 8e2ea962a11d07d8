//! Eight packets under authenc over CBC, at once or one by one.

use aes_lanes::LaneAes;
use authenc::Authenc;
use cbc_mode::Cbc;
use hmac_sha::Mac;
use in_step::{fit_in_step, seal_authenc_in_step};
use std::alloc::{AllocError, Global};

/// How the packets are sealed.
#[derive(Clone, Copy, Debug, PartialEq, Eq)]
pub enum Way {
    Together,
    Singly,
}

/// Sixteen associated bytes, as ESP has them with an extended number beside an IV of eight.
const AAD: [u8; 16] = [3; 16];

/// The IV of each packet.
const IVS: [[u8; 16]; 8] = [
    [0; 16], [1; 16], [2; 16], [3; 16], [4; 16], [5; 16], [6; 16], [7; 16],
];

/// The way of a word.
pub fn way_named(word: &str) -> Option<Way> {
    match word {
        "together" => Some(Way::Together),
        "singly" => Some(Way::Singly),
        _ => None,
    }
}

/// The sizes of eight packets: all the same, or, for `mixed`, eight from 64 to 1,392 bytes.
pub fn sizes_named(word: &str) -> Option<[usize; 8]> {
    if word == "mixed" {
        return Some([64, 1392, 256, 1024, 448, 832, 640, 1200]);
    }
    let size = word.parse::<u16>().ok()? as usize;
    Some([size; 8])
}

/// Seals the packets in step, where they fit.
fn seal_together(
    mac: &Mac,
    mode: &Cbc<LaneAes>,
    texts: &mut [Vec<u8>; 8],
    sizes: &[usize; 8],
) -> [[u8; 32]; 8] {
    let aads: [&[u8]; 8] = [&AAD, &AAD, &AAD, &AAD, &AAD, &AAD, &AAD, &AAD];
    if !fit_in_step(&aads, texts, sizes) {
        return [[0; 32]; 8];
    }
    seal_authenc_in_step(mac, mode, &IVS, &aads, texts, sizes)
}

/// Seals the packets one after another.
fn seal_singly(both: &Authenc<Cbc<LaneAes>>, texts: &mut [Vec<u8>; 8]) -> [[u8; 32]; 8] {
    let mut tags = [[0; 32]; 8];
    for n in 0..8usize {
        let _ = both.seal(&IVS[n], &AAD, texts[n].as_mut_slice(), &mut tags[n]);
    }
    tags
}

fn zeros(alloc: Global, length: usize) -> Result<Vec<u8>, AllocError> {
    vec![in alloc; 0u8; length]
}

/// Seals eight packets of these sizes so many times, each time what was made the time before. The last tags.
pub fn repeat_packets(
    alloc: Global,
    way: Way,
    sizes: &[usize; 8],
    count: u32,
) -> Result<[[u8; 32]; 8], AllocError> {
    // AES takes 16 bytes
    let key = [0; 16];
    let mac = Mac::new(&[9; 32]);
    let mode = Cbc::new(LaneAes::new(&key).unwrap());
    let both = Authenc::new(Mac::new(&[9; 32]), Cbc::new(LaneAes::new(&key).unwrap()));
    let mut texts = [
        zeros(alloc, sizes[0])?,
        zeros(alloc, sizes[1])?,
        zeros(alloc, sizes[2])?,
        zeros(alloc, sizes[3])?,
        zeros(alloc, sizes[4])?,
        zeros(alloc, sizes[5])?,
        zeros(alloc, sizes[6])?,
        zeros(alloc, sizes[7])?,
    ];
    let mut tags = [[0; 32]; 8];
    for _ in 0..count {
        tags = match way {
            Way::Together => seal_together(&mac, &mode, &mut texts, sizes),
            Way::Singly => seal_singly(&both, &mut texts),
        };
    }
    Ok(tags)
}
