//! What is timed, under each form of its cipher.

ghost use Rattle.std.specs.Prelude.{◌≡◌, ◌^◌, ◌<◌, ◌≤◌, length};

use aes_block::{Aes, BlockCipher, Skcipher};
use aes_lanes::LaneAes;
use aes_table::TableAes;
use cbc_mode::Cbc;
use ctr_mode::Ctr;
use gcm_mode::Gcm;
use ghash_field::{BitGhash, GhashKey, LaneGhash};
use hmac_sha::Mac;
use xts_mode::Xts;

/// What is timed. CTR opens as it seals.
#[derive(Clone, Copy, Debug, PartialEq, Eq)]
pub enum Work {
    Ctr,
    CbcSeal,
    CbcOpen,
    XtsSeal,
    XtsOpen,
    GcmSeal,
    GcmOpen,
    Hmac,
}

/// The form of AES, and of GHASH beside it: bit by bit, or by shuffled rows.
#[derive(Clone, Copy, Debug, PartialEq, Eq)]
pub enum Form {
    Generic,
    Table,
    Lanes,
}

/// The work of a word.
pub fn work_named(word: &str) -> Option<Work> {
    match word {
        "ctr" => Some(Work::Ctr),
        "cbc" => Some(Work::CbcSeal),
        "cbc-open" => Some(Work::CbcOpen),
        "xts" => Some(Work::XtsSeal),
        "xts-open" => Some(Work::XtsOpen),
        "gcm" => Some(Work::GcmSeal),
        "gcm-open" => Some(Work::GcmOpen),
        "hmac" => Some(Work::Hmac),
        _ => None,
    }
}

/// The form of a word.
pub fn form_named(word: &str) -> Option<Form> {
    match word {
        "generic" => Some(Form::Generic),
        "table" => Some(Form::Table),
        "lanes" => Some(Form::Lanes),
        _ => None,
    }
}

/// Seals the text in its place, again and again. A mode that doesn't take the text's length leaves it.
fn seal_by<S: Skcipher>(mode: &S, iv: &[u8], count: u32, text: &mut [u8])
    requires { length iv.now ≡ S.iv_size mode.now }
{
    for _ in 0..count {
        let _ = mode.seal(iv, text);
    }
}

/// Opens the text in its place, again and again.
fn open_by<S: Skcipher>(mode: &S, iv: &[u8], count: u32, text: &mut [u8])
    requires { length iv.now ≡ S.iv_size mode.now }
{
    for _ in 0..count {
        let _ = mode.unseal(iv, text);
    }
}

/// Each tag is associated with the next text, so that none can be left out. The last tag.
fn seal_by_gcm<C: BlockCipher + Drop, H: GhashKey + Drop>(
    mode: &Gcm<C, H>,
    count: u32,
    text: &mut [u8],
) -> [u8; 16]
    requires { length text.old < 2 ^ 32 }
{
    let mut tag = [0; 16];
    for _ in 0..count {
        let before = tag;
        mode.seal(&[0; 12], &before, text, &mut tag);
    }
    tag
}

/// Seals the text once, and opens a copy of it again and again.
fn open_by_gcm<C: BlockCipher + Drop, H: GhashKey + Drop>(
    mode: &Gcm<C, H>,
    count: u32,
    text: &mut [u8],
    copy: &mut [u8],
)
    requires short { length text.old < 2 ^ 32 }
    requires same { length copy.old ≡ length text.old }
{
    let mut tag = [0; 16];
    mode.seal(&[0; 12], &[], text, &mut tag);
    for _ in 0..count {
        copy.copy_from_slice(text);
        let _ = mode.unseal(&[0; 12], &[], copy, &tag);
    }
}

/// Each MAC is that of the one before and the text.
fn last_mac(count: u32, text: &[u8]) -> [u8; 32] {
    let mac = Mac::new(&[0; 32]);
    let mut made = [0; 32];
    for _ in 0..count {
        made = mac.mac(&made, text);
    }
    made
}

/// Writes the bytes over the front of the text.
fn write_front(text: &mut [u8], made: &[u8])
    requires { length made.now ≤ length text.old }
{
    text[..made.len()].copy_from_slice(made);
}

/// Does the work under a cipher; `tweak` is the one of the tweaks, which XTS alone takes. Of sealing by GCM and of HMAC
/// the last tag or MAC is written over the text's front.
fn repeat_under<C: BlockCipher + Drop, H: GhashKey + Drop>(
    work: Work,
    cipher: C,
    tweak: C,
    count: u32,
    text: &mut [u8],
    copy: &mut [u8],
)
    requires long { 32 ≤ length text.old }
    requires short { length text.old < 2 ^ 32 }
    requires same { length copy.old ≡ length text.old }
{
    match work {
        Work::Ctr => seal_by(&Ctr::new(cipher), &[0; 16], count, text),
        Work::CbcSeal => seal_by(&Cbc::new(cipher), &[0; 16], count, text),
        Work::CbcOpen => open_by(&Cbc::new(cipher), &[0; 16], count, text),
        Work::XtsSeal => seal_by(&Xts::new(cipher, tweak), &[0; 16], count, text),
        Work::XtsOpen => open_by(&Xts::new(cipher, tweak), &[0; 16], count, text),
        Work::GcmSeal => {
            let tag = seal_by_gcm(&Gcm::<C, H>::new(cipher), count, text);
            write_front(text, &tag);
        }
        Work::GcmOpen => open_by_gcm(&Gcm::<C, H>::new(cipher), count, text, copy),
        Work::Hmac => {
            let made = last_mac(count, text);
            write_front(text, &made);
        }
    }
}

/// Does the work `count` times over the text, under a key of zeros, and tweaks under a key of ones. `copy` is room that
/// opening takes.
pub fn repeat(work: Work, form: Form, count: u32, text: &mut [u8], copy: &mut [u8])
    requires long { 32 ≤ length text.old }
    requires short { length text.old < 2 ^ 32 }
    requires same { length copy.old ≡ length text.old }
{
    // AES takes 16 bytes
    let key = [0; 16];
    let tweak_key = [1; 16];
    match form {
        Form::Generic => {
            let cipher = Aes::new(&key).unwrap();
            let tweak = Aes::new(&tweak_key).unwrap();
            repeat_under::<Aes, BitGhash>(work, cipher, tweak, count, text, copy);
        }
        Form::Table => {
            let cipher = TableAes::new(&key).unwrap();
            let tweak = TableAes::new(&tweak_key).unwrap();
            repeat_under::<TableAes, LaneGhash>(work, cipher, tweak, count, text, copy);
        }
        Form::Lanes => {
            let cipher = LaneAes::new(&key).unwrap();
            let tweak = LaneAes::new(&tweak_key).unwrap();
            repeat_under::<LaneAes, LaneGhash>(work, cipher, tweak, count, text, copy);
        }
    }
}
