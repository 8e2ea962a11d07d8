//! The lines of a load.

ghost use Rattle.std.specs.Prelude.{◌≡◌, ◌+◌, ◌*◌, ◌%◌, ◌<◌, ◌≤◌, Some, None, false, length, slice_get, IfOk, OnOk};
ghost use Rattle.dialogues.specs.Widths.{width_of};
ghost use Rattle.transforms.specs.Cuts.{in_one};
ghost use Rattle.script_text.specs.Sizes.{IsShortLine};
ghost use Rattle.script_text.specs.declared.commands.Command.TheVariants.{Alloc, Enc, Key};
ghost use Rattle.script_text.specs.declared.commands.Line.TheVariants.{Cmd};
ghost use Rattle.load_mode.specs.Requests.{asked_for, drawn_request};
ghost use Rattle.load_mode.specs.Lines.{opening, request_line};

use generator::Generator;
use kc_base::Bytes;
use script_text::{Command, Line};
use sg_walk::Segs;
use std::alloc::{AllocError, Global};

/// The label of the transform that has the requests of even numbers.
const A: &[u8] = b"a";

/// The label of the other.
const G: &[u8] = b"g";

/// The key of both ciphers.
const CIPHER_KEY: [u8; 16] = [0; 16];

/// The header, HMAC's key and the cipher's key.
const KEY_OF_A: [u8; 44] = [
    8, 0, 1, 0, 0, 0, 0, 16, 11, 11, 11, 11, 11, 11, 11, 11, 11, 11, 11, 11, 11, 11, 11, 11, 11,
    11, 11, 11, 0, 0, 0, 0, 0, 0, 0, 0, 0, 0, 0, 0, 0, 0, 0, 0,
];

// `alloc T NAME`
fn alloc_line(alloc: Global, label: &[u8], name: &[u8]) -> Result<Line, AllocError>
    ensures { IfOk result (λ line. line ≡ Cmd (Alloc label.now name.now None)) }
{
    Ok(Line::Cmd(Command::Alloc {
        label: Bytes::copy_of(alloc, label)?,
        name: Bytes::copy_of(alloc, name)?,
        length: None,
    }))
}

// `key T HEX`
fn key_line(alloc: Global, label: &[u8], key: &[u8]) -> Result<Line, AllocError>
    ensures { IfOk result (λ line. line ≡ Cmd (Key label.now key.now)) }
{
    Ok(Line::Cmd(Command::Key {
        label: Bytes::copy_of(alloc, label)?,
        key: Bytes::copy_of(alloc, key)?,
    }))
}

/// The line of this number, 0 to 3, among those that make both transforms and set their keys. Want of memory is the
/// only error.
pub fn opening_line(alloc: Global, number: u32) -> Result<Line, AllocError>
    requires { number < length opening }
    ensures line { IfOk result (λ line. slice_get opening number ≡ Some line) }
    ensures short { IfOk result IsShortLine }
    ensures narrow { IfOk result (λ line. width_of line ≡ 1) }
{
    match number {
        0 => alloc_line(alloc, A, b"pcrypt(authenc(hmac(sha256),cbc(aes)))"),
        1 => key_line(alloc, A, &KEY_OF_A),
        2 => alloc_line(alloc, G, b"pcrypt(gcm(aes))"),
        _ => key_line(alloc, G, &CIPHER_KEY),
    }
}

// How many bytes of text a request has, by its first draw.
fn text_length(draw: u64) -> usize
    ensures length { result ≡ 16 * (1 + draw % 16) }
    ensures most { result ≤ 256 }
{
    16 * (1 + (draw % 16) as usize)
}

// A text in one segment.
fn one_segment(alloc: Global, text: Vec<u8>) -> Result<Segs, AllocError>
    ensures { IfOk result (λ segs. segs ≡ in_one text.items) }
{
    let mut parts = Vec::with_capacity(alloc, 1)?;
    parts.push(Bytes::from_vec(text))?;
    Ok(Segs::from_parts(parts))
}

// `enc T IV AAD TEXT`
fn enc_line(
    alloc: Global,
    label: &[u8],
    iv: &[u8],
    associated: &[u8],
    text: Vec<u8>,
) -> Result<Line, AllocError>
    ensures { IfOk result (λ line. line ≡ Cmd (Enc label.now iv.now associated.now (in_one text.items) false)) }
{
    Ok(Line::Cmd(Command::Enc {
        label: Bytes::copy_of(alloc, label)?,
        iv: Bytes::copy_of(alloc, iv)?,
        aad: Bytes::copy_of(alloc, associated)?,
        text: one_segment(alloc, text)?,
        backlog: false,
    }))
}

/// Draws the request of this number, and gives its line: `enc` with 8 associated bytes and 16 to 256 bytes of text, a
/// multiple of 16. One of even number is of `a` and has an IV of 16 bytes, another is of `g` and has the first 12 of
/// them. Want of memory is the only error; what was drawn isn't told then.
pub fn draw_request(
    alloc: Global,
    generator: &mut Generator,
    number: u32,
) -> Result<Line, AllocError>
    ensures line { IfOk result (λ line. line ≡ request_line (asked_for number (drawn_request generator.old))) }
    ensures short { IfOk result IsShortLine }
    ensures drawn { OnOk result (generator.new ≡ (drawn_request generator.old).after) }
{
    let length = text_length(generator.next_u64());
    let mut iv = [0u8; 16];
    generator.fill(&mut iv);
    let mut associated = [0u8; 8];
    generator.fill(&mut associated);
    let mut text = vec![in alloc; 0u8; length]?;
    generator.fill(&mut text);
    if number % 2 == 0 {
        enc_line(alloc, A, &iv, &associated, text)
    } else {
        enc_line(alloc, G, &iv[..12], &associated, text)
    }
}
