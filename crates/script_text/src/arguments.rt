//! What the arguments of a command spell.

ghost use Rattle.std.specs.Prelude.{◌≡◌, ◌/◌, ◌%◌, IsTrue, false, nat_lt, [], ◌∷◌, ◌++◌, length, map, IfOk, IfErr, OnOk, MatchResult, Some, None};
ghost use Rattle.std.specs.Char.{is_ascii_digit};
ghost use Rattle.std.specs.List.{list_all, list_any, slice_split};
ghost use Rattle.std.specs.Str.Parse.{digits_value};
ghost use Rattle.script_text.specs.Arguments.{Reads, hex_of, hexes_of, is_bar, text_of, is_label_byte, is_label, label_of, lone_label_of, is_number, number_of, mask_of, length_of, names_of, backlog_of};
ghost use Rattle.script_text.specs.InSegments.{digits_of, in_segments, spelled_in, are_sizes};
ghost use Rattle.script_text.specs.declared.arguments.ReadError.TheVariants.{Malformed, NoMemory};

use crate::hexadecimal::{are_pairs, write_bytes};
use crate::texts::Texts;
use kc_base::Bytes;
use memchr::memchr;
use sg_walk::Segs;
use std::alloc::{AllocError, AllocFailed, Global};
use thiserror::Error;

/// The most parts that a text has.
const MOST_PARTS: usize = 16;

/// Why no command was read.
#[derive(Clone, Copy, Debug, PartialEq, Eq, Error)]
pub enum ReadError {
    /// The line is no command of the language.
    #[error("malformed")]
    Malformed,
    /// Memory is wanting for what the line spells.
    #[error("out of memory")]
    NoMemory,
}

impl From<AllocError> for ReadError {
    ghost from_gives = { λ _ e. e ≡ NoMemory };

    fn from(_: AllocError) -> Self {
        ReadError::NoMemory
    }
}

impl<T: Drop> From<AllocFailed<T>> for ReadError {
    ghost from_gives = { λ _ e. e ≡ NoMemory };

    fn from(_: AllocFailed<T>) -> Self {
        ReadError::NoMemory
    }
}

// The digits of a part: none of `-`.
fn digits_of(part: &[u8]) -> &[u8]
    ensures { result.now ≡ digits_of part.now }
{
    if part == b"-".as_slice() {
        return &part[..0];
    }
    part
}

/// The bytes that a token spells in hexadecimal digits.
pub fn hex_bytes(alloc: Global, token: &[u8]) -> Result<Bytes, ReadError>
    ensures { Reads result (hex_of token.now) }
{
    let digits = digits_of(token);
    if !are_pairs(digits) {
        return Err(ReadError::Malformed);
    }
    let mut bytes = Vec::new(alloc);
    bytes.resize(digits.len() / 2, 0)?;
    write_bytes(digits, &mut bytes);
    Ok(Bytes::from_vec(bytes))
}

// The digits of a text's parts, one part behind the other, and how many bytes each part spells.
#[derive(Drop)]
struct Parts {
    digits: Vec<u8>,
    sizes: Vec<usize>,
}

// Adds a part's digits, and how many bytes they spell. Malformed where they are odd in number.
fn append_part(parts: &mut Parts, part: &[u8]) -> Result<(), ReadError>
    ensures digits { OnOk result (parts.new.digits.items ≡ parts.old.digits.items ++ digits_of part.now) }
    ensures sizes { OnOk result (parts.new.sizes.items ≡ parts.old.sizes.items ++ length (digits_of part.now) / 2 ∷ []) }
    ensures even { OnOk result (length (digits_of part.now) % 2 ≡ 0) }
    ensures odd { IfErr result (λ error. error ≡ Malformed → length (digits_of part.now) % 2 ≡ 1) }
{
    let digits = digits_of(part);
    if digits.len() % 2 == 1 {
        return Err(ReadError::Malformed);
    }
    parts.digits.extend_from_slice(digits)?;
    parts.sizes.push(digits.len() / 2)?;
    Ok(())
}

// What stands between bars. All parts are decoded together, since that costs less than one by one.
fn parts_of(alloc: Global, token: &[u8]) -> Result<Parts, ReadError>
    ensures { MatchResult result
        (λ read. in_segments (hexes_of (slice_split is_bar token.now)) ≡ spelled_in read.sizes.items (hex_of read.digits.items))
        (λ error. error ≡ Malformed → hexes_of (slice_split is_bar token.now) ≡ None) }
{
    let mut parts = Parts {
        digits: Vec::with_capacity(alloc, token.len())?,
        sizes: Vec::with_capacity(alloc, MOST_PARTS)?,
    };
    let mut left = token;
    while let Some(end) = memchr(b'|', left) {
        append_part(&mut parts, &left[..end])?;
        left = &left[end + 1..];
    }
    append_part(&mut parts, left)?;
    Ok(parts)
}

fn are_filled(sizes: &[usize]) -> bool
    ensures { result ≡ list_all (λ size. nat_lt 0 size) sizes.now }
{
    sizes.iter().all(|size| *size > 0)
}

fn are_sizes(sizes: &[usize]) -> bool
    ensures { result ≡ are_sizes sizes.now }
{
    sizes.len() == 1 || sizes.len() <= MOST_PARTS && are_filled(sizes)
}

fn has_bar(token: &[u8]) -> bool
    ensures { result ≡ list_any is_bar token.now }
{
    memchr(b'|', token).is_some()
}

// The text of a token without bars.
fn one_segment(alloc: Global, token: &[u8]) -> Result<Segs, ReadError>
    requires { list_any is_bar token.now ≡ false }
    ensures { Reads result (text_of token.now) }
{
    let bytes = hex_bytes(alloc, token)?;
    let mut parts = Vec::with_capacity(alloc, 1)?;
    parts.push(bytes)?;
    Ok(Segs::from_parts(parts))
}

/// The text that a token spells in one part or several, each of which is a segment. Several are read into one piece of
/// memory.
pub fn segments(alloc: Global, token: &[u8]) -> Result<Segs, ReadError>
    ensures { Reads result (text_of token.now) }
{
    if !has_bar(token) {
        return one_segment(alloc, token);
    }
    let Parts { digits, sizes } = parts_of(alloc, token)?;
    if !are_sizes(&sizes) {
        return Err(ReadError::Malformed);
    }
    let bytes = hex_bytes(alloc, &digits)?;
    Ok(Segs::cut_from(alloc, bytes, sizes)?)
}

fn is_label_byte(byte: u8) -> bool
    ensures { result ≡ is_label_byte byte }
{
    byte.is_ascii_alphanumeric() || byte == b'-' || byte == b'_'
}

fn are_label_bytes(token: &[u8]) -> bool
    ensures { result ≡ list_all is_label_byte token.now }
{
    token.iter().all(|b| is_label_byte(*b))
}

fn is_label(token: &[u8]) -> bool
    ensures { result ≡ is_label token.now }
{
    !token.is_empty() && token.len() <= 32 && are_label_bytes(token)
}

/// A label.
pub fn label(alloc: Global, token: &[u8]) -> Result<Bytes, ReadError>
    ensures { Reads result (label_of token.now) }
{
    if !is_label(token) {
        return Err(ReadError::Malformed);
    }
    Ok(Bytes::copy_of(alloc, token)?)
}

/// A label, where nothing else stands there.
pub fn lone_label(alloc: Global, args: &[&[u8]]) -> Result<Bytes, ReadError>
    ensures { Reads result (lone_label_of (map (λ token. token.now) args.now)) }
{
    let [token] = args else {
        return Err(ReadError::Malformed);
    };
    label(alloc, token)
}

fn are_digits(token: &[u8]) -> bool
    ensures { result ≡ list_all is_ascii_digit token.now }
{
    token.iter().all(|b| b.is_ascii_digit())
}

fn is_number(token: &[u8]) -> bool
    ensures { result ≡ is_number token.now }
{
    !token.is_empty() && token.len() <= 9 && are_digits(token)
}

// The number that these digits write.
fn digits_value(digits: &[u8]) -> u32
    requires { IsTrue (is_number digits.now) }
    ensures { result ≡ digits_value 10 digits.now }
{
    let mut value = 0u32;
    for digit in digits {
        value = value * 10 + u32::from(*digit - b'0');
    }
    value
}

/// A number.
pub fn number(token: &[u8]) -> Result<u32, ReadError>
    ensures { Reads result (number_of token.now) }
{
    if !is_number(token) {
        return Err(ReadError::Malformed);
    }
    Ok(digits_value(token))
}

/// A number, or nothing.
pub fn optional_number(args: &[&[u8]]) -> Result<Option<u32>, ReadError>
    ensures { Reads result (length_of (map (λ token. token.now) args.now)) }
{
    match args {
        [] => Ok(None),
        [token] => Ok(Some(number(token)?)),
        _ => Err(ReadError::Malformed),
    }
}

// Copies of these texts.
fn copies(alloc: Global, texts: &[&[u8]]) -> Result<Texts, AllocError>
    ensures { IfOk result (λ copies. copies ≡ map (λ text. text.now) texts.now) }
{
    let mut copies = Texts::new(alloc);
    for text in texts {
        copies.push(Bytes::copy_of(alloc, text)?)?;
    }
    Ok(copies)
}

/// 1 to 16 names, where nothing else stands there.
pub fn names(alloc: Global, args: &[&[u8]]) -> Result<Texts, ReadError>
    ensures { Reads result (names_of (map (λ token. token.now) args.now)) }
{
    if args.is_empty() || args.len() > 16 {
        return Err(ReadError::Malformed);
    }
    Ok(copies(alloc, args)?)
}

/// Whether the word `backlog` stands there, where nothing else does.
pub fn backlog(args: &[&[u8]]) -> Result<bool, ReadError>
    ensures { Reads result (backlog_of (map (λ token. token.now) args.now)) }
{
    match args {
        [] => Ok(false),
        [word] if *word == b"backlog".as_slice() => Ok(true),
        _ => Err(ReadError::Malformed),
    }
}

/// The number that four hexadecimal digits spell.
pub fn mask(alloc: Global, token: &[u8]) -> Result<u16, ReadError>
    ensures { Reads result (mask_of token.now) }
{
    if token.len() != 4 {
        return Err(ReadError::Malformed);
    }
    let bytes = hex_bytes(alloc, token)?;
    let [high, low] = bytes.as_slice() else {
        return Err(ReadError::Malformed);
    };
    Ok(u16::from(*high) * 256 + u16::from(*low))
}
