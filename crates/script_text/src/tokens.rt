//! The tokens of a line.

ghost use Rattle.std.specs.Prelude.{◌≡◌, ◌+◌, ◌++◌, ◌<◌, map, drop, length, IfOk};
ghost use Rattle.std.specs.List.{list_all, position_or_len};
ghost use Rattle.script_text.specs.Tokens.{is_blank, is_visible, tokens_of, is_comment};

use memchr::memchr2;
use std::alloc::{AllocError, Global};

/// The most tokens that most lines have.
const FEW: usize = 8;

pub fn is_blank(b: u8) -> bool
    ensures { result ≡ is_blank b }
{
    b == b' ' || b == b'\t'
}

// Where the first blank is, or the length where there is none.
fn end_of_token(line: &[u8]) -> usize
    ensures { result ≡ position_or_len is_blank line.now }
{
    memchr2(b' ', b'\t', line).unwrap_or(line.len())
}

// What stands behind that place.
fn behind(line: &[u8], place: usize) -> &[u8]
    ensures { result.now ≡ drop (place + 1) line.now }
{
    if place >= line.len() {
        return &line[line.len()..];
    }
    &line[place + 1..]
}

// Adds what stands there before the first blank, where that isn't nothing, and says what stands behind it.
fn take_token<'a>(tokens: &mut Vec<&'a [u8]>, line: &'a [u8]) -> Result<&'a [u8], AllocError>
    ensures tokens { IfOk result (λ rest. map (λ token. token.now) tokens.old.items ++ tokens_of line.now
        ≡ map (λ token. token.now) tokens.new.items ++ tokens_of rest.now) }
    ensures less { IfOk result (λ rest. 0 < length line.now → length rest.now < length line.now) }
{
    let end = end_of_token(line);
    if end > 0 {
        tokens.push(&line[..end])?;
    }
    Ok(behind(line, end))
}

/// What stands between blanks.
pub fn split_tokens(alloc: Global, line: &[u8]) -> Result<Vec<&[u8]>, AllocError>
    ensures { IfOk result (λ tokens. map (λ token. token.now) tokens.items ≡ tokens_of line.now) }
{
    let mut tokens = Vec::with_capacity(alloc, FEW)?;
    let mut rest = line;
    while !rest.is_empty() {
        rest = take_token(&mut tokens, rest)?;
    }
    Ok(tokens)
}

// All bytes are looked at, so that many are at once.
fn is_visible_token(token: &[u8]) -> bool
    ensures { result ≡ list_all is_visible token.now }
{
    token
        .iter()
        .fold(true, |all, b| all & (0x21 <= *b && *b <= 0x7e))
}

/// Whether the tokens have only printed characters of ASCII.
pub fn are_visible(tokens: &[&[u8]]) -> bool
    ensures { result ≡ list_all (list_all is_visible) (map (λ token. token.now) tokens.now) }
{
    tokens.iter().all(|token| is_visible_token(token))
}

pub fn begins_comment(token: &[u8]) -> bool
    ensures { result ≡ is_comment token.now }
{
    match token {
        [b, ..] => *b == b'#',
        [] => false,
    }
}
