//! The parts of a script for several clients.

ghost use Rattle.std.specs.Prelude.{◌≡◌, ◌≤◌, length, map, drop, IfOk};
ghost use Rattle.script_text.specs.Lines.{lines_of};
ghost use Rattle.script_text.specs.Parts.{is_mark_token, may_be_mark, is_mark_text, is_mark, before_mark, behind_mark, parts_of};

use crate::line_parser::{MAX_LINE, text_before_feed};
use crate::split::line_len;
use crate::tokens::{is_blank, split_tokens};
use std::alloc::{AllocError, Global};
use std::marker::Model;

/// A part of an input: the bytes where they stand in it.
#[derive(Drop)]
pub struct Part<'a> {
    bytes: &'a [u8],
}

impl<'a> Model for Part<'a> {
    ghost use Rattle.std.specs.Prelude.{List, ℕ};

    ghost Value = { List ℕ };

    ghost view = { λ part. part.bytes.now };
}

impl<'a> Part<'a> {
    fn new(bytes: &'a [u8]) -> Part<'a>
        ensures { result ≡ bytes.now }
    {
        Part { bytes }
    }

    pub fn as_slice(&self) -> &[u8]
        ensures { result.now ≡ self.now }
    {
        self.bytes
    }
}

fn is_mark_token(tokens: &[&[u8]]) -> bool
    ensures { result ≡ is_mark_token (map (λ token. token.now) tokens.now) }
{
    match tokens {
        [token] => *token == b"%%".as_slice(),
        _ => false,
    }
}

// Whether the first byte of a text allows that it is a mark. Most lines are told from marks by it.
fn may_be_mark(text: &[u8]) -> bool
    ensures { result ≡ may_be_mark text.now }
{
    match text {
        [b, ..] => *b == b'%' || is_blank(*b),
        [] => false,
    }
}

#[tactic(auto, using(crate::proofs::MarkLemmas::unmarked))]
fn is_mark_text(alloc: Global, length: usize, text: &[u8]) -> Result<bool, AllocError>
    ensures { IfOk result (λ mark. mark ≡ is_mark_text length text.now) }
{
    if length > MAX_LINE {
        return Ok(false);
    }
    if !may_be_mark(text) {
        return Ok(false);
    }
    let tokens = split_tokens(alloc, text)?;
    Ok(is_mark_token(&tokens))
}

// Whether a line parts scripts.
fn is_mark(alloc: Global, line: &[u8]) -> Result<bool, AllocError>
    ensures { IfOk result (λ mark. mark ≡ is_mark line.now) }
{
    match line {
        [before @ .., b'\n'] => is_mark_text(alloc, before.len(), text_before_feed(before)),
        _ => is_mark_text(alloc, line.len(), line),
    }
}

// What stands from that place on.
fn from_place(bytes: &[u8], at: usize) -> &[u8]
    requires { at ≤ length bytes.now }
    ensures { result.now ≡ drop at bytes.now }
{
    &bytes[at..]
}

// What stands before the first mark, and behind it.
fn cut_at_mark(alloc: Global, bytes: &[u8]) -> Result<(&[u8], &[u8]), AllocError>
    ensures before { IfOk result (λ cut. cut.0.now ≡ before_mark (lines_of bytes.now)) }
    ensures behind { IfOk result (λ cut. lines_of cut.1.now ≡ behind_mark (lines_of bytes.now)) }
{
    let mut at = 0;
    while at < bytes.len() {
        let rest = from_place(bytes, at);
        let len = line_len(rest);
        if is_mark(alloc, &rest[..len])? {
            return Ok((&bytes[..at], from_place(bytes, at + len)));
        }
        at += len;
    }
    Ok((bytes, from_place(bytes, bytes.len())))
}

/// The parts of an input for so many clients, where they stand in it: it is cut at the first lines whose only token is
/// `%%`, as many as there are clients, and a part that isn't there is empty. The first part stands before the first
/// such line.
pub fn cut_parts(alloc: Global, input: &[u8], clients: u32) -> Result<Vec<Part<'_>>, AllocError>
    ensures { IfOk result (λ parts. parts.items ≡ parts_of clients input.now) }
{
    let mut parts = Vec::new(alloc);
    let mut rest = input;
    for _ in 0..clients {
        let (part, behind) = cut_at_mark(alloc, rest)?;
        parts.push(Part::new(part))?;
        rest = behind;
    }
    parts.push(Part::new(rest))?;
    Ok(parts)
}
