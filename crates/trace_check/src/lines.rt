//! The events of lines.

ghost use Rattle.std.specs.Prelude.{◌≡◌, ◌<◌, Some, None, if◌then◌else◌, length, map, IfOk};
ghost use Rattle.std.specs.Option.{option_map};
ghost use Rattle.std.specs.List.{list_all};
ghost use Rattle.std.specs.Str.{bytes_eq};
ghost use Rattle.trace_text.specs.Text.{sentence};
ghost use Rattle.trace_text.specs.Trace.{is_visible, is_word};
ghost use Rattle.trace_check.specs.EventParser.{event_in};
ghost use Rattle.trace_check.specs.Lines.{words_of, anywhere, IsReadAs};

use crate::event_parser::{board_of, is_same, parts_of, registry_of, small_of};
use alg_registry::RegEntry;
use board::BoardEntry;
use reply_text::Origin;
use std::alloc::{AllocError, Global};
use trace_text::{HasScriptLine, board_line, registry_line};

/// An ask of which nothing is known but from which line of which client's script it comes.
#[derive(Clone, Copy, Debug, PartialEq, Eq)]
pub struct AskLine {
    /// The client, and the line of its script.
    pub origin: Origin,
}

impl HasScriptLine for AskLine {
    ghost origin = { λ known. known.origin };

    fn origin(&self) -> Origin {
        self.origin
    }
}

/// An event of a trace: a call of the registry or of the board, with its caller and its answer.
#[derive(Debug, Drop)]
pub enum Event {
    Registry(RegEntry),
    Board(BoardEntry<AskLine>),
}

fn is_visible(byte: u8) -> bool
    ensures { result ≡ is_visible byte }
{
    0x21 <= byte && byte <= 0x7e
}

fn are_visible(text: &[u8]) -> bool
    ensures { result ≡ list_all is_visible text.now }
{
    text.iter().all(|b| is_visible(*b))
}

fn is_word(text: &[u8]) -> bool
    ensures { result ≡ is_word text.now }
{
    0 < text.len() && are_visible(text)
}

fn are_words(words: &[&[u8]]) -> bool
    ensures { result ≡ list_all is_word (map (λ word. word.now) words.now) }
{
    for place in 0..words.len() {
        if !is_word(words[place]) {
            return false;
        }
    }
    true
}

// What these words may be.
fn event_in(alloc: Global, words: &[&[u8]]) -> Result<Option<Event>, AllocError>
    ensures { IfOk result (λ found. option_map anywhere found ≡ event_in (map (λ word. word.now) words.now)) }
{
    let [kind, caller, name, args @ ..] = words else {
        return Ok(None);
    };
    if is_same(kind, b"r") {
        match registry_of(alloc, small_of(caller), name, args)? {
            Some(event) => Ok(Some(Event::Registry(event))),
            None => Ok(None),
        }
    } else {
        match board_of(alloc, small_of(caller), name, args)? {
            Some(event) => Ok(Some(Event::Board(event))),
            None => Ok(None),
        }
    }
}

// Whether the line is the event's.
fn is_line_of(alloc: Global, event: &Event, line: &[u8]) -> Result<bool, AllocError>
    ensures { IfOk result (λ same. same ≡ bytes_eq (sentence (words_of event.now)) line.now) }
{
    match event {
        Event::Registry(event) => {
            let text = registry_line(alloc, event)?;
            Ok(is_same(text.as_slice(), line))
        }
        Event::Board(event) => {
            let text = board_line(alloc, event)?;
            Ok(is_same(text.as_slice(), line))
        }
    }
}

// The event, where the line is its line.
fn checked_event(alloc: Global, event: Event, line: &[u8]) -> Result<Option<Event>, AllocError>
    ensures { IfOk result (λ kept. kept ≡ (if bytes_eq (sentence (words_of event)) line.now then Some event else None)) }
{
    if is_line_of(alloc, &event, line)? {
        Ok(Some(event))
    } else {
        Ok(None)
    }
}

/// The event of a line that ends with its line feed.
pub(crate) fn read_event(alloc: Global, line: &[u8]) -> Result<Option<Event>, AllocError>
    requires { 0 < length line.now }
    ensures { IfOk result (λ event. IsReadAs line.now event) }
{
    let (body, _last) = line.split_at(line.len() - 1);
    let words = parts_of(alloc, body, b' ')?;
    if !are_words(&words) {
        return Ok(None);
    }
    match event_in(alloc, &words)? {
        Some(event) => checked_event(alloc, event, line),
        None => Ok(None),
    }
}
