//! The reading of a trace.

ghost use Rattle.std.specs.Prelude.{◌≡◌, ◌<◌, ◌++◌, ◌∷◌, [], ℕ, List, length, IfOk, MatchOption, MatchResult, Contains};
ghost use Rattle.std.specs.List.{list_all};
ghost use Rattle.trace_check.specs.Verdicts.{IsTraceOf, IsFirstBad};
ghost use Rattle.trace_check.specs.TraceReader.{IsReading, IsCut};

use crate::lines::{AskLine, Event, read_event};
use alg_registry::RegEntry;
use board::BoardEntry;
use std::alloc::{AllocError, Global};

/// The events of a trace.
#[derive(Debug, Drop)]
pub struct Events {
    /// Those of the registry, in order. Their lines come first.
    pub registry: Vec<RegEntry>,
    /// Those of the board, in order.
    pub board: Vec<BoardEntry<AskLine>>,
}

/// What a text is read as.
#[derive(Debug, Drop)]
pub enum Reading {
    /// A trace, of these events.
    Trace(Events),
    /// No trace. This line, counted from 1, is the first that no trace can have there.
    Bad(u64),
}

// The first line with its line feed, and what follows it.
fn cut_line(text: &[u8]) -> Option<(&[u8], &[u8])>
    ensures { IsCut text.now result }
{
    for place in 0..text.len() {
        if text[place] == b'\n' {
            return Some(text.split_at(place + 1));
        }
    }
    None
}

/// Reads a trace: an event a line, each as docs/TRACE.md has it and with its line feed, those of the registry before
/// those of the board. `Bad` exactly where the text isn't one. The error is want of memory alone, of which it takes
/// some in proportion to the text.
pub fn read_trace(alloc: Global, text: &[u8]) -> Result<Reading, AllocError>
    ensures { IfOk result (λ reading. IsReading text.now reading) }
{
    let mut registry = Vec::new(alloc);
    let mut board = Vec::new(alloc);
    let mut rest = text;
    let mut count = 0u64;
    while !rest.is_empty() {
        let Some((line, more)) = cut_line(rest) else {
            return Ok(Reading::Bad(count + 1));
        };
        match read_event(alloc, line)? {
            Some(Event::Registry(event)) => {
                if !board.is_empty() {
                    return Ok(Reading::Bad(count + 1));
                }
                registry.push(event)?;
            }
            Some(Event::Board(event)) => {
                board.push(event)?;
            }
            None => return Ok(Reading::Bad(count + 1)),
        }
        rest = more;
        count += 1;
    }
    Ok(Reading::Trace(Events { registry, board }))
}
