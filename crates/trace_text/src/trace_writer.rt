//! The trace of a run.

ghost use Rattle.std.specs.Prelude.{◌≡◌, ◌++◌, true, IfOk, OnOk};
ghost use Rattle.std.specs.List.{flat_map, list_all};
ghost use Rattle.trace_text.specs.Text.{sentence, reg_words, board_words};
ghost use Rattle.trace_text.specs.Asks.{ask_origin};
ghost use Rattle.trace_text.specs.Trace.{trace_of, fits, board_fits, FitTypes};

use crate::board_text::{HasScriptLine, board_line};
use crate::registry_text::registry_line;
use alg_registry::{RegEntry, RegLog};
use board::{BoardEntry, BoardLog};
use kc_base::Bytes;
use reply_text::Origin;
use std::alloc::{AllocError, Global};
use transforms::Ask;

impl HasScriptLine for Ask {
    ghost use Rattle.trace_text.specs.Asks.{ask_origin};

    ghost origin = { ask_origin };

    fn origin(&self) -> Origin {
        Origin {
            client: self.client,
            line: self.line,
        }
    }
}

fn put_registry(alloc: Global, text: &mut Bytes, events: &[RegEntry]) -> Result<(), AllocError>
    ensures text { OnOk result (text.new ≡ text.old ++ flat_map (λ e. sentence (reg_words e)) events.now) }
    ensures fits { OnOk result (list_all fits events.now ≡ true) }
{
    for event in events {
        text.append(registry_line(alloc, event)?.as_slice())?;
    }
    Ok(())
}

fn put_board<A: HasScriptLine>(
    alloc: Global,
    text: &mut Bytes,
    events: &[BoardEntry<A>],
) -> Result<(), AllocError>
    ensures text { OnOk result (text.new ≡ text.old ++ flat_map (λ e. sentence (board_words A.origin e)) events.now) }
    ensures fits { OnOk result (list_all (board_fits A.origin) events.now ≡ true) }
{
    for event in events {
        text.append(board_line(alloc, event)?.as_slice())?;
    }
    Ok(())
}

/// The trace of what a registry and a board recorded: an event a line, all of the registry's first. docs/TRACE.md has
/// the format. Each number in it is within its type.
pub fn write_trace(
    alloc: Global,
    registry: &RegLog,
    board: &BoardLog<Ask>,
) -> Result<Bytes, AllocError>
    ensures text { IfOk result (λ text. text ≡ trace_of ask_origin registry.now board.now) }
    ensures fits { OnOk result (FitTypes ask_origin registry.now board.now) }
{
    let mut text = Bytes::new(alloc);
    put_registry(alloc, &mut text, registry.entries())?;
    put_board(alloc, &mut text, board.entries())?;
    Ok(text)
}
