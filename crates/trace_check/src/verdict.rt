//! The verdict on a text.

ghost use Rattle.std.specs.Prelude.{◌≡◌, IfOk, true};
ghost use Rattle.std.specs.List.{list_all};
ghost use Rattle.trace_text.specs.Trace.{is_event};
ghost use Rattle.trace_check.specs.Verdicts.{AreJudged, IsVerdict};

use crate::reason::Reason;
use crate::registry_check::first_wrong_entry;
use crate::table::first_wrong_event;
use crate::trace_reader::{Events, Reading, read_trace};
use std::alloc::{AllocError, Global};

/// What a text is.
#[derive(Clone, Copy, Debug, PartialEq, Eq)]
pub enum TraceVerdict {
    /// The trace of two legal lists.
    Legal,
    /// The trace of two lists of which this event, counted from 0 over both, is the first that isn't right, and why.
    Illegal(u64, Reason),
    /// No trace: this line, counted from 1, is the first that no trace can have there.
    NoTrace(u64),
}

// The verdict on the events of a trace.
#[tactic(auto, using(crate::proofs::RegLoop::events_have_text))]
fn judged(alloc: Global, events: &Events) -> Result<TraceVerdict, AllocError>
    requires { list_all is_event events.now.registry.items ≡ true }
    ensures { IfOk result (λ verdict. AreJudged events.now.registry.items events.now.board.items verdict) }
{
    if let Some((place, reason)) = first_wrong_entry(alloc, &events.registry)? {
        return Ok(TraceVerdict::Illegal(place, reason));
    }
    match first_wrong_event(alloc, &events.board)? {
        Some((place, reason)) => Ok(TraceVerdict::Illegal(
            events.registry.len() as u64 + place,
            reason,
        )),
        None => Ok(TraceVerdict::Legal),
    }
}

/// The verdict on a text (docs/TRACE.md): whether it is a trace, and then whether each event is right for those before
/// it. Each text has one verdict. The error is want of memory alone: it says nothing of the text.
pub fn check_trace(alloc: Global, text: &[u8]) -> Result<TraceVerdict, AllocError>
    ensures { IfOk result (λ verdict. IsVerdict text.now verdict) }
{
    match read_trace(alloc, text)? {
        Reading::Trace(events) => judged(alloc, &events),
        Reading::Bad(line) => Ok(TraceVerdict::NoTrace(line)),
    }
}
