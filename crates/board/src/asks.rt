//! What a pipeline was asked, out of the history.

ghost use Rattle.std.specs.Prelude.{◌≡◌, ◌++◌, [], map, None, if◌then◌else◌, IfOk, OnOk};
ghost use Rattle.std.specs.List.{cons_option};
ghost use Rattle.std.specs.Arc.{arc_value};
ghost use Rattle.std.specs.Option.{option_map};
ghost use Rattle.board.specs.Entries.{is_of, entries_of, accepted_in, submissions};

use crate::board_core::BoardCore;
use crate::entry::{BoardEntry, Entered};
use crate::work::Work;
use std::alloc::{AllocError, Global};
use std::sync::Arc;

// The ask that the pipeline accepted by this entry, if it did.
fn accepted_by<A: Drop>(
    entry: &BoardEntry<A>,
    of: u64,
) -> Result<Option<Arc<A, Global>>, AllocError>
    ensures { IfOk result (λ ask. option_map arc_value ask ≡ (if is_of of entry.now then accepted_in entry.now else None)) }
{
    match entry {
        BoardEntry::Submit { pipe, ask, .. } if *pipe == of => Ok(Some(ask.clone()?)),
        BoardEntry::Enq {
            pipe,
            ask,
            answer: Entered::InProgress(_) | Entered::Busy(_),
            ..
        } if *pipe == of => Ok(Some(ask.clone()?)),
        _ => Ok(None),
    }
}

fn push_some<A: Drop>(
    asks: &mut Vec<Arc<A, Global>>,
    ask: Option<Arc<A, Global>>,
) -> Result<(), AllocError>
    ensures { OnOk result (asks.new.items ≡ asks.old.items ++ cons_option ask []) }
{
    if let Some(ask) = ask {
        asks.push(ask)?;
    }
    Ok(())
}

// What the pipeline accepted by these entries, in order.
fn asks_in<A: Drop>(
    alloc: Global,
    entries: &[BoardEntry<A>],
    of: u64,
) -> Result<Vec<Arc<A, Global>>, AllocError>
    ensures { IfOk result (λ asks. map arc_value asks.items ≡ submissions (entries_of of entries.now)) }
{
    let mut asks = Vec::new(alloc);
    for entry in entries {
        let ask = accepted_by(entry, of)?;
        push_some(&mut asks, ask)?;
    }
    Ok(asks)
}

impl<W: Work> BoardCore<W> {
    /// What the pipeline accepted, in order. It looks at each entry of the history.
    pub fn asks(&self, pipe: u64) -> Result<Vec<Arc<W::Ask, Global>>, AllocError>
        ensures { IfOk result (λ asks. map arc_value asks.items ≡ submissions (entries_of pipe self.now)) }
    {
        asks_in(self.alloc, self.log.as_slice(), pipe)
    }
}
