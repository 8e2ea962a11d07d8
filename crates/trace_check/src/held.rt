//! How many entries of the checker's table are held.

ghost use Rattle.std.specs.Prelude.{◌≡◌, IfOk, map};
ghost use Rattle.alg_registry.specs.Rows.{counted};
ghost use Rattle.alg_registry.specs.Answers.{held_count};
ghost use Rattle.trace_check.specs.Held.{AreMarked, holds};
ghost use Rattle.trace_check.specs.Registers.{row_of, is_full};

use crate::register::Entry;
use std::alloc::{AllocError, Global};

/// How many entries may be held.
const MAX_HELD: usize = 4096;

/// Marks the places of these ids.
pub(crate) fn mark_ids(marks: &mut Vec<bool>, ids: &[u64])
    ensures { AreMarked marks.old.items marks.new.items ids.now }
{
    for id in ids {
        let place = *id as usize;
        if place < marks.len() {
            marks[place] = true;
        }
    }
}

fn holds(entry: &Entry, used: bool) -> bool
    ensures { result ≡ holds entry.now used }
{
    entry.listed || (entry.taken > 0 || used)
}

// Newer entries stand on older ones alone, so one pass from the newest finds all that are held.
fn held_count(alloc: Global, entries: &[Entry]) -> Result<usize, AllocError>
    ensures { IfOk result (λ count. count ≡ held_count (counted 0 (map row_of entries.now))) }
{
    let mut used = vec![in alloc; false; entries.len()]?;
    let mut count = 0;
    let mut place = entries.len();
    while place > 0 {
        place -= 1;
        let entry = &entries[place];
        if holds(entry, used[place]) {
            mark_ids(&mut used, entry.spec.below.as_slice());
            count += 1;
        }
    }
    Ok(count)
}

/// Whether as many entries are held as may be.
pub(crate) fn is_full(alloc: Global, entries: &[Entry]) -> Result<bool, AllocError>
    ensures { IfOk result (λ full. full ≡ is_full (map row_of entries.now)) }
{
    if entries.len() < MAX_HELD {
        return Ok(false);
    }
    Ok(MAX_HELD <= held_count(alloc, entries)?)
}
