//! All reorder lists of a pipeline.

ghost use Rattle.std.specs.Prelude.{◌≡◌, ℕ, ◌-◌, ◌*◌, ◌<◌, ◌≤◌, [], length, slice_index_or, IfOk, OnOk, OnErr};
ghost use Rattle.padata_core.specs.Rows.{Slot};
ghost use Rattle.padata_core.specs.Pad.{HaveMore, AreRows, kept_at};

use crate::row::Row;
use std::alloc::{AllocError, Global};

/// So many empty lists, with room for no outcome.
pub(crate) fn empty_rows<F: Drop>(alloc: Global, lists: u32) -> Result<Vec<Row<F>>, AllocError>
    ensures count { IfOk result (λ rows. length rows.items ≡ lists) }
    ensures empty { IfOk result (λ rows. (k : ℕ) (d : Slot F) → k < lists
        → slice_index_or rows.items k d ≡ record { entries = []; room = 0 }) }
{
    let mut rows = Vec::new(alloc);
    for _ in 0..lists {
        rows.push(Row::new(alloc))?;
    }
    Ok(rows)
}

/// Makes room on each list for `room` outcomes in all at least. Want of memory takes no room away.
pub(crate) fn reserve_rows<F: Drop>(rows: &mut Vec<Row<F>>, room: usize) -> Result<(), AllocError>
    ensures more { HaveMore rows.old.items rows.new.items }
    ensures room { OnOk result ((k : ℕ) (d : Slot F) → k < length rows.new.items → room ≤ (slice_index_or rows.new.items k d).room) }
{
    for k in 0..rows.len() {
        let row = &mut rows[k];
        row.reserve(room)?;
    }
    Ok(())
}

/// Moves the outcomes of the numbers from `from` on and below `to` onto new lists, that have room for them.
pub(crate) fn move_rows<F: Drop>(
    old: &mut Vec<Row<F>>,
    new: &mut Vec<Row<F>>,
    lists: u32,
    more: u32,
    from: u64,
    to: u64,
    room: usize,
    share: usize,
)
    requires order { from ≤ to }
    requires left { AreRows old.old.items lists from to room }
    requires moved { AreRows new.old.items more from from share }
    requires enough { to - from ≤ share * more }
    ensures rows { AreRows new.new.items more from to share }
    ensures kept { (m : ℕ) → from ≤ m → m < to → kept_at new.new.items more m ≡ kept_at old.old.items lists m }
{
    let mut number = from;
    while number < to {
        let row = &mut old[(number % lists as u64) as usize];
        if let Some(out) = row.take_first(number) {
            let target = &mut new[(number % more as u64) as usize];
            target.put(number, out);
        }
        number += 1;
    }
}
