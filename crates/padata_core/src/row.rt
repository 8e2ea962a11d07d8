//! One reorder list.

ghost use Rattle.std.specs.Prelude.{◌≡◌, ℕ, ◌<◌, ◌≤◌, false, [], ◌∷◌, ◌++◌, length, slice_index_or, IfOk, OnOk, MatchOption};
ghost use Rattle.std.specs.VecDeque.{deque_len, deque_capacity};
ghost use Rattle.padata_core.specs.Rows.{put, first_is, IsRising};

use std::alloc::{AllocError, Global};
use std::collections::VecDeque;
use std::marker::Model;

/// Outcomes with their numbers, in rising order, and for how many there is room.
#[derive(Drop)]
pub(crate) struct Row<F> {
    entries: VecDeque<(u64, F)>,
    room: usize,
}

impl<F> Model for Row<F> {
    ghost use Rattle.std.specs.Prelude.{◌≤◌};
    ghost use Rattle.std.specs.VecDeque.{deque_len, deque_capacity};
    ghost use Rattle.padata_core.specs.Rows.{Slot};

    ghost Value = { Slot F };

    ghost view = { λ r. record { entries = r.entries.items; room = r.room } };

    ghost invariant = { λ r. r.room ≤ deque_capacity r.entries };
}

impl<F: Drop> Row<F> {
    /// An empty list with room for no outcome.
    pub(crate) fn new(alloc: Global) -> Row<F>
        ensures { result ≡ record { entries = []; room = 0 } }
    {
        Row {
            entries: VecDeque::new(alloc),
            room: 0,
        }
    }

    /// The outcomes with their numbers, in rising order.
    pub(crate) fn entries(&self) -> &VecDeque<(u64, F)>
        ensures { result.now.items ≡ self.now.entries }
    {
        &self.entries
    }

    /// Makes room for `room` outcomes in all at least. Want of memory leaves the list as it was.
    pub(crate) fn reserve(&mut self, room: usize) -> Result<(), AllocError>
        ensures same { self.new.entries ≡ self.old.entries }
        ensures room { OnOk result (room ≤ self.new.room) }
        ensures kept { self.old.room ≤ self.new.room }
    {
        if room <= self.room {
            return Ok(());
        }
        let more = room.saturating_sub(self.entries.len());
        self.entries.reserve(more)?;
        self.room = room;
        Ok(())
    }

    /// Puts an outcome at its place. There is room for it.
    pub(crate) fn put(&mut self, number: u64, out: F)
        requires room { length self.old.entries < self.old.room }
        requires rising { IsRising 0 self.old.entries }
        ensures { self.new ≡ record self.old { entries = put number out self.old.entries } }
    {
        let place = place_for(&self.entries, number);
        let _ = self.entries.insert(place, (number, out));
    }

    /// Takes the first outcome out, where it is that of this number.
    pub(crate) fn take_first(&mut self, number: u64) -> Option<F>
        ensures { MatchOption result
            ((first_is number self.old.entries ≡ false) × (self.new ≡ self.old))
            (λ out. (self.old.entries ≡ (number, out) ∷ self.new.entries) × (self.new.room ≡ self.old.room)) }
    {
        if !self.starts_with(number) {
            return None;
        }
        let (_, out) = self.entries.pop_front()?;
        Some(out)
    }

    /// Whether the first outcome is that of this number.
    fn starts_with(&self, number: u64) -> bool
        ensures { result ≡ first_is number self.now.entries }
    {
        match self.entries.front() {
            Some((first, _)) => *first == number,
            None => false,
        }
    }
}

/// Where a number belongs in a rising list: after those that are not greater.
fn place_for<F>(entries: &VecDeque<(u64, F)>, number: u64) -> usize
    requires rising { IsRising 0 entries.now.items }
    ensures within { result ≤ deque_len entries.now }
    ensures low { (j : ℕ) (d : ℕ × F) → j < result → (slice_index_or entries.now.items j d).0 ≤ number }
    ensures high { result < length entries.now.items → (d : ℕ × F) → number < (slice_index_or entries.now.items result d).0 }
{
    let mut low = 0;
    let mut high = entries.len();
    while low < high {
        let middle = low + (high - low) / 2;
        if entries[middle].0 <= number {
            low = middle + 1;
        } else {
            high = middle;
        }
    }
    low
}
