//! The history of a registry.

ghost use Rattle.std.specs.Prelude.{◌≡◌, ◌+◌, ◌^◌, ◌<◌, ◌++◌, ◌∷◌, [], length, IfErr, IsTrue, OnOk, OnErr};
ghost use Rattle.alg_registry.specs.Room.{opens, closes, owed};

use crate::entry::{RegEntry, RegErr};
use std::alloc::Global;
use std::marker::Model;

/// The calls of a registry, each with its caller and its answer, the oldest first.
#[derive(Debug, Drop)]
pub struct RegLog {
    entries: Vec<RegEntry>,
    /// For how many entries room is kept, since they may not be refused for want of memory.
    spare: usize,
}

impl Model for RegLog {
    ghost use Rattle.std.specs.Prelude.{List, vec_capacity};
    ghost use Rattle.alg_registry.specs.declared.entry.RegEntry.{RegEntry};
    ghost use Rattle.alg_registry.specs.Room.{HasRoom};

    ghost Value = { List RegEntry };

    ghost view = { λ log. log.entries.items };

    ghost invariant = { λ log. HasRoom log.entries.items log.spare (vec_capacity log.entries) };
}

/// Whether another entry of the same caller is to follow.
fn is_opening(entry: &RegEntry) -> bool
    ensures { result ≡ opens entry.now }
{
    match entry {
        RegEntry::Claim { .. } => true,
        RegEntry::Get { ok, .. } => *ok,
        _ => false,
    }
}

impl RegLog {
    /// No entries. No memory is taken.
    pub fn empty(alloc: Global) -> RegLog
        ensures { result ≡ [] }
    {
        RegLog {
            entries: Vec::new(alloc),
            spare: 0,
        }
    }

    /// The entries, the oldest first.
    pub fn entries(&self) -> &[RegEntry]
        ensures { result.now ≡ self.now }
    {
        self.entries.as_slice()
    }

    /// Appends the entry, and keeps room for the one that it lets follow. Want of memory leaves all as it was.
    pub(crate) fn record(&mut self, entry: RegEntry) -> Result<(), RegErr>
        ensures ok { OnOk result (self.new ≡ self.old ++ entry ∷ []) }
        ensures memory { IfErr result (λ e. e ≡ RegErr.Memory) }
        ensures unchanged { OnErr result (self.new ≡ self.old) }
        ensures short { length self.old < 2 ^ 60 }
    {
        let spare = if is_opening(&entry) {
            self.spare + 1
        } else {
            self.spare
        };
        if self.entries.reserve(spare + 1).is_err() {
            return Err(RegErr::Memory);
        }
        self.entries.push_reserved(entry);
        self.spare = spare;
        Ok(())
    }

    /// Appends an entry for which room was kept. No memory is taken.
    pub(crate) fn settle(&mut self, entry: RegEntry)
        requires owed { 0 < owed self.old }
        requires closes { IsTrue (closes entry) }
        ensures appended { self.new ≡ self.old ++ entry ∷ [] }
        ensures short { length self.old < 2 ^ 60 }
    {
        self.entries.push_reserved(entry);
        self.spare -= 1;
    }
}
