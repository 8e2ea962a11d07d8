//! How the workers that may take from a pad are named.

ghost use Rattle.std.specs.Prelude.{◌≡◌, ◌<◌, ◌^◌, false, [], ◌∷◌, ◌++◌, IfErr, MatchResult};
ghost use Rattle.board.specs.declared.entry.BoardEntry.TheVariants as Entry;
ghost use Rattle.board.specs.declared.board_core.BoardErr.TheVariants as BoardErr;
ghost use Rattle.board.specs.Shapes.{width_born};
ghost use Rattle.board.specs.Entries.{entries_of, birth, is_shared, mask, lists_for};
ghost use Rattle.board.specs.Legal.{MayManage, IsOpenPad, LegalBoard};

use crate::board_core::{BoardCore, BoardErr};
use crate::entry::BoardEntry;
use crate::log::reserve_entries;
use crate::work::Work;

impl<W: Work> BoardCore<W> {
    /// How many reorder lists an open pad has: one for each worker that its mask names, and one where it names none.
    pub fn lists(&self, pipe: u64) -> u32
        requires { IsOpenPad (entries_of pipe self.now) }
        ensures { result ≡ lists_for (mask (entries_of pipe self.now)) }
    {
        let place = &self.pipes[&pipe];
        place.stage.lists()
    }

    /// From now on the workers whose bits are set may take from the pad, besides its maker and who submits to it: bit i
    /// stands for caller i + 1. What was submitted before stays, and is completed in order. The caller made the pad,
    /// which is neither closed nor shared, and no bit stands at or above the number of lists that it was made with.
    /// Only want of memory refuses, and leaves the board as it was.
    pub fn mask(&mut self, caller: u32, pipe: u64, mask: u16) -> Result<(), BoardErr>
        requires caller { MayManage (entries_of pipe self.old) caller }
        requires pipe { IsOpenPad (entries_of pipe self.old) }
        requires alone { is_shared (entries_of pipe self.old) ≡ false }
        requires bits { mask < 2 ^ width_born (birth (entries_of pipe self.old)) }
        ensures masked { MatchResult result (λ _. self.new ≡ self.old ++ Entry.Mask caller pipe mask ∷ []) (λ _. self.new ≡ self.old) }
        ensures refused { IfErr result (λ e. e ≡ BoardErr.Memory) }
        ensures legal { LegalBoard self.new }
    {
        reserve_entries(&mut self.log, self.owed, 1)?;
        self.ready.join_workers(mask, pipe)?;
        let place = self.pipes.get_mut(&pipe).unwrap();
        place.stage.remask(mask.count_ones().max(1))?;
        place.mask = mask;
        self.ready.readmit(pipe, place);
        self.log
            .push_reserved(BoardEntry::Mask { caller, pipe, mask });
        Ok(())
    }
}
