//! How a board hands out what its pipelines told.

ghost use Rattle.std.specs.Prelude.{◌≡◌, ◌<◌, [], ◌∷◌, ◌++◌, length, IfOk, IfErr, MatchResult, MatchBool};
ghost use Rattle.board.specs.declared.entry.BoardEntry.TheVariants as Entry;
ghost use Rattle.board.specs.declared.board_core.BoardErr.TheVariants as BoardErr;
ghost use Rattle.board.specs.Entries.{entries_of, submissions, front, told, delivered};
ghost use Rattle.board.specs.Legal.{MayManage, IsOpen, LegalBoard};

use crate::board_core::{BoardCore, BoardErr};
use crate::entry::BoardEntry;
use crate::log::reserve_entries;
use crate::work::Work;
use kc_base::Callbacks;

impl<W: Work> BoardCore<W> {
    /// Hands out what a pipeline has told and no call handed out before, in the order in which it was told: of a pad or
    /// a chain the completions up to the first request that isn't finished. The caller made the pipeline, which isn't
    /// closed. Only want of memory refuses, and leaves all as it was.
    pub fn poll(
        &mut self,
        caller: u32,
        pipe: u64,
        into: &mut Callbacks<W::Out>,
    ) -> Result<(), BoardErr>
        requires caller { MayManage (entries_of pipe self.old) caller }
        requires pipe { IsOpen (entries_of pipe self.old) }
        ensures board { MatchResult result
            (λ _. self.new ≡ self.old ++ Entry.Collect caller pipe (length (told (entries_of pipe self.old))) ∷ [])
            (λ _. self.new ≡ self.old) }
        ensures handed { MatchResult result
            (λ _. let es = entries_of pipe self.old in
            into.new.list ≡ into.old.list ++ delivered W.meaning es (length (told es)))
            (λ _. into.new.list ≡ into.old.list) }
        ensures refused { IfErr result (λ e. e ≡ BoardErr.Memory) }
        ensures legal { LegalBoard self.new }
    {
        let place = &self.pipes[&pipe];
        into.reserve(place.stage.uncollected())?;
        reserve_entries(&mut self.log, self.owed, 1)?;
        let place = self.pipes.get_mut(&pipe).unwrap();
        let to = place.collect(into);
        self.log
            .push_reserved(BoardEntry::Collect { caller, pipe, to });
        Ok(())
    }

    /// Where all requests of the pipeline are finished, answers true and hands out what no call handed out before, in
    /// the order in which it was told. Otherwise it answers false and nothing happens. The caller made the pipeline,
    /// which isn't closed. Only want of memory refuses, and leaves all as it was.
    pub fn try_drain(
        &mut self,
        caller: u32,
        pipe: u64,
        into: &mut Callbacks<W::Out>,
    ) -> Result<bool, BoardErr>
        requires caller { MayManage (entries_of pipe self.old) caller }
        requires pipe { IsOpen (entries_of pipe self.old) }
        ensures drained { IfOk result (λ all. let es = entries_of pipe self.old in
            MatchBool all (front es ≡ length (submissions es)) (front es < length (submissions es))) }
        ensures board { MatchResult result
            (λ all. MatchBool all
            (self.new ≡ self.old ++ Entry.Collect caller pipe (length (told (entries_of pipe self.old))) ∷ [])
            (self.new ≡ self.old))
            (λ _. self.new ≡ self.old) }
        ensures handed { MatchResult result
            (λ all. let es = entries_of pipe self.old in MatchBool all
            (into.new.list ≡ into.old.list ++ delivered W.meaning es (length (told es)))
            (into.new.list ≡ into.old.list))
            (λ _. into.new.list ≡ into.old.list) }
        ensures refused { IfErr result (λ e. e ≡ BoardErr.Memory) }
        ensures legal { LegalBoard self.new }
    {
        let place = &self.pipes[&pipe];
        if !place.stage.is_done() {
            return Ok(false);
        }
        self.poll(caller, pipe, into)?;
        Ok(true)
    }
}
