//! How pipelines are made.

ghost use Rattle.std.specs.Prelude.{◌≡◌, ◌≢◌, ℕ, ◌+◌, ◌≤◌, [], ◌∷◌, ◌++◌, Some, None, IfErr, OnOk, OnErr, MatchResult};
ghost use Rattle.board.specs.declared.entry.Shape.TheVariants as Shaped;
ghost use Rattle.board.specs.declared.entry.BoardEntry.TheVariants as Entry;
ghost use Rattle.board.specs.declared.board_core.BoardErr.TheVariants as BoardErr;
ghost use Rattle.board.specs.Legal.{IsNoWorker, pipelines, LegalBoard};
ghost use Rattle.board.specs.Births.{IsNew};
ghost use Rattle.board.specs.Kept.{owes, owed_by};
ghost use Rattle.board.specs.Places.{places};
ghost use Rattle.board.specs.RunQueue.{IsMember, IsChain, KeepsOthers};
ghost use Rattle.board.specs.RunQueues.{IsMade, Joins};

use crate::board_core::{BoardCore, BoardErr};
use crate::entry::{BoardEntry, Shape};
use crate::log::reserve_entries;
use crate::mask::full_mask;
use crate::pipeline::Pipeline;
use crate::run_queue::RunQueue;
use crate::run_queues::RunQueues;
use crate::stage::{Chained, Stage};
use crate::work::Work;
use cryptd::Cryptd;
use padata_core::Padata;
use std::alloc::AllocError;
use std::collections::BTreeMap;

impl<W: Work> BoardCore<W> {
    /// Makes a pad of `lists` reorder lists, 1 to 16, from which the workers 1 to `lists` may take, and answers its
    /// number. The caller is no worker. Only want of memory refuses, and leaves the board as it was.
    pub fn born_pad(&mut self, caller: u32, lists: u32) -> Result<u64, BoardErr>
        requires caller { IsNoWorker caller }
        requires some { 1 ≤ lists }
        requires lists { lists ≤ 16 }
        ensures made { MatchResult result
            (λ pipe. (pipe ≡ pipelines self.old) × (self.new ≡ self.old ++ Entry.Born caller pipe (Shaped.Pad lists) ∷ []))
            (λ _. self.new ≡ self.old) }
        ensures refused { IfErr result (λ e. e ≡ BoardErr.Memory) }
        ensures legal { LegalBoard self.new }
    {
        let pad = Padata::new(self.alloc, lists)?;
        self.born(caller, Shape::Pad(lists), full_mask(lists), Stage::Pad(pad))
    }

    /// Makes a queue of which so many requests wait before its backlog begins, at least 1, and answers its number. The
    /// caller is no worker. Only want of memory refuses, and leaves the board as it was.
    pub fn born_queue(&mut self, caller: u32, max: u32) -> Result<u64, BoardErr>
        requires caller { IsNoWorker caller }
        requires max { 1 ≤ max }
        ensures made { MatchResult result
            (λ pipe. (pipe ≡ pipelines self.old) × (self.new ≡ self.old ++ Entry.Born caller pipe (Shaped.Queue max) ∷ []))
            (λ _. self.new ≡ self.old) }
        ensures refused { IfErr result (λ e. e ≡ BoardErr.Memory) }
        ensures legal { LegalBoard self.new }
    {
        let queue = Cryptd::new(self.alloc, max);
        self.born(caller, Shape::Queue(max), full_mask(0), Stage::Queue(queue))
    }

    /// Makes a chain, and answers its number: a queue of which so many requests wait before its backlog begins, at
    /// least 1, and a pad of `lists` reorder lists, 1 to 16, to which they go on, and from which the workers 1 to
    /// `lists` may take. The caller is no worker. Only want of memory refuses, and leaves the board as it was.
    pub fn born_chain(&mut self, caller: u32, max: u32, lists: u32) -> Result<u64, BoardErr>
        requires caller { IsNoWorker caller }
        requires max { 1 ≤ max }
        requires some { 1 ≤ lists }
        requires lists { lists ≤ 16 }
        ensures made { MatchResult result
            (λ pipe. (pipe ≡ pipelines self.old) × (self.new ≡ self.old ++ Entry.Born caller pipe (Shaped.Chain max lists) ∷ []))
            (λ _. self.new ≡ self.old) }
        ensures refused { IfErr result (λ e. e ≡ BoardErr.Memory) }
        ensures legal { LegalBoard self.new }
    {
        let server = Cryptd::new(self.alloc, max);
        let pad = Padata::new(self.alloc, lists)?;
        let chain = Chained { server, pad };
        self.born(
            caller,
            Shape::Chain(max, lists),
            full_mask(lists),
            Stage::Chain(chain),
        )
    }

    /// Sets an empty pipeline of this shape on the board.
    fn born(
        &mut self,
        caller: u32,
        shape: Shape,
        mask: u16,
        stage: Stage<W, W::Out>,
    ) -> Result<u64, BoardErr>
        requires caller { IsNoWorker caller }
        requires stage { IsNew stage shape mask }
        ensures made { MatchResult result
            (λ pipe. (pipe ≡ pipelines self.old) × (self.new ≡ self.old ++ Entry.Born caller pipe shape ∷ []))
            (λ _. self.new ≡ self.old) }
        ensures refused { IfErr result (λ e. e ≡ BoardErr.Memory) }
        ensures legal { LegalBoard self.new }
    {
        reserve_entries(&mut self.log, self.owed, 2)?;
        let new = Pipeline {
            maker: caller,
            shared: false,
            mask,
            submitters: Vec::new(self.alloc),
            collected: 0,
            stage,
        };
        let pipe = self.born;
        enter_board(
            &mut self.pipes,
            &mut self.ready,
            &mut self.passing,
            pipe,
            new,
        )?;
        self.log.push_reserved(BoardEntry::Born {
            caller,
            pipe,
            shape,
        });
        self.owed += 1;
        self.born += 1;
        Ok(pipe)
    }
}

/// Sets a new pipeline among the others, a member of the run queues where it belongs. Want of memory leaves it out of
/// all.
fn enter_board<J: Drop, F: Drop>(
    pipes: &mut BTreeMap<u64, Pipeline<J, F>>,
    ready: &mut RunQueues,
    passing: &mut RunQueue,
    pipe: u64,
    new: Pipeline<J, F>,
) -> Result<(), AllocError>
    requires { places pipes.old pipe ≡ None }
    ensures ready { IsMade (KeepsOthers pipe) ready.old ready.new }
    ensures passing { KeepsOthers pipe passing.old passing.new }
    ensures joined { OnOk result (Joins pipe new ready.new) }
    ensures chain { OnOk result (IsChain new → IsMember passing.new pipe) }
    ensures there { OnOk result (places pipes.new pipe ≡ Some new) }
    ensures others { OnOk result ((q : ℕ) → q ≢ pipe → places pipes.new q ≡ places pipes.old q) }
    ensures owed { OnOk result (owed_by pipes.new ≡ owed_by pipes.old + owes new) }
    ensures unchanged { OnErr result (pipes.new.entries ≡ pipes.old.entries) }
{
    enter_run_queues(ready, passing, pipe, &new)?;
    let maker = new.maker;
    if pipes.insert(pipe, new).is_err() {
        ready.leave(maker, pipe);
        passing.leave(pipe);
        return Err(AllocError);
    }
    Ok(())
}

/// Makes a new pipeline a member of the run queues where it belongs. Want of memory leaves it out of all run queues.
fn enter_run_queues<J: Drop, F: Drop>(
    ready: &mut RunQueues,
    passing: &mut RunQueue,
    pipe: u64,
    new: &Pipeline<J, F>,
) -> Result<(), AllocError>
    ensures ready { IsMade (KeepsOthers pipe) ready.old ready.new }
    ensures passing { KeepsOthers pipe passing.old passing.new }
    ensures joined { OnOk result (Joins pipe new.now ready.new) }
    ensures chain { OnOk result (IsChain new.now → IsMember passing.new pipe) }
{
    ready.enter(pipe, new)?;
    if !new.stage.is_chain() {
        return Ok(());
    }
    let joined = passing.join(pipe);
    if joined.is_err() {
        ready.leave(new.maker, pipe);
    }
    joined
}
