//! A board: its pipelines, and the history of all that happened on it.

ghost use Rattle.std.specs.Prelude.{◌≡◌, ◌≤◌, false, [], ◌∷◌, ◌++◌, length, IfOk, IfErr, MatchResult};
ghost use Rattle.board.specs.declared.entry.Shape.TheVariants as Shaped;
ghost use Rattle.board.specs.declared.entry.BoardEntry.TheVariants as Entry;
ghost use Rattle.board.specs.declared.board_core.BoardErr.TheVariants as BoardErr;
ghost use Rattle.board.specs.Entries.{entries_of, is_shared, submissions, front, told, collected};
ghost use Rattle.board.specs.Legal.{IsNoWorker, MayManage, IsOpen, pipelines, is_shut, LegalBoard};

use crate::allowance::Used;
use crate::entry::BoardEntry;
use crate::log::{BoardLog, reserve_entries};
use crate::pipeline::Pipeline;
use crate::run_queue::RunQueue;
use crate::run_queues::RunQueues;
use crate::work::Work;
use std::alloc::{AllocError, Global};
use std::collections::BTreeMap;
use std::marker::Model;
use thiserror::Error;
use turn_lock::Told;

/// Why a board refuses.
#[derive(Clone, Copy, Debug, PartialEq, Eq, Error)]
pub enum BoardErr {
    /// No worker may take from the pad: its mask is empty.
    #[error("no worker may take from the pipeline")]
    NoWorker,
    /// 2^20 requests of the caller were accepted, or with this one their bytes exceed 2^26.
    #[error("the caller has used its allowance")]
    TooBig,
    /// Memory ran out. The board is as it was.
    #[error("out of memory")]
    Memory,
}

impl From<AllocError> for BoardErr {
    ghost from_gives = { λ _ e. e ≡ BoardErr.Memory };

    fn from(_: AllocError) -> BoardErr {
        BoardErr::Memory
    }
}

/// Pipelines whose jobs any worker runs, and the history of all that happened on them. Contracts see it as that
/// history.
#[derive(Drop)]
pub struct BoardCore<W: Work> {
    pub(crate) alloc: Global,
    pub(crate) log: Vec<BoardEntry<W::Ask>>,
    /// The open pipelines, by their numbers.
    pub(crate) pipes: BTreeMap<u64, Pipeline<W, W::Out>>,
    /// How many pipelines were made, and the number of the next.
    pub(crate) born: u64,
    /// In the run queues of those that may take from a pipeline it stands while it has a job.
    pub(crate) ready: RunQueues,
    /// Queued is each chain of which a request may be passed on.
    pub(crate) passing: RunQueue,
    /// For how many entries room is kept in `log`, since they may not be refused for want of memory.
    pub(crate) owed: usize,
    shut: bool,
    /// What each caller has used of its allowance.
    pub(crate) used: BTreeMap<u32, Used>,
}

impl<W: Work> Model for BoardCore<W> {
    ghost use Rattle.std.specs.Prelude.{◌≡◌, ◌+◌, ◌≤◌, List, if◌then◌else◌};
    ghost use Rattle.std.specs.Vec.{vec_len, vec_capacity};
    ghost use Rattle.board.specs.declared.entry.BoardEntry.{BoardEntry};

    ghost Value = { List (BoardEntry W.Ask) };

    ghost use Rattle.board.specs.Legal.{is_shut};
    ghost use Rattle.board.specs.Places.{places};
    ghost use Rattle.board.specs.Kept.{IsKeptBoard, owed_by};
    ghost use Rattle.board.specs.Allowance.{IsKeptUsed};
    ghost use Rattle.board.specs.RunQueue.{IsChain, HasRequest, IsReadyFor};
    ghost use Rattle.board.specs.RunQueues.{AreReady};

    ghost view = { λ b. b.log.items };

    ghost invariant = { λ b. IsKeptBoard W.asked W.meaning (places b.pipes) b.born b.log.items
        × (is_shut b.log.items ≡ b.shut)
        × (vec_len b.log + b.owed ≤ vec_capacity b.log)
        × (b.owed ≡ owed_by b.pipes + (if b.shut then 0 else 1))
        × IsKeptUsed W.weight b.used b.log.items
        × AreReady (places b.pipes) b.ready
        × IsReadyFor IsChain HasRequest (places b.pipes) b.passing };
}

impl<W: Work> Told for BoardCore<W> {
    type Entry = BoardEntry<W::Ask>;

    ghost use Rattle.board.specs.Entries.{caller_of};

    ghost told = { λ board. board };

    ghost by = { caller_of };
}

impl<W: Work> BoardCore<W> {
    /// A board on which nothing happened.
    pub fn new(alloc: Global) -> Result<BoardCore<W>, AllocError>
        ensures { IfOk result (λ board. board ≡ []) }
    {
        let mut log = Vec::new(alloc);
        log.reserve(1)?;
        let ready = RunQueues::new(alloc)?;
        Ok(BoardCore {
            alloc,
            log,
            pipes: BTreeMap::new(alloc),
            born: 0,
            ready,
            passing: RunQueue::new(alloc),
            owed: 1,
            shut: false,
            used: BTreeMap::new(alloc),
        })
    }

    /// Lets others than the caller submit to a pipeline that it made, which isn't closed. Only want of memory refuses,
    /// and leaves the board as it was.
    pub fn share(&mut self, caller: u32, pipe: u64) -> Result<(), BoardErr>
        requires caller { MayManage (entries_of pipe self.old) caller }
        requires pipe { IsOpen (entries_of pipe self.old) }
        ensures shared { MatchResult result (λ _. self.new ≡ self.old ++ Entry.Share caller pipe ∷ []) (λ _. self.new ≡ self.old) }
        ensures refused { IfErr result (λ e. e ≡ BoardErr.Memory) }
        ensures legal { LegalBoard self.new }
    {
        reserve_entries(&mut self.log, self.owed, 1)?;
        let place = self.pipes.get_mut(&pipe).unwrap();
        place.shared = true;
        self.log.push_reserved(BoardEntry::Share { caller, pipe });
        Ok(())
    }

    /// Closes a pipeline that the caller made and shared with nobody, of which all is finished and handed out. No
    /// memory is taken.
    pub fn close(&mut self, caller: u32, pipe: u64)
        requires caller { MayManage (entries_of pipe self.old) caller }
        requires pipe { IsOpen (entries_of pipe self.old) }
        requires alone { is_shared (entries_of pipe self.old) ≡ false }
        requires finished { front (entries_of pipe self.old) ≡ length (submissions (entries_of pipe self.old)) }
        requires collected { collected (entries_of pipe self.old) ≡ length (told (entries_of pipe self.old)) }
        ensures closed { self.new ≡ self.old ++ Entry.Close caller pipe ∷ [] }
        ensures legal { LegalBoard self.new }
    {
        self.pipes.remove(&pipe);
        self.ready.leave(caller, pipe);
        self.passing.leave(pipe);
        self.log.push_reserved(BoardEntry::Close { caller, pipe });
        self.owed -= 1;
    }

    /// Shuts the board, by caller 0, once. No memory is taken.
    pub fn shut(&mut self, caller: u32)
        requires caller { caller ≡ 0 }
        requires once { is_shut self.old ≡ false }
        ensures shut { self.new ≡ self.old ++ Entry.Shut caller ∷ [] }
        ensures legal { LegalBoard self.new }
    {
        self.log.push_reserved(BoardEntry::Shut { caller });
        self.owed -= 1;
        self.shut = true;
    }

    /// Whether the board is shut.
    pub fn is_shut(&mut self, _caller: u32) -> bool
        ensures shut { result ≡ is_shut self.old }
        ensures unchanged { self.new ≡ self.old }
    {
        self.shut
    }

    /// Shows that the board's history is legal, as it is at any time. It does nothing.
    pub fn is_legal(&self)
        ensures { LegalBoard self.now }
    {
        let _log = &self.log;
    }

    /// The history, at the board's end. No memory is taken.
    pub fn finish_all(self) -> BoardLog<W::Ask>
        ensures history { result ≡ self }
        ensures legal { LegalBoard result }
    {
        BoardLog::of(self.log)
    }
}
