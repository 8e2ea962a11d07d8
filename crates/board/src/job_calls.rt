//! How workers take a board's jobs, finish them, and pass the requests of chains on.

ghost use Rattle.std.specs.Prelude.{◌≡◌, ℕ, false, [], ◌∷◌, ◌++◌, slice_get, Some, IfSome, MatchBool, MatchOption};
ghost use Rattle.board.specs.Shapes.{is_chain};
ghost use Rattle.board.specs.Entries.{entries_of, submissions, takers, finished, has, meaning_at, take_entry, finish_entry, pass_entry, NoneFor, NonePasses};
ghost use Rattle.board.specs.Legal.{Is, MayFinish, LegalBoard};

use crate::board_core::BoardCore;
use crate::entry::BoardEntry;
use crate::next_pipeline::next_request;
use crate::work::Work;
use request_queue::Served;
use std::marker::Model;

/// The right, and the duty, to finish one job. It can be given to `finish` alone: a value that is let go, or taken
/// apart, is refused.
pub struct Slip {
    pipe: u64,
    number: u64,
}

impl Model for Slip {
    ghost use Rattle.board.specs.Slips.{SlipOf};

    ghost Value = { SlipOf };

    ghost view = { λ s. record { pipe = s.pipe; number = s.number } };
}

impl Slip {
    /// The job's pipeline.
    pub fn pipe(&self) -> u64
        ensures { result ≡ self.now.pipe }
    {
        self.pipe
    }
}

/// A job to be run, and the slip that is spent on its outcome.
pub struct Taken<W> {
    pub slip: Slip,
    pub job: W,
}

impl<W: Work> BoardCore<W> {
    /// Hands out a job of a pipeline that has one for this caller: of a pad, or of the pad within a chain, the first
    /// that nobody has taken, where the caller made the pipeline, submitted to it, or is a worker in its mask; of a
    /// queue the first that waits, where the queue is neither held nor busy. `None` exactly where there is none. No
    /// memory is taken.
    pub fn take(&mut self, caller: u32) -> Option<Taken<W>>
        ensures taken { MatchOption result
            ((self.new ≡ self.old) × NoneFor self.old caller)
            (λ t. (self.new ≡ self.old ++ take_entry self.old caller t.slip.pipe t.slip.number ∷ [])
            × (slice_get (submissions (entries_of t.slip.pipe self.old)) t.slip.number ≡ Some (W.asked t.job))) }
        ensures ready { IfSome result
            (λ t. MayFinish W.meaning (entries_of t.slip.pipe self.new) caller t.slip.number (W.meaning (W.asked t.job))) }
        ensures legal { LegalBoard self.new }
    {
        let pipe = self.ready.next_job(&self.pipes, caller)?;
        let place = self.pipes.get_mut(&pipe).unwrap();
        let Served {
            number,
            item: job,
            started,
        } = place.stage.take()?;
        let entry = place.stage.take_entry(caller, pipe, number, started);
        let has_job = place.stage.may_serve();
        self.log.push_reserved(entry);
        self.owed -= 1;
        self.ready.set_ready(pipe, place, true, has_job);
        Some(Taken {
            slip: Slip { pipe, number },
            job,
        })
    }

    /// Records the outcome of a job that this caller took and hasn't finished: what the job's ask means. No memory is
    /// taken.
    pub fn finish(&mut self, caller: u32, slip: Slip, out: W::Out)
        requires took { takers slip.number (entries_of slip.pipe self.old) ≡ caller ∷ [] }
        requires once { has slip.number (finished (entries_of slip.pipe self.old)) ≡ false }
        requires right { meaning_at W.meaning (submissions (entries_of slip.pipe self.old)) slip.number ≡ Some out }
        ensures finished { self.new ≡ self.old ++ finish_entry self.old caller slip.pipe slip.number ∷ [] }
        ensures legal { LegalBoard self.new }
    {
        let Slip { pipe, number } = slip;
        let place = self.pipes.get_mut(&pipe).unwrap();
        let had_job = place.stage.may_serve();
        place.stage.finish(number, out);
        let has_job = place.stage.may_serve();
        let entry = place.stage.finish_entry(caller, pipe, number);
        self.log.push_reserved(entry);
        self.owed -= 1;
        self.ready.set_ready(pipe, place, had_job, has_job);
    }

    /// The first request of a chain's queue goes on to its pad, where the chain isn't held. False exactly where there
    /// is no such chain. No memory is taken.
    pub fn pass_on(&mut self, caller: u32) -> bool
        ensures passed { MatchBool result
            ((p : ℕ) × Is is_chain (entries_of p self.old) × (self.new ≡ self.old ++ pass_entry self.old caller p ∷ []))
            (NonePasses self.old × (self.new ≡ self.old)) }
        ensures legal { LegalBoard self.new }
    {
        let Some(pipe) = next_request(&self.pipes, &mut self.passing) else {
            return false;
        };
        let place = self.pipes.get_mut(&pipe).unwrap();
        let had_job = place.stage.may_serve();
        let Some((number, started)) = place.stage.pass_on() else {
            return false;
        };
        let has_job = place.stage.may_serve();
        let may_pass = place.stage.may_pass();
        self.log.push_reserved(BoardEntry::Deq {
            caller,
            pipe,
            number,
            started,
        });
        self.owed -= 1;
        self.ready.set_ready(pipe, place, had_job, has_job);
        self.passing.set(pipe, may_pass);
        true
    }
}
