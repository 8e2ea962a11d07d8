//! The run queues in which callers find the pipelines whose jobs they may take.

ghost use Rattle.std.specs.Prelude.{◌≡◌, ◌≢◌, ℕ, true, OnOk};
ghost use Rattle.board.specs.declared.pipeline.Pipeline.{Pipeline};
ghost use Rattle.board.specs.Entries.{has, IsMasked};
ghost use Rattle.board.specs.Places.{places};
ghost use Rattle.board.specs.RunQueue.{IsMember, IsQueued, HasJob, IsNoQueue, IsFor, HasJobFor, Keeps, KeepsOthers, KeepsSuch, Finds, FindsInBoth};
ghost use Rattle.board.specs.RunQueues.{queue_for, AreMade, IsMade, Joins, AreTold, OwnAreTold, LetsGo, IsReadmitted, AreReady};

use crate::mask::is_masked;
use crate::next_pipeline::next_for;
use crate::pipeline::Pipeline;
use crate::run_queue::RunQueue;
use std::alloc::{AllocError, Global};
use std::collections::BTreeMap;
use std::marker::Model;

/// The callers 1 to so many are workers.
const WORKERS: u32 = 16;

/// The callers below this are the first caller and the workers.
const FIRST: u32 = 17;

/// A caller's own run queue. Its members are the pads and chains from which the caller may take.
#[derive(Drop)]
pub(crate) struct CallerQueue {
    pub(crate) queue: RunQueue,
    /// Whether the caller looked for a queue first when it last looked for a job.
    pub(crate) queue_first: bool,
}

impl CallerQueue {
    fn new(alloc: Global) -> CallerQueue {
        CallerQueue {
            queue: RunQueue::new(alloc),
            queue_first: false,
        }
    }
}

/// The run queues of all callers: in one stand the queues, which everybody serves, and each caller that may take from a
/// pad or a chain has its own. What a pipeline's job changes are the run queues of its maker, its submitters and its
/// workers alone.
#[derive(Drop)]
pub(crate) struct RunQueues {
    alloc: Global,
    queues: RunQueue,
    /// Those of the callers 0 to 16, each at its caller's number: the first caller and the workers, since each job
    /// visits these.
    first: Vec<CallerQueue>,
    /// Those of the other callers that may take from a pad or a chain.
    others: BTreeMap<u32, CallerQueue>,
}

impl Model for RunQueues {
    ghost use Rattle.board.specs.RunQueues.{QueuesState};

    ghost Value = { QueuesState };

    ghost view = { λ l. record { queues = l.queues; own = record { first = l.first.items; others = l.others.entries } } };
}

impl RunQueues {
    /// Run queues without members.
    pub(crate) fn new(alloc: Global) -> Result<RunQueues, AllocError> {
        let mut first = Vec::new(alloc);
        for _ in 0..FIRST {
            first.push(CallerQueue::new(alloc))?;
        }
        Ok(RunQueues {
            alloc,
            queues: RunQueue::new(alloc),
            first,
            others: BTreeMap::new(alloc),
        })
    }

    /// Makes a new pipeline a member of the run queues of those that may take from it. Want of memory leaves it out of
    /// all run queues.
    pub(crate) fn enter<J: Drop, F: Drop>(
        &mut self,
        pipe: u64,
        new: &Pipeline<J, F>,
    ) -> Result<(), AllocError>
        ensures others { IsMade (KeepsOthers pipe) self.old self.new }
        ensures joined { OnOk result (Joins pipe new.now self.new) }
    {
        let joined = self.join_all(pipe, new);
        if joined.is_err() {
            self.leave(new.maker, pipe);
        }
        joined
    }

    /// Makes a new pipeline a member of the run queues of those that may take from it. Want of memory leaves it in
    /// some.
    fn join_all<J: Drop, F: Drop>(
        &mut self,
        pipe: u64,
        new: &Pipeline<J, F>,
    ) -> Result<(), AllocError>
        ensures kept { IsMade Keeps self.old self.new }
        ensures joined { OnOk result (Joins pipe new.now self.new) }
    {
        if new.stage.is_queue() {
            return self.queues.join(pipe);
        }
        self.join(new.maker, pipe, false)?;
        self.join_workers(new.mask, pipe)
    }

    /// From now on the caller may take from a pad or a chain, which has a job or not. Want of memory changes nothing
    /// that is seen.
    fn join(&mut self, caller: u32, pipe: u64, has_job: bool) -> Result<(), AllocError>
        ensures kept { IsMade Keeps self.old self.new }
        ensures joined { OnOk result (IsMember (queue_for caller self.new.own) pipe) }
        ensures queued { OnOk result (has_job ≡ true → IsQueued (queue_for caller self.new.own) pipe) }
    {
        let place = caller as usize;
        if place < self.first.len() {
            return self.first[place].queue.admit(pipe, has_job);
        }
        if let Some(own) = self.others.get_mut(&caller) {
            return own.queue.admit(pipe, has_job);
        }
        let mut own = CallerQueue::new(self.alloc);
        own.queue.admit(pipe, has_job)?;
        self.others.insert(caller, own)?;
        Ok(())
    }

    /// From now on the caller may take from the pipeline. From a queue everybody may. Want of memory changes nothing
    /// that is seen.
    pub(crate) fn admit<J: Drop, F: Drop>(
        &mut self,
        caller: u32,
        pipe: u64,
        place: &Pipeline<J, F>,
    ) -> Result<(), AllocError>
        ensures kept { IsMade Keeps self.old self.new }
        ensures joined { OnOk result (IsNoQueue place.now → IsMember (queue_for caller self.new.own) pipe) }
        ensures queued { OnOk result (IsNoQueue place.now → HasJob place.now → IsQueued (queue_for caller self.new.own) pipe) }
    {
        if place.stage.is_queue() {
            return Ok(());
        }
        self.join(caller, pipe, place.stage.may_serve())
    }

    /// From now on the workers whose bits are set may take from a pad or a chain. Want of memory leaves it in the run
    /// queues of some.
    pub(crate) fn join_workers(&mut self, mask: u16, pipe: u64) -> Result<(), AllocError>
        ensures kept { IsMade Keeps self.old self.new }
        ensures joined { OnOk result ((worker : ℕ) → IsMasked mask worker → IsMember (queue_for worker self.new.own) pipe) }
    {
        for before in 0..WORKERS {
            self.join_worker(before + 1, mask, pipe)?;
        }
        Ok(())
    }

    /// From now on the worker may take from a pad or a chain, where its bit is set. Want of memory changes nothing that
    /// is seen.
    fn join_worker(&mut self, worker: u32, mask: u16, pipe: u64) -> Result<(), AllocError>
        ensures kept { IsMade Keeps self.old self.new }
        ensures joined { OnOk result (IsMasked mask worker → IsMember (queue_for worker self.new.own) pipe) }
    {
        if is_masked(mask, worker) {
            return self.join(worker, pipe, false);
        }
        Ok(())
    }

    /// Nobody takes any more from a pipeline that this caller made and nobody else submitted to. No memory is taken.
    pub(crate) fn leave(&mut self, maker: u32, pipe: u64)
        ensures { IsMade (KeepsOthers pipe) self.old self.new }
    {
        self.queues.leave(pipe);
        self.leave_own(maker, pipe);
        self.leave_workers(pipe);
    }

    /// The pipeline is no member of the workers' run queues any more.
    fn leave_workers(&mut self, pipe: u64)
        ensures queues { self.new.queues ≡ self.old.queues }
        ensures made { AreMade (KeepsOthers pipe) self.old.own self.new.own }
    {
        for before in 0..WORKERS {
            self.leave_own(before + 1, pipe);
        }
    }

    /// The pipeline is no member of this caller's run queue any more. A run queue without members is given back, unless
    /// its caller is among the first.
    fn leave_own(&mut self, caller: u32, pipe: u64)
        ensures queues { self.new.queues ≡ self.old.queues }
        ensures made { AreMade (KeepsOthers pipe) self.old.own self.new.own }
        ensures others { (c : ℕ) → c ≢ caller → queue_for c self.new.own ≡ queue_for c self.old.own }
    {
        let place = caller as usize;
        if place < self.first.len() {
            self.first[place].queue.leave(pipe);
            return;
        }
        let Some(own) = self.others.get_mut(&caller) else {
            return;
        };
        own.queue.leave(pipe);
        if own.queue.is_empty() {
            drop(self.others.remove(&caller));
        }
    }

    /// Tells the run queues of those that may take from the pipeline whether it has a job now, where it had one before
    /// or not. No memory is taken.
    pub(crate) fn set_ready<J: Drop, F: Drop>(
        &mut self,
        pipe: u64,
        place: &Pipeline<J, F>,
        had_job: bool,
        has_job: bool,
    )
        ensures { AreTold pipe place.now had_job has_job self.old self.new }
    {
        if had_job == has_job {
            return;
        }
        if place.stage.is_queue() {
            self.queues.set(pipe, has_job);
        } else {
            self.tell_own(pipe, place, has_job);
        }
    }

    /// Tells the run queues of the maker of a pad or a chain, of its submitters and of its workers whether it has a
    /// job.
    fn tell_own<J: Drop, F: Drop>(&mut self, pipe: u64, place: &Pipeline<J, F>, has_job: bool)
        ensures { OwnAreTold (λ c. IsFor c place.now) pipe has_job self.old self.new }
    {
        self.tell_one(place.maker, pipe, has_job);
        self.tell_each(&place.submitters, pipe, has_job);
        self.tell_workers(place.mask, pipe, has_job);
    }

    /// Tells the run queues of these callers.
    fn tell_each(&mut self, callers: &[u32], pipe: u64, has_job: bool)
        ensures { OwnAreTold (λ c. has c callers.now ≡ true) pipe has_job self.old self.new }
    {
        for caller in callers {
            self.tell_one(*caller, pipe, has_job);
        }
    }

    /// Tells the run queues of the workers whose bits are set.
    fn tell_workers(&mut self, mask: u16, pipe: u64, has_job: bool)
        ensures { OwnAreTold (λ c. IsMasked mask c) pipe has_job self.old self.new }
    {
        for before in 0..WORKERS {
            self.tell_worker(before + 1, mask, pipe, has_job);
        }
    }

    /// Tells the worker's run queue, where its bit is set.
    fn tell_worker(&mut self, worker: u32, mask: u16, pipe: u64, has_job: bool)
        ensures { OwnAreTold (λ c. (c ≡ worker) × IsMasked mask c) pipe has_job self.old self.new }
    {
        if is_masked(mask, worker) {
            self.tell_one(worker, pipe, has_job);
        }
    }

    /// Tells the caller's run queue.
    fn tell_one(&mut self, caller: u32, pipe: u64, has_job: bool)
        ensures { OwnAreTold (λ c. c ≡ caller) pipe has_job self.old self.new }
    {
        let place = caller as usize;
        if place < self.first.len() {
            self.first[place].queue.set(pipe, has_job);
        } else if let Some(own) = self.others.get_mut(&caller) {
            own.queue.set(pipe, has_job);
        }
    }

    /// Tells the callers' own run queues which of them a pad with a new mask admits. No memory is taken.
    pub(crate) fn readmit<J: Drop, F: Drop>(&mut self, pipe: u64, place: &Pipeline<J, F>)
        ensures queues { self.new.queues ≡ self.old.queues }
        ensures own { (caller : ℕ) → IsReadmitted pipe place.now caller (queue_for caller self.old.own) (queue_for caller self.new.own) }
    {
        self.expel_workers(pipe, place);
        self.tell_own(pipe, place, place.stage.may_serve());
    }

    /// A pad is no member any more of the run queues of the workers that it doesn't admit.
    fn expel_workers<J: Drop, F: Drop>(&mut self, pipe: u64, place: &Pipeline<J, F>)
        ensures { LetsGo pipe place.now self.old self.new }
    {
        for before in 0..WORKERS {
            self.expel(before + 1, pipe, place);
        }
    }

    /// The pad is no member of the worker's run queue any more, where it doesn't admit that worker.
    fn expel<J: Drop, F: Drop>(&mut self, worker: u32, pipe: u64, place: &Pipeline<J, F>)
        ensures { LetsGo pipe place.now self.old self.new }
    {
        if !place.admits(worker) {
            self.leave_own(worker, pipe);
        }
    }

    /// Finds a pipeline of which this caller may take a job. Queues, and pads and chains, have their turns at being
    /// looked for first.
    pub(crate) fn next_job<J: Drop, F: Drop>(
        &mut self,
        pipes: &BTreeMap<u64, Pipeline<J, F>>,
        caller: u32,
    ) -> Option<u64>
        requires ready { AreReady (places pipes.now) self.old }
        ensures ready { AreReady (places pipes.now) self.new }
        ensures next { Finds (HasJobFor caller) (places pipes.now) result }
    {
        let place = caller as usize;
        if place < self.first.len() {
            return next_of(pipes, &mut self.queues, &mut self.first[place], caller);
        }
        match self.others.get_mut(&caller) {
            Some(own) => next_of(pipes, &mut self.queues, own, caller),
            None => next_for(pipes, &mut self.queues, caller),
        }
    }
}

/// Finds a pipeline of which the caller may take a job, in the queues' run queue and in its own, of which each is
/// looked into first in turn.
fn next_of<J: Drop, F: Drop>(
    pipes: &BTreeMap<u64, Pipeline<J, F>>,
    queues: &mut RunQueue,
    own: &mut CallerQueue,
    caller: u32,
) -> Option<u64>
    ensures queues { KeepsSuch (HasJobFor caller) (places pipes.now) queues.old queues.new }
    ensures own { KeepsSuch (HasJobFor caller) (places pipes.now) own.old.queue own.new.queue }
    ensures next { FindsInBoth (HasJobFor caller) (places pipes.now) queues.old own.old.queue result }
{
    own.queue_first = !own.queue_first;
    if own.queue_first {
        next_in(pipes, queues, &mut own.queue, caller)
    } else {
        next_in(pipes, &mut own.queue, queues, caller)
    }
}

/// Finds a pipeline of which the caller may take a job, in one run queue or else in another.
fn next_in<J: Drop, F: Drop>(
    pipes: &BTreeMap<u64, Pipeline<J, F>>,
    first: &mut RunQueue,
    second: &mut RunQueue,
    caller: u32,
) -> Option<u64>
    ensures first { KeepsSuch (HasJobFor caller) (places pipes.now) first.old first.new }
    ensures second { KeepsSuch (HasJobFor caller) (places pipes.now) second.old second.new }
    ensures next { FindsInBoth (HasJobFor caller) (places pipes.now) first.old second.old result }
{
    if let Some(k) = next_for(pipes, first, caller) {
        return Some(k);
    }
    next_for(pipes, second, caller)
}
