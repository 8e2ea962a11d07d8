//! Run queues: pipelines that may have a job to run, or a request to pass on.

ghost use Rattle.std.specs.Prelude.{◌≡◌, ◌==◌, ℕ, ◌<◌, ◌≤◌, true, false, length, slice_get, Some, OnOk, IfSome, MatchOption, nat_eq, position};
ghost use Rattle.board.specs.RunQueue.{IsMember, IsQueued, no_pipelines, Keeps, KeepsPipe, KeepsOthers, IsTold};

use indexmap::IndexSet;
use std::alloc::{AllocError, Global};
use std::marker::Model;

/// So many members are few: a number is looked for among them one by one, which takes less time than to hash it.
const FEW: usize = 8;

/// The pipelines, by their numbers, that may stand in a run queue. To set one queued, or to take it out, two of them
/// change places.
#[derive(Drop)]
pub(crate) struct RunQueue {
    members: IndexSet<u64>,
    /// So many of the first members are queued.
    ready: usize,
    /// The place that is looked at next, or past the run queue's end, where the first one is: so the members queued
    /// take turns.
    cursor: usize,
}

impl Model for RunQueue {
    ghost use Rattle.std.specs.Prelude.{◌≤◌, length};
    ghost use Rattle.board.specs.RunQueue.{QueueState};

    ghost Value = { QueueState };

    ghost view = { λ r. record { members = r.members.keys; ready = r.ready } };

    ghost invariant = { λ r. r.ready ≤ length r.members.keys };
}

impl RunQueue {
    /// A run queue without members.
    pub(crate) fn new(alloc: Global) -> RunQueue
        ensures { result ≡ no_pipelines }
    {
        RunQueue {
            members: IndexSet::new(alloc),
            ready: 0,
            cursor: 0,
        }
    }

    /// Whether it has no members.
    pub(crate) fn is_empty(&self) -> bool
        ensures { result ≡ (length self.now.members == 0) }
    {
        self.members.is_empty()
    }

    /// From now on the pipeline is a member. A new member isn't queued. Want of memory changes nothing.
    pub(crate) fn join(&mut self, pipe: u64) -> Result<(), AllocError>
        ensures kept { Keeps self.old self.new }
        ensures joined { OnOk result (IsMember self.new pipe) }
    {
        if place_of(&self.members, pipe).is_some() {
            return Ok(());
        }
        self.members.insert(pipe)?;
        Ok(())
    }

    /// From now on the pipeline is a member, and is queued where it is ready. Want of memory changes nothing.
    pub(crate) fn admit(&mut self, pipe: u64, ready: bool) -> Result<(), AllocError>
        ensures kept { Keeps self.old self.new }
        ensures joined { OnOk result (IsMember self.new pipe) }
        ensures queued { OnOk result (ready ≡ true → IsQueued self.new pipe) }
    {
        self.join(pipe)?;
        if ready {
            self.add(pipe);
        }
        Ok(())
    }

    /// The pipeline is no member any more. No memory is taken.
    pub(crate) fn leave(&mut self, pipe: u64)
        ensures others { KeepsOthers pipe self.old self.new }
    {
        if let Some(place) = place_of(&self.members, pipe) {
            let last = self.take_out(place);
            self.members.swap_remove_index(last);
        }
    }

    /// Sets a member queued. No memory is taken.
    pub(crate) fn add(&mut self, pipe: u64)
        ensures kept { Keeps self.old self.new }
        ensures added { IsMember self.old pipe → IsQueued self.new pipe }
    {
        if self.ready == self.members.len() {
            return;
        }
        if let Some(place) = place_of(&self.members, pipe) {
            if self.ready <= place {
                self.members.swap_indices(place, self.ready);
                self.ready += 1;
            }
        }
    }

    /// Takes a member out of the run queue. No memory is taken.
    pub(crate) fn remove(&mut self, pipe: u64)
        ensures others { KeepsOthers pipe self.old self.new }
        ensures member { IsMember self.old pipe → IsMember self.new pipe }
        ensures fewer { IsQueued self.old pipe → self.new.ready < self.old.ready }
    {
        if let Some(place) = place_of(&self.members, pipe) {
            self.take_out(place);
        }
    }

    /// Sets a member queued where it is ready. Where it isn't, it leaves the run queue, but among few it stays until
    /// who looks there finds it so: while jobs are taken as soon as they come, no run queue changes then, and none has
    /// to pass from one processor to the next. No memory is taken.
    pub(crate) fn set(&mut self, pipe: u64, ready: bool)
        ensures { IsTold (IsMember self.old pipe) pipe false ready self.old self.new }
    {
        if ready {
            self.add(pipe);
        } else if self.members.len() > FEW {
            self.remove(pipe);
        }
    }

    /// One of the members that are queued. They take turns: each sweep goes over all places, and a member's place only
    /// gets less while it is queued, so it waits for at most so many turns as the square of the members.
    pub(crate) fn next(&mut self) -> Option<u64>
        ensures same { self.new ≡ self.old }
        ensures next { MatchOption result ((p : ℕ) → IsQueued self.old p → ⊥) (λ pipe. IsQueued self.old pipe) }
    {
        if self.ready == 0 {
            return None;
        }
        let place = if self.cursor < self.ready {
            self.cursor
        } else {
            0
        };
        let pipe = *self.members.get_index(place)?;
        self.cursor = place + 1;
        Some(pipe)
    }

    /// Takes the member at this place out of the run queue, and answers its place behind the run queue.
    fn take_out(&mut self, place: usize) -> usize
        requires { place < length self.old.members }
        ensures moved { (p : ℕ) → slice_get self.old.members place ≡ Some p → slice_get self.new.members result ≡ Some p }
        ensures others { (p : ℕ) → (slice_get self.old.members place ≡ Some p → ⊥) → KeepsPipe self.old self.new p }
        ensures behind { self.new.ready ≤ result }
        ensures fewer { place < self.old.ready → self.new.ready < self.old.ready }
    {
        if self.ready <= place {
            return place;
        }
        self.ready -= 1;
        self.members.swap_indices(place, self.ready);
        self.ready
    }
}

/// The place of a pipeline among members.
fn place_of(members: &IndexSet<u64>, pipe: u64) -> Option<usize>
    ensures index { result ≡ position (nat_eq pipe) members.now.keys }
    ensures within { IfSome result (λ place. place < length members.now.keys) }
{
    if members.len() <= FEW {
        return members.iter().position(|member| *member == pipe);
    }
    members.get_index_of(&pipe)
}
