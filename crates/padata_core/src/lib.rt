//! padata: jobs that run in any order, and whose outcomes come in the order in which the jobs were submitted.
#![tactic(auto)]

pub mod laws;
mod row;
mod rows;

ghost use Rattle.std.specs.Prelude.{◌≡◌, ℕ, ◌+◌, ◌-◌, ◌^◌, ◌<◌, ◌≤◌, List, [], ◌∷◌, ◌++◌, length, slice_get, slice_set, Some, None, IfOk, OnOk, OnErr, IfSome, MatchOption, MatchBool, nat_lt};
ghost use Rattle.std.specs.VecDeque.{deque_len, deque_capacity};
ghost use Rattle.padata_core.specs.Pad.{taken_of, submitted_of, ready, with_taken, emptied, done_from, running_of, on_list};

use crate::row::Row;
use crate::rows::{empty_rows, move_rows, reserve_rows};
use kc_base::{Callback, Callbacks};
use std::alloc::{AllocError, Global};
use std::collections::VecDeque;
use std::marker::Model;

/// A pipeline. Its jobs are numbered from 0 as they are submitted, taken one by one, finished in any order, and
/// collected in order. The outcome of number n waits on the list n mod lists, and each list is sorted.
#[derive(Drop)]
pub struct Padata<J, F> {
    alloc: Global,
    lists: u32,
    collected: u64,
    taken: u64,
    running: usize,
    rows: Vec<Row<F>>,
    room: usize,
    waiting: VecDeque<J>,
    spare: usize,
}

impl<J, F> Model for Padata<J, F> {
    ghost use Rattle.std.specs.Prelude.{◌≡◌, ◌+◌, ◌-◌, ◌*◌, ◌≤◌, ◌^◌};
    ghost use Rattle.std.specs.VecDeque.{deque_len, deque_capacity};
    ghost use Rattle.padata_core.specs.Pad.{Pad, AreRows, kept_at, outcomes_from, running_of};

    ghost Value = { Pad J F };

    ghost view = { λ p. record {
      lists = p.lists;
      collected = p.collected;
      outcomes = outcomes_from (kept_at p.rows.items p.lists) p.collected (p.taken - p.collected);
      waiting = p.waiting.items;
      spare = p.spare;
    } };

    ghost invariant = { λ p. AreRows p.rows.items p.lists p.collected p.taken p.room
        × (p.collected ≤ p.taken)
        × (p.running ≡ running_of (outcomes_from (kept_at p.rows.items p.lists) p.collected (p.taken - p.collected)))
        × (p.taken + deque_len p.waiting ≤ 2 ^ 63)
        × (deque_len p.waiting + p.spare ≤ deque_capacity p.waiting)
        × ((p.taken - p.collected) + deque_len p.waiting + p.spare ≤ p.room * p.lists) };
}

impl<J: Drop, F: Drop> Padata<J, F> {
    /// An empty pipeline of `lists` reorder lists, at least 1, with room for no job. Only want of memory is an error.
    pub fn new(alloc: Global, lists: u32) -> Result<Padata<J, F>, AllocError>
        requires { 1 ≤ lists }
        ensures { IfOk result (λ pad. pad ≡ record { lists = lists; collected = 0; outcomes = []; waiting = []; spare = 0 }) }
    {
        let rows = empty_rows(alloc, lists)?;
        Ok(Padata {
            alloc,
            lists,
            collected: 0,
            taken: 0,
            running: 0,
            rows,
            room: 0,
            waiting: VecDeque::new(alloc),
            spare: 0,
        })
    }

    /// Makes room for `n` more jobs at least, on each list for its share of them: `submit`, `take`, `finish` and
    /// `collect` of these take no memory. Want of memory leaves the pipeline as it was.
    pub fn reserve(&mut self, n: usize) -> Result<(), AllocError>
        ensures same { self.old ≡ record self.new { spare = self.old.spare } }
        ensures room { OnOk result (n ≤ self.new.spare) }
        ensures kept { self.old.spare ≤ self.new.spare }
    {
        if n <= self.spare {
            return Ok(());
        }
        // At least as many as there are, so that no list is looked at for most jobs: whoever finishes one writes to its
        // list.
        let uncollected = self.uncollected();
        let spare = n.max(uncollected);
        self.waiting.reserve(spare)?;
        let Some(total) = spare.checked_add(uncollected) else {
            return Err(AllocError);
        };
        let Some(share) = (total / self.lists as usize).checked_add(1) else {
            return Err(AllocError);
        };
        reserve_rows(&mut self.rows, share)?;
        self.room = share;
        self.spare = spare;
        Ok(())
    }

    /// Takes a job in, and gives it the next number. There must be room for one, and fewer than 2^63 were submitted.
    pub fn submit(&mut self, job: J) -> u64
        requires spare { 1 ≤ self.old.spare }
        requires number { submitted_of self.old < 2 ^ 63 }
        ensures number { result ≡ submitted_of self.old }
        ensures submitted { self.new ≡ record self.old { waiting = self.old.waiting ++ job ∷ []; spare = self.old.spare - 1 } }
    {
        let number = self.taken + self.waiting.len() as u64;
        let _ = self.waiting.push_back(job);
        self.spare -= 1;
        number
    }

    /// Hands out the job of the least number that nobody has taken, or `None` exactly where there is none.
    pub fn take(&mut self) -> Option<(u64, J)>
        ensures { MatchOption result
            ((self.old.waiting ≡ []) × (self.new ≡ self.old))
            (λ taken. (taken.0 ≡ taken_of self.old)
            × (self.old.waiting ≡ taken.1 ∷ self.new.waiting)
            × (self.new ≡ with_taken self.old self.new.waiting)) }
    {
        let job = self.waiting.pop_front()?;
        let number = self.taken;
        self.taken += 1;
        self.running += 1;
        Some((number, job))
    }

    /// Records the outcome of a job that runs, on the list of its number: the number is taken, and not finished.
    pub fn finish(&mut self, number: u64, out: F)
        requires low { self.old.collected ≤ number }
        requires high { number < taken_of self.old }
        requires runs { slice_get self.old.outcomes (number - self.old.collected) ≡ Some None }
        ensures { self.new ≡ record self.old { outcomes = slice_set self.old.outcomes (number - self.old.collected) (Some out) } }
    {
        let list = (number % self.lists as u64) as usize;
        let row = &mut self.rows[list];
        row.put(number, out);
        self.running -= 1;
    }

    /// How many were submitted and not collected.
    pub fn uncollected(&self) -> usize
        ensures { result ≡ length self.now.outcomes + length self.now.waiting }
    {
        (self.taken - self.collected) as usize + self.waiting.len()
    }

    /// How many were submitted and are not finished.
    pub fn unfinished(&self) -> usize
        ensures { result ≡ running_of self.now.outcomes + length self.now.waiting }
    {
        self.running + self.waiting.len()
    }

    /// How many are finished and not collected: as many as a collect hands out, at most.
    pub fn finished(&self) -> usize
        ensures exact { result + running_of self.now.outcomes ≡ length self.now.outcomes }
        ensures enough { length (ready self.now.outcomes) ≤ result }
    {
        (self.taken - self.collected) as usize - self.running
    }

    /// Whether each job that was submitted is done.
    pub fn is_done(&self) -> bool
        ensures { MatchBool result
            (submitted_of self.now ≡ self.now.collected + length (ready self.now.outcomes))
            (self.now.collected + length (ready self.now.outcomes) < submitted_of self.now) }
    {
        self.running == 0 && self.waiting.is_empty()
    }

    /// Whether a number is still untaken.
    pub fn has_waiting(&self) -> bool
        ensures { result ≡ nat_lt 0 (length self.now.waiting) }
    {
        !self.waiting.is_empty()
    }

    /// How many were submitted.
    pub fn submitted(&self) -> u64
        ensures { result ≡ submitted_of self.now }
    {
        self.taken + self.waiting.len() as u64
    }

    /// How many were collected: the number that is handed out next.
    pub fn collected(&self) -> u64
        ensures { result ≡ self.now.collected }
    {
        self.collected
    }

    /// How many reorder lists there are.
    pub fn lists(&self) -> u32
        ensures { result ≡ self.now.lists }
    {
        self.lists
    }

    /// The reorder list `k`, below `lists`: the numbers n that are finished and not collected, of which n mod lists is
    /// k, in rising order, each with its outcome.
    pub fn list(&self, k: u32) -> &VecDeque<(u64, F)>
        requires { k < self.now.lists }
        ensures { result.now.items ≡ on_list self.now k }
    {
        let row = &self.rows[k as usize];
        row.entries()
    }

    /// Hands out the outcome of the first number that isn't collected, where its job is done.
    pub fn collect_next(&mut self) -> Option<(u64, F)>
        ensures { MatchOption result
            ((ready self.old.outcomes ≡ []) × (self.new ≡ self.old))
            (λ r. (r.0 ≡ self.old.collected)
            × (self.old.outcomes ≡ Some r.1 ∷ self.new.outcomes)
            × (self.new ≡ record self.old { collected = self.old.collected + 1; outcomes = self.new.outcomes })) }
    {
        let list = (self.collected % self.lists as u64) as usize;
        let row = &mut self.rows[list];
        let out = row.take_first(self.collected)?;
        let number = self.collected;
        self.collected += 1;
        Some((number, out))
    }

    /// Hands out the outcomes from the first number that isn't collected up to the first whose job isn't done. `into`
    /// must have room for them.
    pub fn collect(&mut self, into: &mut Callbacks<F>)
        requires { length (ready self.old.outcomes) ≤ into.old.spare }
        ensures handed { into.new.list ≡ into.old.list ++ done_from self.old.collected (ready self.old.outcomes) }
        ensures spare { into.new.spare + length (ready self.old.outcomes) ≡ into.old.spare }
        ensures collected { self.new ≡ emptied self.old }
        ensures rest { length (ready self.old.outcomes) + length self.new.outcomes ≡ length self.old.outcomes }
        ensures front { ready self.new.outcomes ≡ [] }
    {
        while let Some((number, out)) = self.collect_next() {
            into.push(Callback::Done(number, out));
        }
    }

    /// From now on the outcome of number n waits on the list n mod `lists`, at least 1, and the finished ones move
    /// there. There is room for what is not collected and for as many further jobs as before. Want of memory changes
    /// nothing.
    pub fn remask(&mut self, lists: u32) -> Result<(), AllocError>
        requires { 1 ≤ lists }
        ensures ok { OnOk result (self.new ≡ record self.old { lists = lists }) }
        ensures err { OnErr result (self.new ≡ self.old) }
    {
        let mut rows = empty_rows(self.alloc, lists)?;
        let Some(total) = self.uncollected().checked_add(self.spare) else {
            return Err(AllocError);
        };
        let Some(share) = (total / lists as usize).checked_add(1) else {
            return Err(AllocError);
        };
        reserve_rows(&mut rows, share)?;
        move_rows(
            &mut self.rows,
            &mut rows,
            self.lists,
            lists,
            self.collected,
            self.taken,
            self.room,
            share,
        );
        self.rows = rows;
        self.lists = lists;
        self.room = share;
        Ok(())
    }
}
