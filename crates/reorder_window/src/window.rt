//! The window, and its calls on one request. None takes memory but `new`.

ghost use Rattle.std.specs.Prelude.{◌≡◌, ◌↔◌, ℕ, ◌+◌, ◌-◌, ◌^◌, min, IsTrue, true, false, List, ◌∷◌, length, IfOk, MatchOption, MatchResult, MatchBool};
ghost use Rattle.reorder_window.specs.Windows.{WindowOf, born, in_flight_of, taken_of, submitted_of, with_submitted, with_taken, with_finished, Accepts, Refuses, HasBacklog, IsMasked, IsLastDone, MayTake, kind_of, NoneFor, IsRunBy, first_is_done, HandsOut};
ghost use Rattle.reorder_window.specs.History.{Event, Submitted, Taken, Finished, Polled, Masked, Held, submissions, polls, numbered, Stands, Adds};

use crate::running::Running;
use std::alloc::{AllocError, Global};
use std::collections::VecDeque;
use std::marker::Model;

/// Why a request isn't taken in.
#[derive(Clone, Copy, Debug, PartialEq, Eq)]
pub enum Refusal {
    /// As many are in flight as there is room for.
    Full,
    /// It would wait in the backlog, and may not.
    NoSpace,
    /// The numbers are at their end: 2^64 - 1 requests were submitted.
    Ended,
}

/// A window. Its requests are numbered from 0 as they are submitted, taken one by one by workers, finished in any
/// order, and handed out in order by polls. It has room for so many in flight, from the beginning on.
#[derive(Drop)]
pub struct Window<R> {
    room: usize,
    /// How many wait before the backlog begins.
    max: usize,
    serial: bool,
    /// How many were handed out.
    polled: u64,
    /// From number `polled` on: those that were taken.
    running: VecDeque<Running<R>>,
    /// Those that nobody took yet.
    waiting: VecDeque<R>,
    /// The workers that may take: bit i stands for worker i.
    mask: u64,
    held: bool,
}

impl<R> Model for Window<R> {
    ghost use Rattle.std.specs.Prelude.{◌+◌, ◌≤◌, ◌<◌, ◌^◌};
    ghost use Rattle.std.specs.VecDeque.{deque_len, deque_capacity};
    ghost use Rattle.reorder_window.specs.Windows.{WindowOf, kind_of};

    ghost Value = { WindowOf R };

    ghost view = { λ f. record {
      kind = kind_of f.room f.max f.serial;
      polled = f.polled;
      running = f.running.items;
      waiting = f.waiting.items;
      mask = f.mask;
      held = f.held;
    } };

    ghost invariant = { λ f. (f.room ≤ deque_capacity f.running)
        × (f.room ≤ deque_capacity f.waiting)
        × (deque_len f.running + deque_len f.waiting ≤ f.room)
        × (f.polled + deque_len f.running + deque_len f.waiting < 2 ^ 64) };
}

/// Whether the worker's bit is set.
fn is_masked(mask: u64, worker: u32) -> bool
    ensures { MatchBool result (IsMasked mask worker) (IsMasked mask worker → ⊥) }
{
    if worker > 63 {
        return false;
    }
    (mask >> worker) & 1 == 1
}

impl<R: Copy> Window<R> {
    /// An empty window with room for so many requests in flight, of which `max` wait before its backlog begins. In a
    /// serial one one request runs at a time. Bit i of the mask stands for worker i, 0 to 63. Only want of memory is an
    /// error.
    pub fn new(
        alloc: Global,
        room: usize,
        max: usize,
        serial: bool,
        mask: u64,
    ) -> Result<Window<R>, AllocError>
        ensures { IfOk result (λ f. f ≡ born (kind_of room max serial) mask) }
    {
        let running = VecDeque::with_capacity(alloc, room)?;
        let waiting = VecDeque::with_capacity(alloc, room)?;
        Ok(Window {
            room,
            max,
            serial,
            polled: 0,
            running,
            waiting,
            mask,
            held: false,
        })
    }

    /// How many are in flight: submitted, and not handed out.
    pub fn in_flight(&self) -> usize
        ensures { result ≡ in_flight_of self.now }
    {
        self.running.len() + self.waiting.len()
    }

    /// How many were submitted, which is the number of the next.
    pub fn submitted(&self) -> u64
        ensures { result ≡ submitted_of self.now }
    {
        self.polled + self.in_flight() as u64
    }

    /// How many were taken, which is the number of the next that is.
    pub fn taken(&self) -> u64
        ensures { result ≡ taken_of self.now }
    {
        self.polled + self.running.len() as u64
    }

    /// How many were handed out, which is the number of the next that is.
    pub fn polled(&self) -> u64
        ensures { result ≡ self.now.polled }
    {
        self.polled
    }

    /// The workers that may take.
    pub fn mask(&self) -> u64
        ensures { result ≡ self.now.mask }
    {
        self.mask
    }

    /// How many wait for a worker.
    pub fn waiting(&self) -> usize
        ensures { result ≡ length self.now.waiting }
    {
        self.waiting.len()
    }

    /// Takes a request in, and gives it the next number. It may wait in the backlog where `backlog` permits that. A
    /// refusal changes nothing.
    pub fn submit(&mut self, request: R, backlog: bool) -> Result<u64, Refusal>
        ensures came { MatchResult result
            (λ n. Accepts self.old backlog × (n ≡ submitted_of self.old) × (self.new ≡ with_submitted self.old request))
            (λ why. Refuses self.old backlog why × (self.new ≡ self.old)) }
        ensures stands { MatchResult result (λ n. Adds self.old self.new (Submitted n request)) (λ why. self.new ≡ self.old) }
    {
        let in_flight = self.in_flight();
        if in_flight >= self.room {
            return Err(Refusal::Full);
        }
        if !backlog && self.waiting.len() >= self.max {
            return Err(Refusal::NoSpace);
        }
        let number = self.polled + in_flight as u64;
        if number == u64::MAX {
            return Err(Refusal::Ended);
        }
        let _ = self.waiting.push_back(request);
        Ok(number)
    }

    /// Whether a request that comes now would wait in the backlog.
    pub fn has_backlog(&self) -> bool
        ensures { IsTrue result ↔ HasBacklog self.now }
    {
        self.waiting.len() >= self.max
    }

    /// The requests below this number have left the backlog.
    pub fn started(&self) -> u64
        ensures { result ≡ min (2 ^ 64 - 1) (taken_of self.now + self.now.kind.max) }
    {
        self.taken().saturating_add(self.max as u64)
    }

    /// Whether the worker may take: it is in the mask, the window isn't held, and no request runs where one may.
    pub fn may_take(&self, worker: u32) -> bool
        ensures { MatchBool result (MayTake self.now worker) (MayTake self.now worker → ⊥) }
    {
        if !is_masked(self.mask, worker) || self.held {
            return false;
        }
        if !self.serial {
            return true;
        }
        self.is_last_done()
    }

    fn is_last_done(&self) -> bool
        ensures { MatchBool result (IsLastDone self.now.running) (IsLastDone self.now.running → ⊥) }
    {
        match self.running.back() {
            Some(last) => last.is_done,
            None => true,
        }
    }

    /// Hands the request of the least number that nobody has taken to the worker. `None` exactly where there is none,
    /// or the worker may not take.
    pub fn take(&mut self, worker: u32) -> Option<(u64, R)>
        ensures came { MatchOption result
            (NoneFor self.old worker × (self.new ≡ self.old))
            (λ t. MayTake self.old worker × (t.0 ≡ taken_of self.old) × (self.old.waiting ≡ t.1 ∷ self.new.waiting)
            × (self.new ≡ with_taken self.old worker t.1 self.new.waiting)) }
        ensures stands { MatchOption result (self.new ≡ self.old) (λ t. Adds self.old self.new (Taken t.0 worker)) }
    {
        if !self.may_take(worker) {
            return None;
        }
        let request = self.waiting.pop_front()?;
        let number = self.polled + self.running.len() as u64;
        let _ = self.running.push_back(Running {
            request,
            worker,
            is_done: false,
        });
        Some((number, request))
    }

    /// Records that the worker is done with the request of this number. False exactly where it is none that this worker
    /// runs: nothing happens then.
    pub fn finish(&mut self, number: u64, worker: u32) -> bool
        ensures came { MatchBool result
            ((r : R) × IsRunBy self.old number worker r × (self.new ≡ with_finished self.old number worker r))
            (((r : R) → IsRunBy self.old number worker r → ⊥) × (self.new ≡ self.old)) }
        ensures stands { MatchBool result (Adds self.old self.new (Finished number worker)) (self.new ≡ self.old) }
    {
        if number < self.polled {
            return false;
        }
        let after = number - self.polled;
        if after >= self.running.len() as u64 {
            return false;
        }
        let at = after as usize;
        let found = self.running[at];
        if found.is_done || found.worker != worker {
            return false;
        }
        self.running[at] = Running {
            request: found.request,
            worker,
            is_done: true,
        };
        true
    }

    /// Hands out the request of the least number that wasn't handed out, where it is done: `None` exactly where it
    /// isn't, or none is in flight.
    pub fn poll(&mut self) -> Option<(u64, R)>
        ensures came { MatchOption result
            ((first_is_done self.old.running ≡ false) × (self.new ≡ self.old))
            (λ t. (t.0 ≡ self.old.polled) × HandsOut self.old self.new t.1) }
        ensures stands { MatchOption result (self.new ≡ self.old) (λ t. Adds self.old self.new (Polled t.0 t.1)) }
    {
        if !self.is_first_done() {
            return None;
        }
        let first = self.running.pop_front()?;
        let number = self.polled;
        self.polled += 1;
        Some((number, first.request))
    }

    fn is_first_done(&self) -> bool
        ensures { result ≡ first_is_done self.now.running }
    {
        match self.running.front() {
            Some(first) => first.is_done,
            None => false,
        }
    }

    /// Whether each request that was submitted was handed out.
    pub fn is_drained(&self) -> bool
        ensures came { IsTrue result ↔ (in_flight_of self.now ≡ 0) }
        ensures all { (h : List (Event R)) → Stands self.now h → result ≡ true → polls h ≡ numbered 0 (submissions h) }
    {
        self.in_flight() == 0
    }

    /// From now on the workers whose bits are set may take: bit i stands for worker i.
    pub fn set_mask(&mut self, mask: u64)
        ensures came { self.new ≡ record self.old { mask = mask } }
        ensures stands { Adds self.old self.new (Masked mask) }
    {
        self.mask = mask;
    }

    /// From now on none may take.
    pub fn hold(&mut self)
        ensures came { self.new ≡ record self.old { held = true } }
        ensures stands { Adds self.old self.new (Held true) }
    {
        self.held = true;
    }

    /// From now on workers may take again.
    pub fn go(&mut self)
        ensures came { self.new ≡ record self.old { held = false } }
        ensures stands { Adds self.old self.new (Held false) }
    {
        self.held = false;
    }
}
