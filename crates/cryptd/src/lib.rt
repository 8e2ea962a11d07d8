//! cryptd: a bounded queue whose jobs are served one at a time, in order, and that can be held.
#![tactic(auto)]

ghost use Rattle.std.specs.Prelude.{◌≡◌, ℕ, ◌+◌, ◌-◌, ◌*◌, ◌^◌, ◌<◌, ◌≤◌, nat_lt, Bool, true, false, ◌||◌, List, [], ◌∷◌, ◌++◌, length, OnOk, MatchBool, MatchOption, ◌⊎◌};
ghost use Rattle.kc_base.specs.declared.callback_list.Callback.TheVariants as Callback;
ghost use Rattle.request_queue.specs.BoundedQueue.{accepted, verdict_on, queue_after, number_at_bound};
ghost use Rattle.std.specs.VecDeque.{deque_len, deque_capacity};
ghost use Rattle.cryptd.specs.Server.{started_callback, spare_after, bare, ServesNone, after_first};

use kc_base::{Callback, Callbacks};
use request_queue::{Queue, Served, Verdict};
use std::alloc::{AllocError, Global};
use std::collections::VecDeque;
use std::marker::Model;

/// A bounded queue that is served one job after another, or whose jobs are passed on to others that run them, and that
/// tells of each backlogged job when it has started, and of each job its outcome.
#[derive(Drop)]
pub struct Cryptd<J, F> {
    queue: Queue<J>,
    held: bool,
    busy: bool,
    /// How many were passed on, and aren't released.
    passed: usize,
    pending: VecDeque<Callback<F>>,
    spare: usize,
}

impl<J, F> Model for Cryptd<J, F> {
    ghost use Rattle.std.specs.Prelude.{◌+◌, ◌*◌, ◌≤◌, length, if◌then◌else◌};
    ghost use Rattle.std.specs.VecDeque.{deque_len, deque_capacity};
    ghost use Rattle.cryptd.specs.Server.{Server};

    ghost Value = { Server J F };

    ghost view = { λ c. record {
      queue = c.queue;
      held = c.held;
      busy = c.busy;
      passed = c.passed;
      pending = c.pending.items;
      spare = c.spare;
    } };

    ghost invariant = { λ c. (c.spare ≤ c.queue.spare)
        × (deque_len c.pending + 2 * (length c.queue.waiting + c.spare) + (if c.busy then 1 else 0) + c.passed
        ≤ deque_capacity c.pending) };
}

impl<J: Drop, F: Drop> Cryptd<J, F> {
    /// An empty queue of bound `max`, at least 1, with room for no job, neither held nor busy.
    pub fn new(alloc: Global, max: u32) -> Cryptd<J, F>
        requires { 1 ≤ max }
        ensures queue { result.queue ≡ record { max = max; served = 0; waiting = []; spare = 0 } }
        ensures server { result ≡ record { queue = result.queue; held = false; busy = false; passed = 0; pending = []; spare = 0 } }
    {
        Cryptd {
            queue: Queue::new(alloc, max),
            held: false,
            busy: false,
            passed: 0,
            pending: VecDeque::new(alloc),
            spare: 0,
        }
    }

    /// How many were accepted.
    pub fn accepted(&self) -> u64
        ensures { result ≡ accepted self.now.queue }
    {
        self.queue.accepted()
    }

    /// Whether a job that came now would be accepted: fewer than `max` wait, or it may wait in the backlog.
    pub fn accepts(&self, backlog: bool) -> bool
        ensures { result ≡ (nat_lt (length self.now.queue.waiting) self.now.queue.max || backlog) }
    {
        self.queue.accepts(backlog)
    }

    /// Whether a job would be served now: some wait, none runs, and the queue isn't held.
    pub fn may_serve(&self) -> bool
        ensures { MatchBool result
            ((self.now.held ≡ false) × (self.now.busy ≡ false) × (0 < length self.now.queue.waiting))
            (ServesNone self.now) }
    {
        !self.held && !self.busy && self.queue.len() > 0
    }

    /// Whether each accepted job is done.
    pub fn is_idle(&self) -> bool
        ensures { MatchBool result
            ((self.now.busy ≡ false) × (length self.now.queue.waiting ≡ 0))
            ((self.now.busy ≡ true) ⊎ (0 < length self.now.queue.waiting)) }
    {
        !self.busy && self.queue.len() == 0
    }

    /// Makes room for `n` more jobs at least, and for what is told of them. Want of memory leaves the rest as it was.
    pub fn reserve(&mut self, n: usize) -> Result<(), AllocError>
        ensures same { bare self.new ≡ bare self.old }
        ensures room { OnOk result (n ≤ self.new.spare) }
        ensures kept { self.old.spare ≤ self.new.spare }
    {
        if n <= self.spare {
            return Ok(());
        }
        self.queue.reserve(n)?;
        let Some(jobs) = n.checked_add(self.queue.len()) else {
            return Err(AllocError);
        };
        let Some(twice) = jobs.checked_mul(2) else {
            return Err(AllocError);
        };
        let Some(more) = twice.checked_add(1) else {
            return Err(AllocError);
        };
        let Some(more) = more.checked_add(self.passed) else {
            return Err(AllocError);
        };
        self.pending.reserve(more)?;
        self.spare = n;
        Ok(())
    }

    /// Accepts the job where fewer than `max` wait, and past that into the backlog where `backlog` permits it.
    /// Otherwise hands it back. `number` is how many were accepted before, fewer than 2^63. There must be room for one.
    pub fn enqueue(&mut self, number: u64, job: J, backlog: bool) -> Verdict<J>
        requires spare { 1 ≤ self.old.spare }
        requires number { number ≡ accepted self.old.queue }
        requires small { number < 2 ^ 63 }
        ensures verdict { result ≡ verdict_on (length self.old.queue.waiting) self.old.queue.max backlog job }
        ensures server { self.new ≡ record self.old {
          queue = queue_after self.old.queue job result;
          spare = spare_after self.old.spare result;
        } }
    {
        let verdict = self.queue.enqueue(number, job, backlog);
        match &verdict {
            Verdict::InProgress | Verdict::Busy => self.spare -= 1,
            Verdict::NoSpace(_) => {}
        }
        verdict
    }

    /// From now on no job is served or passed on.
    pub fn hold(&mut self)
        ensures { self.new ≡ record self.old { held = true } }
    {
        self.held = true;
    }

    /// Jobs are served or passed on again.
    pub fn go(&mut self)
        ensures { self.new ≡ record self.old { held = false } }
    {
        self.held = false;
    }

    /// Hands out the first job, or `None` exactly where the queue is held, busy or empty. It is busy from then on. A
    /// queue is either served or passed on: none may be passed on that isn't released.
    pub fn serve(&mut self) -> Option<Served<J>>
        requires apart { self.old.passed ≡ 0 }
        ensures { MatchOption result
            (ServesNone self.old × (self.new ≡ self.old))
            (λ s. (self.old.held ≡ false) × (self.old.busy ≡ false)
            × (s.number ≡ self.old.queue.served) × (s.started ≡ number_at_bound self.old.queue)
            × (self.old.queue.waiting ≡ s.item ∷ self.new.queue.waiting)
            × (self.new ≡ record (after_first self.old s.started self.new.queue.waiting) { busy = true })) }
    {
        if self.held || self.busy {
            return None;
        }
        let served = self.queue.dequeue()?;
        self.busy = true;
        tell_started(&mut self.pending, served.started);
        Some(served)
    }

    /// Records the outcome of the job that runs, by its number.
    pub fn done(&mut self, number: u64, out: F)
        requires runs { self.old.busy ≡ true }
        requires number { number + 1 ≡ self.old.queue.served }
        ensures { self.new ≡ record self.old { busy = false; pending = self.old.pending ++ Callback.Done number out ∷ [] } }
    {
        let _ = self.pending.push_back(Callback::Done(number, out));
        self.busy = false;
    }

    /// Passes the first job on, or `None` exactly where the queue is held or empty. Others run it; its outcome comes
    /// back by `release`, in its turn among those that were passed on. A queue is either served or passed on: it may
    /// not be busy.
    pub fn pass_on(&mut self) -> Option<Served<J>>
        requires apart { self.old.busy ≡ false }
        ensures { MatchOption result
            (((self.old.held ≡ true) ⊎ (self.old.queue.waiting ≡ [])) × (self.new ≡ self.old))
            (λ s. (self.old.held ≡ false)
            × (s.number ≡ self.old.queue.served) × (s.started ≡ number_at_bound self.old.queue)
            × (self.old.queue.waiting ≡ s.item ∷ self.new.queue.waiting)
            × (self.new ≡ record (after_first self.old s.started self.new.queue.waiting) { passed = self.old.passed + 1 })) }
    {
        if self.held {
            return None;
        }
        let served = self.queue.dequeue()?;
        self.passed += 1;
        tell_started(&mut self.pending, served.started);
        Some(served)
    }

    /// Tells the outcome of the first job of those that were passed on and aren't released.
    pub fn release(&mut self, number: u64, out: F)
        requires passed { 1 ≤ self.old.passed }
        requires number { number + self.old.passed ≡ self.old.queue.served }
        ensures { self.new ≡ record self.old { passed = self.old.passed - 1; pending = self.old.pending ++ Callback.Done number out ∷ [] } }
    {
        let _ = self.pending.push_back(Callback::Done(number, out));
        self.passed -= 1;
    }

    /// How many jobs wait.
    pub fn waiting(&self) -> usize
        ensures { result ≡ length self.now.queue.waiting }
    {
        self.queue.len()
    }

    /// How many jobs wait, or were passed on and aren't released.
    pub fn unreleased(&self) -> usize
        ensures { result ≡ length self.now.queue.waiting + self.now.passed }
    {
        self.queue.len() + self.passed
    }

    /// How many callbacks are not collected yet.
    pub fn pending(&self) -> usize
        ensures { result ≡ length self.now.pending }
    {
        self.pending.len()
    }

    /// Hands out all callbacks that are not collected yet.
    pub fn collect(&mut self, into: &mut Callbacks<F>)
        requires { length self.old.pending ≤ into.old.spare }
        ensures handed { into.new.list ≡ into.old.list ++ self.old.pending }
        ensures spare { into.new.spare + length self.old.pending ≡ into.old.spare }
        ensures server { self.new ≡ record self.old { pending = [] } }
    {
        while let Some(callback) = self.pending.pop_front() {
            into.push(callback);
        }
    }
}

// Tells of the request that moves up, where there is one. There is room for it.
fn tell_started<F: Drop>(pending: &mut VecDeque<Callback<F>>, started: Option<u64>)
    requires { deque_len pending.old < deque_capacity pending.old }
    ensures items { pending.new.items ≡ pending.old.items ++ started_callback started }
    ensures len { deque_len pending.new ≤ deque_len pending.old + 1 }
    ensures room { deque_capacity pending.new ≡ deque_capacity pending.old }
{
    if let Some(number) = started {
        let _ = pending.push_back(Callback::Started(number));
    }
}
