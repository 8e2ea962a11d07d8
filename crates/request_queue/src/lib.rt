//! A bounded queue of requests, with a backlog past its bound.
#![tactic(auto)]

ghost use Rattle.std.specs.Prelude.{◌≡◌, ℕ, ◌+◌, ◌-◌, ◌^◌, ◌<◌, ◌≤◌, nat_lt, ◌||◌, List, [], ◌∷◌, ◌++◌, length, OnOk, MatchOption};
ghost use Rattle.request_queue.specs.BoundedQueue.{accepted, verdict_on, queue_after, number_at_bound};

use std::alloc::{AllocError, Global};
use std::collections::VecDeque;
use std::marker::Model;

/// What a queue answers to an item.
#[derive(Debug, Drop)]
pub enum Verdict<T> {
    /// It is accepted.
    InProgress,
    /// It is accepted into the backlog, past the bound.
    Busy,
    /// It is refused, and comes back.
    NoSpace(T),
}

/// An item that left the queue.
#[derive(Debug, Drop)]
pub struct Served<T> {
    /// The item's number, in the order of acceptance, from 0.
    pub number: u64,
    pub item: T,
    /// The number of the item that has come out of the backlog by that, if one has.
    pub started: Option<u64>,
}

/// Items in the order in which they were accepted, numbered from 0. Up to `max` wait, at least 1, and more in the
/// backlog.
#[derive(Drop)]
pub struct Queue<T> {
    alloc: Global,
    max: u32,
    served: u64,
    waiting: VecDeque<T>,
    spare: usize,
}

impl<T> Model for Queue<T> {
    ghost use Rattle.std.specs.Prelude.{◌+◌, ◌≤◌, ◌^◌};
    ghost use Rattle.std.specs.VecDeque.{deque_len, deque_capacity};
    ghost use Rattle.request_queue.specs.BoundedQueue.{BoundedQueue};

    ghost Value = { BoundedQueue T };

    ghost view = { λ q. record { max = q.max; served = q.served; waiting = q.waiting.items; spare = q.spare } };

    ghost invariant = { λ q. (1 ≤ q.max) × (q.served + deque_len q.waiting ≤ 2 ^ 63)
        × (deque_len q.waiting + q.spare ≤ deque_capacity q.waiting) };
}

impl<T: Drop> Queue<T> {
    /// An empty queue of bound `max`, at least 1, with room for no item.
    pub fn new(alloc: Global, max: u32) -> Queue<T>
        requires { 1 ≤ max }
        ensures { result ≡ record { max = max; served = 0; waiting = []; spare = 0 } }
    {
        Queue {
            alloc,
            max,
            served: 0,
            waiting: VecDeque::new(alloc),
            spare: 0,
        }
    }

    /// How many wait.
    pub fn len(&self) -> usize
        ensures { result ≡ length self.now.waiting }
    {
        self.waiting.len()
    }

    /// How many were accepted.
    pub fn accepted(&self) -> u64
        ensures { result ≡ accepted self.now }
    {
        self.served + self.waiting.len() as u64
    }

    /// Whether an item that came now would be accepted: fewer than `max` wait, or it may wait in the backlog.
    pub fn accepts(&self, backlog: bool) -> bool
        ensures { result ≡ (nat_lt (length self.now.waiting) self.now.max || backlog) }
    {
        self.waiting.len() < self.max as usize || backlog
    }

    /// Makes room for `n` more items at least, which `enqueue` takes without memory. Want of memory leaves the queue as
    /// it was.
    pub fn reserve(&mut self, n: usize) -> Result<(), AllocError>
        ensures same { self.old ≡ record self.new { spare = self.old.spare } }
        ensures room { OnOk result (n ≤ self.new.spare) }
        ensures kept { self.old.spare ≤ self.new.spare }
    {
        if n <= self.spare {
            return Ok(());
        }
        self.waiting.reserve(n)?;
        self.spare = n;
        Ok(())
    }

    /// Accepts the item where fewer than `max` wait, and past that into the backlog where `backlog` permits it.
    /// Otherwise hands it back. `number` is how many were accepted before, fewer than 2^63. There must be room for one.
    pub fn enqueue(&mut self, number: u64, item: T, backlog: bool) -> Verdict<T>
        requires spare { 1 ≤ self.old.spare }
        requires number { number ≡ accepted self.old }
        requires small { number < 2 ^ 63 }
        ensures verdict { result ≡ verdict_on (length self.old.waiting) self.old.max backlog item }
        ensures queue { self.new ≡ queue_after self.old item result }
    {
        let verdict = if self.waiting.len() < self.max as usize {
            Verdict::InProgress
        } else if backlog {
            Verdict::Busy
        } else {
            return Verdict::NoSpace(item);
        };
        let _ = self.waiting.push_back(item);
        self.spare -= 1;
        verdict
    }

    /// The first item leaves, or `None` exactly where the queue is empty. The item at place `max`, if there is one, is
    /// then out of the backlog.
    pub fn dequeue(&mut self) -> Option<Served<T>>
        ensures { MatchOption result
            ((self.old.waiting ≡ []) × (self.new ≡ self.old))
            (λ s. (s.number ≡ self.old.served) × (s.started ≡ number_at_bound self.old)
            × (self.old.waiting ≡ s.item ∷ self.new.waiting)
            × (self.new ≡ record self.old { served = self.old.served + 1; waiting = self.new.waiting })) }
    {
        let started = if (self.max as usize) < self.waiting.len() {
            Some(self.served + self.max as u64)
        } else {
            None
        };
        let item = self.waiting.pop_front()?;
        let number = self.served;
        self.served += 1;
        Some(Served {
            number,
            item,
            started,
        })
    }
}
