//! What the checker keeps of one pipeline.

ghost use Rattle.std.specs.Prelude.{◌≡◌, ◌+◌, ◌≤◌, ◌&&◌, nat_lt, if◌then◌else◌, length, slice_set, drop, true, OnOk};
ghost use Rattle.alg_registry.specs.Legal.{is_worker};
ghost use Rattle.board.specs.Shapes.{is_pad, has_queue, has_lists, is_serial, bound_of, lists_of};
ghost use Rattle.trace_check.specs.Pipes.{state_of, new_pipe, full_mask, are_lists, is_shape, is_open_as, waits, runs, runs_by, has_ended, passes, backlog_of, passed_by, starts_by, may_serve, may_close, may_manage, may_submit, is_masked, may_take, has_bits, same_number, is_numbered, is_answered, reason_of, judged_on, ended_run, notices_in, with_request, with_entered, with_taken, with_ended, with_dequeued, with_finished, with_done, after, CanCount};

use crate::reason::{Reason, reason_of};
use board::{BoardEntry, Entered, Shape};
use std::alloc::{AllocError, Global};
use std::collections::BTreeSet;

/// How far a request is.
#[derive(Clone, Copy)]
pub(crate) enum Progress {
    Waits,
    /// This caller took it.
    Runs(u32),
    Ended,
}

/// A pipeline: who made it, its requests by number, who submitted them, and how many of them left its line and are
/// finished; all before `front` are finished. It has told so many callbacks.
#[derive(Drop)]
pub(crate) struct Pipeline {
    pub(crate) maker: u32,
    pub(crate) shape: Shape,
    pub(crate) requests: Vec<Progress>,
    pub(crate) submitters: BTreeSet<u32>,
    pub(crate) dequeued: u64,
    pub(crate) finished: u64,
    pub(crate) front: usize,
    pub(crate) told: u64,
    pub(crate) collected: u64,
    pub(crate) mask: u16,
    pub(crate) held: bool,
    pub(crate) shared: bool,
    pub(crate) closed: bool,
}

fn is_pad(shape: Shape) -> bool
    ensures { result ≡ is_pad shape }
{
    match shape {
        Shape::Pad(_) => true,
        Shape::Queue(_) | Shape::Chain(..) => false,
    }
}

fn has_queue(shape: Shape) -> bool
    ensures { result ≡ has_queue shape }
{
    match shape {
        Shape::Pad(_) => false,
        Shape::Queue(_) | Shape::Chain(..) => true,
    }
}

fn has_lists(shape: Shape) -> bool
    ensures { result ≡ has_lists shape }
{
    match shape {
        Shape::Pad(_) | Shape::Chain(..) => true,
        Shape::Queue(_) => false,
    }
}

fn is_serial(shape: Shape) -> bool
    ensures { result ≡ is_serial shape }
{
    match shape {
        Shape::Queue(_) => true,
        Shape::Pad(_) | Shape::Chain(..) => false,
    }
}

fn are_lists(lists: u32) -> bool
    ensures { result ≡ are_lists lists }
{
    1 <= lists && lists <= 16
}

/// Whether a pipeline may be made so.
pub(crate) fn is_shape(shape: Shape) -> bool
    ensures { result ≡ is_shape shape }
{
    match shape {
        Shape::Pad(lists) => are_lists(lists),
        Shape::Queue(max) => 1 <= max,
        Shape::Chain(max, lists) => 1 <= max && are_lists(lists),
    }
}

fn lists_of(shape: Shape) -> u32
    ensures { result ≡ lists_of shape }
{
    match shape {
        Shape::Pad(lists) | Shape::Chain(_, lists) => lists,
        Shape::Queue(_) => 0,
    }
}

fn bound_of(shape: Shape) -> u32
    ensures { result ≡ bound_of shape }
{
    match shape {
        Shape::Pad(_) => 0,
        Shape::Queue(max) | Shape::Chain(max, _) => max,
    }
}

/// Callers 1 to 16 are workers.
pub(crate) fn is_worker(caller: u32) -> bool
    ensures { result ≡ is_worker caller }
{
    1 <= caller && caller <= 16
}

// The bits of so many workers.
fn full_mask(lists: u32) -> u16
    ensures { result ≡ full_mask lists }
{
    if lists <= 16 {
        ((1u32 << lists) - 1) as u16
    } else {
        0
    }
}

// Whether no bit stands at or above the lists.
fn has_bits(lists: u32, mask: u16) -> bool
    ensures { result ≡ has_bits lists mask }
{
    lists <= 16 && u32::from(mask) < 1u32 << lists
}

// Whether the caller is a worker whose bit is set.
fn is_masked(mask: u16, caller: u32) -> bool
    ensures { result ≡ is_masked mask caller }
{
    is_worker(caller) && (u32::from(mask) >> (caller - 1)) & 1 == 1
}

fn has_ended(progress: Progress) -> bool
    ensures { result ≡ has_ended progress }
{
    match progress {
        Progress::Ended => true,
        Progress::Waits | Progress::Runs(_) => false,
    }
}

pub(crate) fn same_number(left: Option<u64>, right: Option<u64>) -> bool
    ensures { result ≡ same_number left right }
{
    match (left, right) {
        (None, None) => true,
        (Some(left), Some(right)) => left == right,
        _ => false,
    }
}

fn notices_in(started: Option<u64>) -> u64
    ensures { result ≡ notices_in started }
{
    match started {
        Some(_) => 1,
        None => 0,
    }
}

// Puts in the place of the number, where there is one.
fn put(requests: &mut Vec<Progress>, number: u64, progress: Progress)
    ensures { requests.new.items ≡ slice_set requests.old.items number progress }
{
    let place = number as usize;
    if place < requests.len() {
        requests[place] = progress;
    }
}

// The same where it is to be.
fn put_where(to_be: bool, requests: &mut Vec<Progress>, number: u64, progress: Progress)
    ensures { requests.new.items ≡ (if to_be then slice_set requests.old.items number progress else requests.old.items) }
{
    if to_be {
        put(requests, number, progress);
    }
}

// Goes on to the first request that isn't finished.
fn front_from(requests: &[Progress], from: usize) -> usize
    requires { from ≤ length requests.now }
    ensures { result ≡ from + ended_run (drop from requests.now) }
{
    for place in from..requests.len() {
        if !has_ended(requests[place]) {
            return place;
        }
    }
    requests.len()
}

impl Pipeline {
    /// A pipeline that was just made.
    pub(crate) fn new(alloc: Global, maker: u32, shape: Shape) -> Pipeline
        ensures { state_of result ≡ new_pipe maker shape }
    {
        Pipeline {
            maker,
            shape,
            requests: Vec::new(alloc),
            submitters: BTreeSet::new(alloc),
            dequeued: 0,
            finished: 0,
            front: 0,
            told: 0,
            collected: 0,
            mask: full_mask(lists_of(shape)),
            held: false,
            shared: false,
            closed: false,
        }
    }

    fn is_open_pad(&self) -> bool
        ensures { result ≡ is_open_as is_pad (state_of self.now) }
    {
        is_pad(self.shape) && !self.closed
    }

    fn is_open_queue(&self) -> bool
        ensures { result ≡ is_open_as has_queue (state_of self.now) }
    {
        has_queue(self.shape) && !self.closed
    }

    fn has_open_lists(&self) -> bool
        ensures { result ≡ is_open_as has_lists (state_of self.now) }
    {
        has_lists(self.shape) && !self.closed
    }

    fn waits(&self, number: u64) -> bool
        ensures { result ≡ passes waits (state_of self.now) number }
    {
        match self.requests.get(number as usize) {
            Some(Progress::Waits) => true,
            Some(Progress::Runs(_)) | Some(Progress::Ended) | None => false,
        }
    }

    fn runs(&self, number: u64) -> bool
        ensures { result ≡ passes runs (state_of self.now) number }
    {
        match self.requests.get(number as usize) {
            Some(Progress::Runs(_)) => true,
            Some(Progress::Waits) | Some(Progress::Ended) | None => false,
        }
    }

    fn runs_by(&self, caller: u32, number: u64) -> bool
        ensures { result ≡ passes (runs_by caller) (state_of self.now) number }
    {
        match self.requests.get(number as usize) {
            Some(Progress::Runs(taker)) => *taker == caller,
            Some(Progress::Waits) | Some(Progress::Ended) | None => false,
        }
    }

    fn len(&self) -> u64
        ensures { result ≡ length (state_of self.now).requests }
    {
        self.requests.len() as u64
    }

    fn backlog(&self) -> u64
        ensures { result ≡ backlog_of (state_of self.now) }
    {
        self.len().saturating_sub(self.dequeued)
    }

    fn passed(&self) -> u64
        ensures { result ≡ passed_by (state_of self.now) }
    {
        if has_queue(self.shape) {
            self.dequeued
        } else {
            self.len()
        }
    }

    // Which request leaves the backlog where this one leaves the line.
    fn starts(&self, number: u64) -> Option<u64>
        ensures { result ≡ starts_by (state_of self.now) number }
    {
        match number.checked_add(u64::from(bound_of(self.shape))) {
            Some(place) if place < self.len() => Some(place),
            _ => None,
        }
    }

    fn may_serve(&self) -> bool
        ensures { result ≡ may_serve (state_of self.now) }
    {
        !self.held
            && ((!is_serial(self.shape) || self.finished == self.dequeued) && 0 < self.backlog())
    }

    fn may_close(&self) -> bool
        ensures { result ≡ may_close (state_of self.now) }
    {
        !self.shared && (self.front == self.requests.len() && self.collected == self.told)
    }

    fn may_manage(&self, caller: u32) -> bool
        ensures { result ≡ may_manage (state_of self.now) caller }
    {
        !is_worker(caller) && self.maker == caller
    }

    fn may_submit(&self, caller: u32) -> bool
        ensures { result ≡ may_submit (state_of self.now) caller }
    {
        !is_worker(caller) && (self.maker == caller || self.shared)
    }

    fn may_take(&self, caller: u32) -> bool
        ensures { result ≡ may_take (state_of self.now) caller }
    {
        self.maker == caller || (self.submitters.contains(&caller) || is_masked(self.mask, caller))
    }

    fn is_numbered(&self, answer: Entered) -> bool
        ensures { result ≡ is_numbered (state_of self.now) answer }
    {
        match answer {
            Entered::InProgress(number) | Entered::Busy(number) => number == self.len(),
            Entered::NoSpace => true,
        }
    }

    fn is_answered(&self, backlog: bool, answer: Entered) -> bool
        ensures { result ≡ is_answered (state_of self.now) backlog answer }
    {
        let within = self.backlog() < u64::from(bound_of(self.shape));
        match answer {
            Entered::InProgress(_) => within,
            Entered::Busy(_) => !within && backlog,
            Entered::NoSpace => !within && !backlog,
        }
    }

    // An event that is left to who made the pipeline.
    fn judge_managed(&self, caller: u32, state: bool, number: bool) -> Option<Reason>
        ensures { result ≡ reason_of state (may_manage (state_of self.now) caller) number true }
    {
        reason_of(state, self.may_manage(caller), number, true)
    }

    // The end of a request that runs.
    fn judge_end(&self, caller: u32, number: u64, such: bool) -> Option<Reason>
        ensures { result ≡ reason_of
            (such && passes runs (state_of self.now) number)
            (passes (runs_by caller) (state_of self.now) number)
            true true }
    {
        reason_of(
            such && self.runs(number),
            self.runs_by(caller, number),
            true,
            true,
        )
    }

    fn judge_take(&self, caller: u32, number: u64) -> Option<Reason>
        ensures { result ≡ reason_of
            (is_open_as has_lists (state_of self.now)
            && (nat_lt number (passed_by (state_of self.now)) && passes waits (state_of self.now) number))
            (may_take (state_of self.now) caller)
            true true }
    {
        reason_of(
            self.has_open_lists() && (number < self.passed() && self.waits(number)),
            self.may_take(caller),
            true,
            true,
        )
    }

    /// The first reason against an event of the pipeline.
    pub(crate) fn judge<A>(&self, event: &BoardEntry<A>) -> Option<Reason>
        ensures { result ≡ judged_on (state_of self.now) event.now }
    {
        match event {
            BoardEntry::Born { .. } | BoardEntry::Shut { .. } => Some(Reason::State),
            BoardEntry::Submit { caller, number, .. } => reason_of(
                self.is_open_pad() && 0 < self.mask,
                self.may_submit(*caller),
                *number == self.len(),
                true,
            ),
            BoardEntry::Take { caller, number, .. } => self.judge_take(*caller, *number),
            BoardEntry::Finish { caller, number, .. } => {
                self.judge_end(*caller, *number, has_lists(self.shape))
            }
            BoardEntry::Enq {
                caller,
                backlog,
                answer,
                ..
            } => reason_of(
                self.is_open_queue(),
                self.may_submit(*caller),
                self.is_numbered(*answer),
                self.is_answered(*backlog, *answer),
            ),
            BoardEntry::Deq {
                number,
                started,
                ..
            } => reason_of(
                self.is_open_queue() && self.may_serve(),
                true,
                *number == self.dequeued && same_number(*started, self.starts(*number)),
                true,
            ),
            BoardEntry::Done { caller, number, .. } => {
                self.judge_end(*caller, *number, is_serial(self.shape))
            }
            BoardEntry::Hold { caller, .. } | BoardEntry::Go { caller, .. } => {
                self.judge_managed(*caller, self.is_open_queue(), true)
            }
            BoardEntry::Collect { caller, to, .. } => {
                self.judge_managed(*caller, !self.closed, *to == self.told)
            }
            BoardEntry::Close { caller, .. } => {
                self.judge_managed(*caller, !self.closed && self.may_close(), true)
            }
            BoardEntry::Share { caller, .. } => self.judge_managed(*caller, !self.closed, true),
            BoardEntry::Mask { caller, mask, .. } => self.judge_managed(
                *caller,
                self.is_open_pad() && !self.shared,
                has_bits(lists_of(self.shape), *mask),
            ),
        }
    }

    fn add_request(&mut self, caller: u32) -> Result<(), AllocError>
        ensures { OnOk result (state_of self.new ≡ with_request (state_of self.old) caller) }
    {
        self.requests.push(Progress::Waits)?;
        self.submitters.insert(caller)?;
        Ok(())
    }

    fn add_entered(&mut self, caller: u32, answer: Entered) -> Result<(), AllocError>
        ensures { OnOk result (state_of self.new ≡ with_entered (state_of self.old) caller answer) }
    {
        match answer {
            Entered::InProgress(_) | Entered::Busy(_) => self.add_request(caller),
            Entered::NoSpace => Ok(()),
        }
    }

    fn take(&mut self, number: u64, caller: u32)
        ensures { state_of self.new ≡ with_taken (state_of self.old) number caller }
    {
        put(&mut self.requests, number, Progress::Runs(caller));
    }

    fn dequeue(&mut self, number: u64, caller: u32, started: Option<u64>)
        requires { CanCount (state_of self.old) }
        ensures { state_of self.new ≡ with_dequeued (state_of self.old) number caller started }
    {
        put_where(
            is_serial(self.shape),
            &mut self.requests,
            number,
            Progress::Runs(caller),
        );
        self.dequeued += 1;
        self.told += notices_in(started);
    }

    fn end(&mut self, number: u64)
        requires { CanCount (state_of self.old) }
        ensures { state_of self.new ≡ with_ended (state_of self.old) number }
    {
        put(&mut self.requests, number, Progress::Ended);
        self.finished += 1;
        self.front = front_from(&self.requests, self.front);
    }

    // Tells what the front passes.
    fn finish(&mut self, number: u64)
        requires { CanCount (state_of self.old) }
        ensures { state_of self.new ≡ with_finished (state_of self.old) number }
    {
        let front = self.front;
        self.end(number);
        self.told += (self.front - front) as u64;
    }

    fn complete(&mut self, number: u64)
        requires { CanCount (state_of self.old) }
        ensures { state_of self.new ≡ with_done (state_of self.old) number }
    {
        self.end(number);
        self.told += 1;
    }

    /// Goes on by a right event of the pipeline.
    pub(crate) fn advance<A>(&mut self, event: &BoardEntry<A>) -> Result<(), AllocError>
        requires { CanCount (state_of self.old) }
        ensures { OnOk result (state_of self.new ≡ after (state_of self.old) event.now) }
    {
        match event {
            BoardEntry::Submit { caller, .. } => self.add_request(*caller)?,
            BoardEntry::Enq { caller, answer, .. } => self.add_entered(*caller, *answer)?,
            BoardEntry::Take { caller, number, .. } => self.take(*number, *caller),
            BoardEntry::Deq {
                caller,
                number,
                started,
                ..
            } => self.dequeue(*number, *caller, *started),
            BoardEntry::Finish { number, .. } => self.finish(*number),
            BoardEntry::Done { number, .. } => self.complete(*number),
            BoardEntry::Hold { .. } => self.held = true,
            BoardEntry::Go { .. } => self.held = false,
            BoardEntry::Collect { to, .. } => self.collected = *to,
            BoardEntry::Close { .. } => self.closed = true,
            BoardEntry::Share { .. } => self.shared = true,
            BoardEntry::Mask { mask, .. } => self.mask = *mask,
            BoardEntry::Born { .. } | BoardEntry::Shut { .. } => {}
        }
        Ok(())
    }
}
