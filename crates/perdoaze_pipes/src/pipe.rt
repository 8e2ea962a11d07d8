//! A pipe: the addresses of requests in flight.

ghost use Rattle.std.specs.Prelude.{◌≡◌, ◌↔◌, ◌≤◌, ◌-◌, ◌^◌, true, false, IsTrue, MatchResult};
ghost use Rattle.perdoaze_pipes.specs.Pipes as pipes;
ghost use Rattle.perdoaze_pipes.specs.Pipes.{IsTaken, Begins, Submits, Takes, Finishes, Polls, Holds, Masks};
ghost use Rattle.perdoaze_pipes.specs.declared.pipe_error.PipeErr.TheVariants as errors;

use crate::pipe_error::PipeErr;
use reorder_window::{Refusal, Window};
use std::alloc::Global;

/// What a pipe is.
#[derive(Clone, Copy, Debug, PartialEq, Eq)]
pub enum PipeKind {
    /// Its requests run beside one another, on the workers of a mask that may change within these bits.
    Pcrypt(u64),
    /// Its requests run one at a time, on any worker.
    Cryptd,
    /// Its requests wait in a queue, and run beside one another.
    CryptdPcrypt,
}

/// A pipe. A request is its address to it, which it keeps and hands out, and never looks behind.
#[derive(Drop)]
pub struct Pipe {
    pub kind: PipeKind,
    pub window: Window<u64>,
}

/// Whether there is such a kind, with such numbers.
fn is_taken(kind: u32, room: usize, max: usize, workers: u32) -> bool
    ensures { IsTrue result ↔ IsTaken kind room max workers }
{
    1 <= kind
        && kind <= 3
        && 1 <= room
        && (kind == 1 || 1 <= max)
        && (kind == 2 || 1 <= workers && workers <= 64)
}

/// The mask of so many workers.
fn mask_of(workers: u32) -> u64
    requires least { 1 ≤ workers }
    requires most { workers ≤ 64 }
    ensures { result ≡ 2 ^ workers - 1 }
{
    if workers == 64 {
        return u64::MAX;
    }
    (1u64 << workers) - 1
}

/// A window, under the error of pipes.
fn window(
    alloc: Global,
    room: usize,
    max: usize,
    serial: bool,
    mask: u64,
) -> Result<Window<u64>, PipeErr>
    ensures { MatchResult result (λ w. w ≡ pipes.window_of room max serial mask) (λ e. e ≡ errors.NoMemory) }
{
    match Window::new(alloc, room, max, serial, mask) {
        Ok(window) => Ok(window),
        Err(_) => Err(PipeErr::NoMemory),
    }
}

impl Pipe {
    /// A pipe of this kind, with room for so many requests in flight: 1 is pcrypt, whose workers are those below
    /// `workers`; 2 cryptd, of which `max` requests wait before its backlog begins; 3 cryptd in front of pcrypt.
    pub fn new(
        alloc: Global,
        kind: u32,
        room: usize,
        max: usize,
        workers: u32,
    ) -> Result<Pipe, PipeErr>
        ensures { Begins kind room max workers result }
    {
        if !is_taken(kind, room, max, workers) {
            return Err(PipeErr::Invalid);
        }
        if kind == 1 {
            let mask = mask_of(workers);
            return Ok(Pipe {
                kind: PipeKind::Pcrypt(mask),
                window: window(alloc, room, room, false, mask)?,
            });
        }
        if kind == 2 {
            return Ok(Pipe {
                kind: PipeKind::Cryptd,
                window: window(alloc, room, max, true, u64::MAX)?,
            });
        }
        Ok(Pipe {
            kind: PipeKind::CryptdPcrypt,
            window: window(alloc, room, max, false, mask_of(workers))?,
        })
    }

    /// Whether it accepts nothing: it is pcrypt with no worker in its mask.
    fn is_closed(&self) -> bool
        ensures { IsTrue result ↔ pipes.IsClosed self.now.kind self.now.window.mask }
    {
        match self.kind {
            PipeKind::Pcrypt(_) => self.window.mask() == 0,
            _ => false,
        }
    }

    /// Takes requests in from the first on, until one is refused. How many; where none of some is, why not. `first` is
    /// the number of the first, and those below `started` don't wait in the backlog.
    pub fn submit(
        &mut self,
        addresses: &[u64],
        backlog: bool,
        first: &mut u64,
        started: &mut u64,
    ) -> Result<usize, PipeErr>
        ensures { Submits self.old self.new addresses.now backlog first.new started.new result }
    {
        *first = self.window.submitted();
        *started = self.window.started();
        if self.is_closed() {
            return Err(PipeErr::Invalid);
        }
        let accepted = self.window.submit_many(addresses, backlog);
        if accepted.count > 0 {
            return Ok(accepted.count);
        }
        match accepted.refusal {
            None => Ok(0),
            Some(Refusal::Full) => Err(PipeErr::Again),
            Some(Refusal::NoSpace) => Err(PipeErr::NoSpace),
            Some(Refusal::Ended) => Err(PipeErr::Overflow),
        }
    }

    /// Hands requests to the worker, at most as many as `out` has places. How many, from number `first` on.
    pub fn take(&mut self, worker: u32, out: &mut [u64], first: &mut u64) -> usize
        ensures { Takes self.old self.new worker out.old out.new first.new result }
    {
        *first = self.window.taken();
        self.window.take_many(worker, out)
    }

    /// Records that the worker is done with requests, from number `first` on, until one is none that it runs. How many.
    /// `Invalid` where none of some is.
    pub fn finish(&mut self, worker: u32, first: u64, count: usize) -> Result<usize, PipeErr>
        ensures { Finishes self.old self.new worker first count result }
    {
        let done = self.window.finish_many(first, count as u64, worker);
        if done == 0 && count > 0 {
            return Err(PipeErr::Invalid);
        }
        Ok(done as usize)
    }

    /// Hands out the next requests that are done, in order, at most as many as `out` has places. How many, from number
    /// `first` on.
    pub fn poll(&mut self, out: &mut [u64], first: &mut u64) -> usize
        ensures { Polls self.old self.new out.old out.new first.new result }
    {
        *first = self.window.polled();
        self.window.poll_many(out)
    }

    /// From now on no worker takes, until `go`. `Invalid` where the pipe has no queue.
    pub fn hold(&mut self) -> Result<(), PipeErr>
        ensures { Holds self.old self.new true result }
    {
        if matches!(self.kind, PipeKind::Pcrypt(_)) {
            return Err(PipeErr::Invalid);
        }
        self.window.hold();
        Ok(())
    }

    /// From now on workers take again. `Invalid` where the pipe has no queue.
    pub fn go(&mut self) -> Result<(), PipeErr>
        ensures { Holds self.old self.new false result }
    {
        if matches!(self.kind, PipeKind::Pcrypt(_)) {
            return Err(PipeErr::Invalid);
        }
        self.window.go();
        Ok(())
    }

    /// From now on the workers whose bits are set take: bit i stands for worker i. Where none is set, the pipe accepts
    /// nothing. `Invalid` where it isn't pcrypt, or a bit stands at or above the number of its workers.
    pub fn mask(&mut self, bits: u64) -> Result<(), PipeErr>
        ensures { Masks self.old self.new bits result }
    {
        let PipeKind::Pcrypt(full) = self.kind else {
            return Err(PipeErr::Invalid);
        };
        if bits > full {
            return Err(PipeErr::Invalid);
        }
        self.window.set_mask(bits);
        Ok(())
    }
}
