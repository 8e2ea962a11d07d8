//! Sources and sinks in memory.
ghost use Rattle.std.specs.Prelude.{◌≡◌, ◌<◌, ◌≤◌, List, ℕ, [], Some, min, take, drop, replicate, length, vec_len};
ghost use Rattle.kc_base.specs.Memory.{read_of, feed_after, IsWriteOf, store_after};
ghost use Rattle.kc_base.specs.Streams.{IsReadCount, IsWriteCount, Reads, Writes, Rose};

use crate::{Bytes, ReadAnswer, Sink, Source, WriteAnswer};
use std::alloc::Global;
use std::marker::Model;

/// A source that never fails. It is seen as the bytes that are left.
#[derive(Drop)]
pub struct SureSource {
    bytes: Vec<u8>,
    at: usize,
}

impl Model for SureSource {
    ghost Value = { List ℕ };

    ghost view = { λ s. drop s.at s.bytes.items };

    ghost invariant = { λ s. s.at ≤ vec_len s.bytes };
}

impl SureSource {
    /// A source of these bytes.
    pub fn new(bytes: Bytes) -> SureSource
        ensures { result ≡ bytes }
    {
        SureSource {
            bytes: bytes.into_vec(),
            at: 0,
        }
    }
}

// Copies as much as there is room for, up to a limit, and says how much.
fn copy_front(from: &[u8], into: &mut [u8], limit: usize) -> usize
    ensures count { result ≡ min (min (length from.now) (length into.new)) limit }
    ensures bytes { take result into.new ≡ take result from.now }
{
    let count = from.len().min(into.len()).min(limit);
    into[..count].copy_from_slice(&from[..count]);
    count
}

impl Source for SureSource {
    ghost left = { λ s. Some s };

    ghost faults = { λ _. 0 };

    fn read(&mut self, buf: &mut [u8]) -> ReadAnswer {
        let count = copy_front(&self.bytes[self.at..], buf, buf.len());
        if count == 0 {
            return ReadAnswer::Ended;
        }
        self.at += count;
        ReadAnswer::Got(count)
    }
}

/// A sink that never fails. It is seen as the bytes that it holds.
#[derive(Drop)]
pub struct SureSink {
    held: Bytes,
}

impl Model for SureSink {
    ghost Value = { List ℕ };

    ghost view = { λ s. s.held };
}

impl SureSink {
    /// A sink that holds nothing yet.
    pub fn new(alloc: Global) -> SureSink
        ensures { result ≡ [] }
    {
        SureSink {
            held: Bytes::new(alloc),
        }
    }

    /// The bytes that it has taken, in order.
    pub fn bytes(&self) -> &[u8]
        ensures { result.now ≡ self.now }
    {
        self.held.as_slice()
    }
}

impl Sink for SureSink {
    ghost held = { λ s. Some s };

    ghost faults = { λ _. 0 };

    fn write(&mut self, piece: &[u8]) -> WriteAnswer {
        match self.held.append(piece) {
            Ok(()) => WriteAnswer::Took(piece.len()),
            Err(_) => WriteAnswer::NoMemory,
        }
    }
}

/// A source that gives at most `step` bytes a read, and fails the reads whose numbers are listed.
#[derive(Drop)]
pub struct MemSource {
    bytes: Vec<u8>,
    at: usize,
    step: usize,
    failing: Vec<u64>,
    calls: u64,
    faults: u64,
}

impl Model for MemSource {
    ghost use Rattle.std.specs.Prelude.{◌≤◌, ◌<◌, drop, vec_len};
    ghost use Rattle.kc_base.specs.Memory.{Feed};

    ghost Value = { Feed };

    ghost view = { λ s. record {
      left = drop s.at s.bytes.items;
      step = s.step;
      failing = s.failing.items;
      calls = s.calls;
      faults = s.faults;
    } };

    ghost invariant = { λ s. (s.at ≤ vec_len s.bytes) × (0 < s.step) };
}

impl MemSource {
    /// A source of these bytes, at most `step` a read, which is above 0. Reads are counted from 0, and those whose
    /// numbers `failing` lists fail.
    pub fn new(bytes: Bytes, step: usize, failing: Vec<u64>) -> MemSource
        requires { 0 < step }
        ensures { result ≡ record { left = bytes; step = step; failing = failing.items; calls = 0; faults = 0 } }
    {
        MemSource {
            bytes: bytes.into_vec(),
            at: 0,
            step,
            failing,
            calls: 0,
            faults: 0,
        }
    }
}

impl Source for MemSource {
    ghost left = { λ s. Some s.left };

    ghost faults = { λ s. s.faults };

    fn read(&mut self, buf: &mut [u8]) -> ReadAnswer
        requires { 0 < length buf.old }
        ensures count { IsReadCount result (length buf.new) }
        ensures bytes { Reads (Some self.old.left) (Some self.new.left) result buf.new }
        ensures later { self.old.faults ≤ self.new.faults }
        ensures cause { result ≡ ReadAnswer.Failed → Rose self.old.faults self.new.faults }
        ensures answer { result ≡ read_of self.old (length buf.old) }
        ensures feed { self.new ≡ feed_after self.old (length buf.old) }
    {
        let call = self.calls;
        self.calls = call.saturating_add(1);
        if self.failing.contains(&call) {
            self.faults = self.faults.saturating_add(1);
            return ReadAnswer::Failed;
        }
        let count = copy_front(&self.bytes[self.at..], buf, self.step);
        if count == 0 {
            return ReadAnswer::Ended;
        }
        self.at += count;
        ReadAnswer::Got(count)
    }
}

/// A sink that takes at most `step` bytes a write, and fails the writes whose numbers are listed.
#[derive(Drop)]
pub struct MemSink {
    held: Bytes,
    step: usize,
    failing: Vec<u64>,
    calls: u64,
    faults: u64,
}

impl Model for MemSink {
    ghost use Rattle.std.specs.Prelude.{◌<◌};
    ghost use Rattle.kc_base.specs.Memory.{Store};

    ghost Value = { Store };

    ghost view = { λ s. record { held = s.held; step = s.step; failing = s.failing.items; calls = s.calls; faults = s.faults } };

    ghost invariant = { λ s. 0 < s.step };
}

impl MemSink {
    /// A sink that holds nothing yet, and takes at most `step` bytes a write, which is above 0. Writes are counted from
    /// 0, and those whose numbers `failing` lists fail.
    pub fn new(alloc: Global, step: usize, failing: Vec<u64>) -> MemSink
        requires { 0 < step }
        ensures { result ≡ record { held = []; step = step; failing = failing.items; calls = 0; faults = 0 } }
    {
        MemSink {
            held: Bytes::new(alloc),
            step,
            failing,
            calls: 0,
            faults: 0,
        }
    }

    /// The bytes that it has taken, in order.
    pub fn bytes(&self) -> &[u8]
        ensures { result.now ≡ self.now.held }
    {
        self.held.as_slice()
    }
}

impl Sink for MemSink {
    ghost held = { λ s. Some s.held };

    ghost faults = { λ s. s.faults };

    fn write(&mut self, piece: &[u8]) -> WriteAnswer
        requires { 0 < length piece.now }
        ensures count { IsWriteCount result (length piece.now) }
        ensures bytes { Writes (Some self.old.held) (Some self.new.held) result piece.now }
        ensures later { self.old.faults ≤ self.new.faults }
        ensures cause { result ≡ WriteAnswer.Failed → Rose self.old.faults self.new.faults }
        ensures answer { IsWriteOf self.old result (length piece.now) }
        ensures store { self.new ≡ store_after self.old result piece.now }
    {
        let call = self.calls;
        self.calls = call.saturating_add(1);
        if self.failing.contains(&call) {
            self.faults = self.faults.saturating_add(1);
            return WriteAnswer::Failed;
        }
        let count = piece.len().min(self.step);
        match self.held.append(&piece[..count]) {
            Ok(()) => WriteAnswer::Took(count),
            Err(_) => WriteAnswer::NoMemory,
        }
    }
}

/// A source that gives one byte many times, and never fails.
#[derive(Drop)]
pub struct RepeatSource {
    byte: u8,
    count: u64,
}

impl Model for RepeatSource {
    ghost use Rattle.kc_base.specs.Memory.{Repeated};

    ghost Value = { Repeated };

    ghost view = { λ s. record { byte = s.byte; count = s.count } };
}

impl RepeatSource {
    /// A source of `count` bytes `byte`.
    pub fn new(byte: u8, count: u64) -> RepeatSource
        ensures { result ≡ record { byte = byte; count = count } }
    {
        RepeatSource { byte, count }
    }
}

// Fills as much as there is room for, up to a limit, and says how much.
fn fill_front(into: &mut [u8], byte: u8, limit: u64) -> usize
    ensures count { result ≡ min (length into.new) limit }
    ensures bytes { take result into.new ≡ replicate result byte }
{
    let mut count = 0usize;
    for slot in into.iter_mut() {
        if count as u64 >= limit {
            return count;
        }
        *slot = byte;
        count += 1;
    }
    count
}

impl Source for RepeatSource {
    ghost left = { λ s. Some (replicate s.count s.byte) };

    ghost faults = { λ _. 0 };

    fn read(&mut self, buf: &mut [u8]) -> ReadAnswer {
        let count = fill_front(buf, self.byte, self.count);
        if count == 0 {
            return ReadAnswer::Ended;
        }
        self.count -= count as u64;
        ReadAnswer::Got(count)
    }
}
