//! Threads that append to one log.

ghost use Rattle.std.specs.Prelude.{◌≡◌, ◌+◌, ◌<◌, ◌^◌, ◌∷◌, ◌++◌, [], true, IfOk, MatchResult};
ghost use Rattle.std.specs.Thread.{IsSync};
ghost use Rattle.turn_lock.specs.declared.tests.Entry.{Entry};
ghost use Rattle.turn_lock.specs.Passes.{knows, IsPassOf};
ghost use Rattle.turn_lock.specs.Turns.{of};
ghost use Rattle.turn_lock.specs.PassLaws.{AtTurn, Enters, Leaves};

use crate::{Pass, Told, TurnLock};
use std::alloc::{AllocError, Global};
use std::sync::Wait;
use std::test::Fail;
use std::thread::{Threads, join};
use std::time::Instant;

/// Who made an entry, and how many it had made before.
#[derive(Clone, Copy)]
struct Entry {
    by: u32,
    place: u32,
}

#[derive(Drop)]
struct Log {
    entries: Vec<Entry>,
}

impl Told for Log {
    type Entry = Entry;

    ghost told = { λ log. log.entries.items };

    ghost by = { λ entry. entry.by };
}

impl Log {
    fn add(&mut self, by: u32, place: u32) -> Result<(), AllocError>
        ensures { MatchResult result
            (λ _. self.new.entries.items ≡ self.old.entries.items ++ record { by = by; place = place } ∷ [])
            (λ _. self.new.entries.items ≡ self.old.entries.items) }
    {
        self.entries.push(Entry { by, place })?;
        Ok(())
    }
}

type LogPass = Pass<Entry>;

/// The pass adds the entry at its turn, if there was memory for it.
fn append<R: Wait>(
    rt: &R,
    lock: &TurnLock<Log>,
    pass: LogPass,
    place: u32,
) -> (LogPass, Result<(), AllocError>)
    requires { IsPassOf lock.now pass }
    ensures lock { IsPassOf lock.now result.0 }
    ensures turn { AtTurn (λ (e : Entry). e.by) (λ _. Unit {0}) (knows pass) (λ h. MatchResult result.1
        (λ _. Enters (λ _. Unit {0}) (knows pass) h (record { by = (knows pass).number; place = place }) (knows result.0))
        (λ _. Leaves (knows pass) h (knows result.0))) }
{
    let by = pass.number();
    let mut turn = lock.take(rt, pass);
    let answer = turn.get().add(by, place);
    let added = answer.is_ok();
    (turn.give(added), answer)
}

/// Takes a turn for each entry.
fn append_each<R: Wait>(rt: &R, lock: &TurnLock<Log>, pass: LogPass, count: u32) -> LogPass
    requires { IsPassOf lock.now pass }
    ensures { IsPassOf lock.now result }
{
    let mut mine = pass;
    for place in 0..count {
        mine = append(rt, lock, mine, place).0;
    }
    mine
}

/// Two threads append once each. Where a thread's entry was made, the log has it once under the thread's number, and no
/// other.
fn two<R: Threads + Wait + Sync>(rt: &R, alloc: Global) -> Result<(Log, bool, bool), AllocError>
    ensures first { IfOk result (λ r. r.1 ≡ true → of (λ (e : Entry). e.by) 0 r.0.entries.items ≡ record { by = 0; place = 7 } ∷ []) }
    ensures second { IfOk result (λ r. r.2 ≡ true → of (λ (e : Entry). e.by) 1 r.0.entries.items ≡ record { by = 1; place = 8 } ∷ []) }
{
    let log = Log {
        entries: Vec::new(alloc),
    };
    let (lock, pass) = TurnLock::new(alloc, log)?;
    let (pass, other) = lock.split(pass, 1);
    let shared = &lock;
    let (a, b) = join(
        rt,
        move || append(rt, shared, pass, 7),
        move || append(rt, shared, other, 8),
    );
    let (pass, first) = a;
    let (other, second) = b;
    let pass = shared.join(pass, other);
    Ok((lock.finish(rt, pass), first.is_ok(), second.is_ok()))
}

/// Gives each thread a pass, beside which the rest is started, and joins what comes back.
fn spread<R: Threads + Wait + Sync>(
    rt: &R,
    lock: &TurnLock<Log>,
    pass: LogPass,
    threads: u32,
    count: u32,
) -> LogPass
    requires lock { IsPassOf lock.now pass }
    requires room { (knows pass).next + threads < 2 ^ 32 }
    ensures { IsPassOf lock.now result }
{
    if threads == 0 {
        return pass;
    }
    let number = pass.next();
    let (own, other) = lock.split(pass, number);
    let rest = threads - 1;
    let (other, mine) = join(
        rt,
        move || -> LogPass
            requires { IsPassOf lock.now other }
            ensures { IsPassOf lock.entry.now result }
        { append_each(rt, lock, other, count) },
        move || -> LogPass
            requires lock { IsPassOf lock.now own }
            requires shared { IsSync R.row }
            requires room { (knows own).next + rest < 2 ^ 32 }
            ensures { IsPassOf lock.entry.now result }
        { spread(rt, lock, own, rest, count) },
    );
    lock.join(mine, other)
}

/// The log of threads that ran beside one another, of which each appended as many entries.
fn log_of<R: Threads + Wait + Sync>(
    rt: &R,
    alloc: Global,
    threads: u32,
    count: u32,
) -> Result<Log, AllocError>
    requires { threads < 100 }
{
    let log = Log {
        entries: Vec::new(alloc),
    };
    let (lock, pass) = TurnLock::new(alloc, log)?;
    let pass = spread(rt, &lock, pass, threads, count);
    Ok(lock.finish(rt, pass))
}

/// Each entry of a thread stands once, and in the order in which it was made.
fn is_whole(log: &Log, threads: u32, count: u32) -> bool {
    let all = log.entries.len() as u64 == u64::from(threads) * u64::from(count);
    all && (1..=threads).all(|by| {
        let own = log.entries.iter().filter(|entry| entry.by == by);
        own.map(|entry| entry.place).eq(0..count)
    })
}

#[test]
fn has_what_two_threads_appended(rt: HostRuntime) -> Result<(), Fail> {
    let (log, first, second) = two(&rt, rt.alloc())?;
    assert!(rt; first && second);
    assert_eq!(rt; log.entries.len(), 2);
    Ok(())
}

#[test]
fn keeps_what_each_thread_appended(rt: HostRuntime) -> Result<(), Fail> {
    for (threads, count) in [(2, 300), (8, 100), (16, 1000)] {
        let start = Instant::now(&rt)?;
        let log = log_of(&rt, rt.alloc(), threads, count)?;
        let took = start.elapsed(&rt)?.as_millis();
        eprintln!(rt; "{threads} threads appended {count} entries each in {took} ms")?;
        assert!(rt; is_whole(&log, threads, count));
    }
    Ok(())
}
