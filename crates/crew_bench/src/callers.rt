//! Callers beside one another, each with a pad of its own.

ghost use Rattle.std.specs.Prelude.{◌≡◌, ◌+◌, ◌<◌, ◌≤◌, ◌^◌};
ghost use Rattle.std.specs.Thread.{IsSync};
ghost use Rattle.turn_lock.specs.Passes.{knows};
ghost use Rattle.board.specs.Legal.{IsNoWorker};
ghost use Rattle.shared_board.specs.Passes.{IsPassOn};

use crate::calls::{drain_all, make, submit_all};
use crate::load::{Load, Spun};
use crew::Gate;
use kc_base::{Callback, Callbacks};
use shared_board::{BoardPass, SharedBoard};
use std::alloc::Global;
use std::sync::Wait;
use std::thread::{Threads, join};

/// Whether these are the completions of so many jobs, in their order.
fn are_in_order(into: &Callbacks<Spun>, jobs: u32) -> bool {
    let numbers = into.as_slice().iter().map(|callback| match callback {
        Callback::Done(number, _) => *number,
        Callback::Started(_) => u64::MAX,
    });
    numbers.eq(0..u64::from(jobs))
}

/// Makes a pad, submits jobs and drains it. Answers whether they came in order.
fn sees_its_own<G: Gate, R: Wait>(
    rt: &R,
    alloc: Global,
    board: &SharedBoard<Load>,
    pass: BoardPass<Load>,
    jobs: u32,
    gate: &G,
) -> (BoardPass<Load>, bool)
    requires lock { IsPassOn board.now pass }
    requires caller { IsNoWorker (knows pass).number }
    ensures { IsPassOn board.now result.0 }
{
    let mut into = Callbacks::new(alloc);
    let (pass, made) = make(rt, board, pass);
    match made {
        Ok(pipe) => {
            let pass = submit_all(rt, board, pass, pipe, jobs, 20);
            let (pass, answer) = drain_all(rt, board, pass, pipe, &mut into, gate);
            (pass, answer.is_ok() && are_in_order(&into, jobs))
        }
        Err(_) => (pass, false),
    }
}

/// Starts so many callers beside one another, with numbers above those of workers.
pub(crate) fn all_see_their_own<G: Gate + Sync, R: Threads + Wait + Sync>(
    rt: &R,
    alloc: Global,
    board: &SharedBoard<Load>,
    pass: BoardPass<Load>,
    left: u32,
    jobs: u32,
    gate: &G,
) -> (BoardPass<Load>, bool)
    requires lock { IsPassOn board.now pass }
    requires above { 17 ≤ (knows pass).next }
    requires room { (knows pass).next + left < 2 ^ 32 }
    ensures { IsPassOn board.now result.0 }
{
    if left == 0 {
        return (pass, true);
    }
    let number = pass.next();
    let (own, other) = board.split(pass, number);
    let rest = left - 1;
    let ((other, one), (own, others)) = join(
        rt,
        move || -> (BoardPass<Load>, bool)
            requires lock { IsPassOn board.now other }
            requires caller { IsNoWorker (knows other).number }
            ensures { IsPassOn board.entry.now result.0 }
        { sees_its_own(rt, alloc, board, other, jobs, gate) },
        move || -> (BoardPass<Load>, bool)
            requires lock { IsPassOn board.now own }
            requires shared { IsSync R.row }
            requires gate { IsSync G.row }
            requires above { 17 ≤ (knows own).next }
            requires room { (knows own).next + rest < 2 ^ 32 }
            ensures { IsPassOn board.entry.now result.0 }
        { all_see_their_own(rt, alloc, board, own, rest, jobs, gate) },
    );
    (board.join(own, other), one && others)
}

/// Whether so many callers each see their own jobs in order.
pub(crate) fn callers_see_their_own<G: Gate + Sync, R: Threads + Wait + Sync>(
    rt: &R,
    alloc: Global,
    callers: u32,
    jobs: u32,
    gate: &G,
) -> Option<bool>
    requires { callers < 100 }
{
    let (board, pass) = SharedBoard::new(alloc).ok()?;
    let (pass, _) = board.split(pass, 16);
    let (pass, all) = all_see_their_own(rt, alloc, &board, pass, callers, jobs, gate);
    let log = board.finish_all(rt, pass);
    drop(log);
    Some(all)
}
