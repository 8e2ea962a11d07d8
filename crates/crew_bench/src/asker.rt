//! A caller that asks for an algorithm and builds nothing, beside a worker.

ghost use Rattle.std.specs.Prelude.{◌≡◌, ◌<◌, length};
ghost use Rattle.alg_registry.specs.Rows.{texts};
ghost use Rattle.turn_lock.specs.Passes.{knows};
ghost use Rattle.shared_registry.specs.Passes.{IsPassOn};
ghost use Rattle.crew.specs.Both.{ArePassesOn};
ghost use Rattle.crew_bench.specs.Ready.{IsFirst};

use crate::load::Load;
use alg_registry::{EndAnswer, Ended, Looked, RegEntry, RegLog, names_exist};
use crew::{NoGate, Passes, run_crew};
use shared_board::SharedBoard;
use shared_registry::{RegPass, SharedRegistry};
use std::alloc::Global;
use std::sync::Wait;
use std::thread::{Threads, yield_now};

/// Asks how the larval ended until it has. Gives up after 10,000,000 turns.
fn ask_until<R: Wait>(
    rt: &R,
    registry: &SharedRegistry,
    pass: RegPass,
    larval: u64,
) -> (RegPass, Option<Ended>)
    requires lock { IsPassOn registry.now pass }
    requires began { larval < length (texts (knows pass).seen) }
    ensures { IsPassOn registry.now result.0 }
{
    let mut mine = pass;
    for _ in 0..10_000_000u32 {
        let (back, ended) = registry.waited(rt, mine, larval);
        match ended {
            Ok(answer) => match answer {
                Some(ended) => return (back, Some(ended)),
                None => mine = back,
            },
            Err(_) => return (back, None),
        }
        yield_now();
    }
    (mine, None)
}

/// Leaves the processor to others so many times: after some thousand times workers without work sleep.
fn let_others_run(times: u32) {
    for _ in 0..times {
        yield_now();
    }
}

/// Looks for `cbc(aes)`, claims nothing and asks how the larval ended.
fn look_and_ask<R: Wait>(
    rt: &R,
    registry: &SharedRegistry,
    pass: RegPass,
) -> (RegPass, Option<Ended>)
    requires lock { IsPassOn registry.now pass }
    requires caller { (knows pass).number ≡ 0 }
    ensures { IsPassOn registry.now result.0 }
{
    names_exist();
    let (pass, looked) = registry.look(rt, pass, b"cbc(aes)", false);
    let answer = match looked {
        Ok(answer) => answer,
        Err(_) => return (pass, None),
    };
    match answer {
        Looked::Began(larval) => ask_until(rt, registry, pass, larval),
        _ => (pass, None),
    }
}

/// The caller's part: it leaves the processor so many times, asks only, and then shuts the board.
fn ask_only<R: Wait>(
    rt: &R,
    board: &SharedBoard<Load>,
    registry: &SharedRegistry,
    passes: Passes<u64>,
    times: u32,
) -> (Passes<u64>, Option<Ended>)
    requires lock { ArePassesOn board.now registry.now passes }
    requires first { IsFirst (knows passes.board) }
    requires caller { (knows passes.registry).number ≡ 0 }
    ensures { ArePassesOn board.now registry.now result.0 }
{
    let Passes {
        board: on_board,
        registry: on_registry,
    } = passes;
    let_others_run(times);
    let (on_registry, ended) = look_and_ask(rt, registry, on_registry);
    let passes = Passes {
        board: board.shut(rt, on_board),
        registry: on_registry,
    };
    (passes, ended)
}

/// How what the caller asked for ended beside one worker, after it left the processor to others so many times, and the
/// registry's history.
pub(crate) fn asked_beside_worker<R: Threads + Wait + Sync>(
    rt: &R,
    alloc: Global,
    times: u32,
) -> Option<(Option<Ended>, RegLog)> {
    let (board, board_pass) = SharedBoard::new(alloc).ok()?;
    let (registry, registry_pass) = SharedRegistry::new(alloc).ok()?;
    let shared = &board;
    let known = &registry;
    let passes = Passes {
        board: board_pass,
        registry: registry_pass,
    };
    let mut main = |passes: Passes<u64>| -> (Passes<u64>, Option<Ended>)
        requires lock { ArePassesOn shared.now known.now passes }
        requires first { IsFirst (knows passes.board) }
        requires caller { (knows passes.registry).number ≡ 0 }
        ensures { ArePassesOn shared.entry.now known.entry.now result.0 }
    { ask_only(rt, shared, known, passes, times) };
    let (passes, ended) = run_crew(rt, alloc, 1, shared, known, passes, &NoGate, &mut main);
    let Passes {
        board: board_pass,
        registry: registry_pass,
    } = passes;
    drop(board.finish_all(rt, board_pass));
    Some((ended, registry.finish_all(rt, registry_pass)))
}

fn is_built_by(entry: &RegEntry, number: u32) -> bool {
    match entry {
        RegEntry::End {
            caller,
            answer: EndAnswer::Built(_, _),
            ..
        } => *caller == number,
        _ => false,
    }
}

/// How many instances this caller built.
pub(crate) fn count_built_by(log: &RegLog, number: u32) -> usize {
    let entries = log.entries().iter();
    entries.filter(|entry| is_built_by(entry, number)).count()
}
