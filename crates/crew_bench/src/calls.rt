//! A caller with one pad, beside workers.

ghost use Rattle.std.specs.Prelude.{◌≡◌, ◌<◌, ℕ, IfOk};
ghost use Rattle.turn_lock.specs.Passes.{knows};
ghost use Rattle.board.specs.Legal.{IsNoWorker};
ghost use Rattle.shared_board.specs.Passes.{IsPassOn};
ghost use Rattle.crew_bench.specs.Ready.{IsFirst, StaysFirst, Ready};

use crate::laws::board_laws;
use crate::load::{Load, Spun, folded};
use board::BoardErr;
use crew::{Gate, Passes, drain, run_crew};
use kc_base::Callbacks;
use shared_board::{BoardPass, SharedBoard};
use shared_registry::SharedRegistry;
use std::alloc::Global;
use std::sync::Wait;
use std::thread::Threads;

/// Makes a pad from which all sixteen workers may take.
pub(crate) fn make<R: Wait>(
    rt: &R,
    board: &SharedBoard<Load>,
    pass: BoardPass<Load>,
) -> (BoardPass<Load>, Result<u64, BoardErr>)
    requires lock { IsPassOn board.now pass }
    requires caller { IsNoWorker (knows pass).number }
    ensures lock { IsPassOn board.now result.0 }
    ensures first { StaysFirst (knows pass) (knows result.0) }
    ensures ready { IfOk result.1 (λ pipe. Ready pipe (knows result.0)) }
{
    board_laws::<u64, Spun>();
    board.born_pad(rt, pass, 16)
}

/// Submits a job.
pub(crate) fn submit_one<R: Wait>(
    rt: &R,
    board: &SharedBoard<Load>,
    pass: BoardPass<Load>,
    pipe: u64,
    turns: u64,
) -> (BoardPass<Load>, Result<u64, BoardErr>)
    requires lock { IsPassOn board.now pass }
    requires ready { Ready pipe (knows pass) }
    ensures lock { IsPassOn board.now result.0 }
    ensures ready { Ready pipe (knows result.0) }
    ensures first { StaysFirst (knows pass) (knows result.0) }
{
    board_laws::<u64, Spun>();
    board.submit(rt, pass, pipe, Load { turns })
}

/// Submits so many jobs, one after another.
pub(crate) fn submit_all<R: Wait>(
    rt: &R,
    board: &SharedBoard<Load>,
    pass: BoardPass<Load>,
    pipe: u64,
    jobs: u32,
    turns: u64,
) -> BoardPass<Load>
    requires lock { IsPassOn board.now pass }
    requires ready { Ready pipe (knows pass) }
    ensures lock { IsPassOn board.now result }
    ensures ready { Ready pipe (knows result) }
    ensures first { StaysFirst (knows pass) (knows result) }
{
    let mut mine = pass;
    for _ in 0..jobs {
        mine = submit_one(rt, board, mine, pipe, turns).0;
    }
    mine
}

/// Drains the pad.
pub(crate) fn drain_all<G: Gate, R: Wait>(
    rt: &R,
    board: &SharedBoard<Load>,
    pass: BoardPass<Load>,
    pipe: u64,
    into: &mut Callbacks<Spun>,
    gate: &G,
) -> (BoardPass<Load>, Result<(), BoardErr>)
    requires lock { IsPassOn board.now pass }
    requires ready { Ready pipe (knows pass) }
    ensures lock { IsPassOn board.now result.0 }
    ensures first { StaysFirst (knows pass) (knows result.0) }
{
    board_laws::<u64, Spun>();
    drain(rt, board, pass, pipe, into, gate)
}

/// Makes a pad, submits so many jobs and drains it. Answers one number of all that came out.
fn work_through<G: Gate, R: Wait>(
    rt: &R,
    alloc: Global,
    board: &SharedBoard<Load>,
    pass: BoardPass<Load>,
    jobs: u32,
    turns: u64,
    gate: &G,
) -> (BoardPass<Load>, Result<u64, BoardErr>)
    requires lock { IsPassOn board.now pass }
    requires caller { IsNoWorker (knows pass).number }
    ensures lock { IsPassOn board.now result.0 }
    ensures first { StaysFirst (knows pass) (knows result.0) }
{
    let mut into = Callbacks::new(alloc);
    let (pass, made) = make(rt, board, pass);
    match made {
        Ok(pipe) => {
            let pass = submit_all(rt, board, pass, pipe, jobs, turns);
            let (pass, answer) = drain_all(rt, board, pass, pipe, &mut into, gate);
            match answer {
                Ok(()) => (pass, Ok(folded(&into))),
                Err(e) => (pass, Err(e)),
            }
        }
        Err(e) => (pass, Err(e)),
    }
}

/// The same, and shuts the board. Nothing is asked of the registry.
fn main_part<G: Gate, R: Wait>(
    rt: &R,
    alloc: Global,
    board: &SharedBoard<Load>,
    passes: Passes<u64>,
    jobs: u32,
    turns: u64,
    gate: &G,
) -> (Passes<u64>, Result<u64, BoardErr>)
    requires lock { IsPassOn board.now passes.board }
    requires first { IsFirst (knows passes.board) }
    ensures lock { IsPassOn board.now result.0.board }
    ensures registry { result.0.registry ≡ passes.registry }
{
    let Passes {
        board: pass,
        registry,
    } = passes;
    let (pass, answer) = work_through(rt, alloc, board, pass, jobs, turns, gate);
    let passes = Passes {
        board: board.shut(rt, pass),
        registry,
    };
    (passes, answer)
}

/// Does so many jobs of so many turns beside so many workers, on a board of its own and beside an empty registry.
/// Answers one number of all that came out, or `None` where memory ran out.
pub(crate) fn crew_of<G: Gate + Sync, R: Threads + Wait + Sync>(
    rt: &R,
    alloc: Global,
    workers: u32,
    jobs: u32,
    turns: u64,
    gate: &G,
) -> Option<u64>
    requires { workers < 17 }
{
    let (board, board_pass) = SharedBoard::new(alloc).ok()?;
    let (registry, registry_pass) = SharedRegistry::new(alloc).ok()?;
    let shared = &board;
    let known = &registry;
    let passes = Passes {
        board: board_pass,
        registry: registry_pass,
    };
    let mut main = |passes: Passes<u64>| -> (Passes<u64>, Result<u64, BoardErr>)
        requires lock { IsPassOn shared.now passes.board }
        requires first { IsFirst (knows passes.board) }
        ensures lock { IsPassOn shared.entry.now result.0.board }
        ensures registry { result.0.registry ≡ passes.registry }
    { main_part(rt, alloc, shared, passes, jobs, turns, gate) };
    let (passes, answer) = run_crew(rt, alloc, workers, shared, known, passes, gate, &mut main);
    let Passes {
        board: board_pass,
        registry: registry_pass,
    } = passes;
    drop(board.finish_all(rt, board_pass));
    drop(registry.finish_all(rt, registry_pass));
    answer.ok()
}
