//! A whole script beside workers.

ghost use Rattle.std.specs.Prelude.{◌≡◌, ◌≤◌, [], Err, true, IfOk};
ghost use Rattle.board.specs.Entries.{caller_of};
ghost use Rattle.board.specs.Legal.{is_shut};
ghost use Rattle.crew.specs.Both.{ArePassesOn, HaveNext, CrewedOnBoth};
ghost use Rattle.script_session.specs.PerformedDialogue.{HasSeenMore};
ghost use Rattle.shared_board.specs.Passes.{IsPassOn};
ghost use Rattle.turn_lock.specs.PassLaws.{IsOwn};
ghost use Rattle.turn_lock.specs.Passes.{knows};
ghost use Rattle.turn_lock.specs.Turns.{fresh_pass};
ghost use Rattle.script_run.specs.Answered.{AnswersSource, ShutsAlone};
ghost use Rattle.script_run.specs.Faults.{TellsFaults};
ghost use Rattle.script_run.specs.WithWorkers.{ScriptRan};
ghost use Rattle.script_run.specs.Laws.{CrewLaws};
ghost use Rattle.script_run.specs.Runs.{OthersFollow, AreNew, IsUnshutOrEnds, WasShut};

use crate::errors::RunError;
use crate::laws::nothing_is_broken_off;
use crate::lines::{laws, run_lines};
use alg_registry::{RegEntry, RegLog};
use board::{BoardEntry, BoardLog, others_leave, work_ends};
use crew::{Gate, Passes, crew_works, crews_end, run_crew};
use kc_base::{Sink, Source};
use script_session::Session;
use settled_scripts::settled_scripts_print_plain;
use shared_board::{BoardPass, SharedBoard};
use shared_registry::{RegPass, SharedRegistry};
use std::alloc::{AllocError, Global};
use std::sync::Wait;
use std::thread::Threads;
use transforms::{Ask, Finished, Job};

/// What a run came to: whether a line is malformed, where it reached the end, and all that happened in the registry and
/// on the board.
#[derive(Drop)]
pub struct RunResult {
    pub answer: Result<bool, RunError>,
    pub registry: RegLog,
    pub board: BoardLog<Ask>,
}

impl RunResult {
    /// Nothing happened, for this cause.
    pub fn refused_run(alloc: Global, error: RunError) -> RunResult
        ensures { (result.answer ≡ Err error) × (result.registry ≡ []) × (result.board ≡ []) }
    {
        RunResult {
            answer: Err(error),
            registry: RegLog::empty(alloc),
            board: BoardLog::empty(alloc),
        }
    }
}

// what a crew leaves
pub fn crew_laws()
    ensures { CrewLaws }
{
    crews_end::<RegEntry>();
    crews_end::<BoardEntry<Ask>>();
    crew_works::<RegEntry>();
    crew_works::<BoardEntry<Ask>>();
    work_ends::<Ask>();
}

// Shuts the board if it isn't, so that the workers end.
pub fn shut_board<R: Wait>(rt: &R, board: &SharedBoard<Job>, pass: BoardPass<Job>) -> BoardPass<Job>
    requires lock { IsPassOn board.now pass }
    requires first { (knows pass).number ≡ 0 }
    ensures lock { IsPassOn board.now result }
    ensures more { HasSeenMore (knows pass) (knows result) }
    ensures own { IsOwn caller_of (knows result) }
    ensures closed { is_shut (knows result).seen ≡ true }
    ensures shut { is_shut (knows pass).seen ≡ true → OthersFollow caller_of (knows pass) (knows result).seen }
    ensures alone { ShutsAlone caller_of (knows pass) (knows result) }
    ensures once { IsUnshutOrEnds (knows pass) → WasShut (knows result).seen }
{
    others_leave::<Ask, Finished>();
    let (pass, shut) = board.is_shut(rt, pass);
    if shut {
        return pass;
    }
    board.shut(rt, pass)
}

// Runs the script out of the source with passes of both locks, and shuts the board at its end, however it ends.
fn answer_script<S: Source, K: Sink, G: Gate, R: Threads + Wait + Sync>(
    rt: &R,
    alloc: Global,
    workers: u32,
    board: &SharedBoard<Job>,
    registry: &SharedRegistry,
    gate: &G,
    passes: Passes<Ask>,
    src: &mut S,
    out: &mut K,
) -> (Passes<Ask>, Result<bool, RunError>)
    requires lock { ArePassesOn board.now registry.now passes }
    requires few { workers ≤ 16 }
    requires new { AreNew passes }
    ensures lock { ArePassesOn board.now registry.now result.0 }
    ensures answers { AnswersSource workers (S.left src.old) (S.left src.new) passes result.0 result.1 (K.held out.old) (K.held out.new) }
    ensures faults { TellsFaults result.1 (S.faults src.old) (S.faults src.new) (K.faults out.old) (K.faults out.new) }
{
    laws();
    let Passes {
        board: on_board,
        registry: on_registry,
    } = passes;
    let mut session = Session::new(alloc, workers, 0, on_registry, on_board);
    let answer = run_lines(rt, alloc, board, registry, gate, &mut session, src, out);
    let (on_registry, on_board) = session.into_passes();
    let passes = Passes {
        board: shut_board(rt, board, on_board),
        registry: on_registry,
    };
    (passes, answer)
}

// Runs the script out of the source with passes of both locks, beside so many workers.
fn script_with_workers<S: Source, K: Sink, G: Gate + Sync, R: Threads + Wait + Sync>(
    rt: &R,
    alloc: Global,
    workers: u32,
    board: &SharedBoard<Job>,
    registry: &SharedRegistry,
    gate: &G,
    passes: Passes<Ask>,
    src: &mut S,
    out: &mut K,
) -> (Passes<Ask>, Result<bool, RunError>)
    requires few { workers ≤ 16 }
    requires lock { ArePassesOn board.now registry.now passes }
    requires first { (knows passes.board ≡ fresh_pass) × (knows passes.registry ≡ fresh_pass) }
    ensures lock { ArePassesOn board.now registry.now result.0 }
    ensures crewed { (p q : _) × HaveNext workers passes p
        × AnswersSource workers (S.left src.old) (S.left src.new) p q result.1 (K.held out.old) (K.held out.new)
        × CrewedOnBoth workers passes q result.0 }
    ensures faults { TellsFaults result.1 (S.faults src.old) (S.faults src.new) (K.faults out.old) (K.faults out.new) }
{
    let mut main = |passes: Passes<Ask>| -> (Passes<Ask>, Result<bool, RunError>)
        requires lock { ArePassesOn board.now registry.now passes }
        requires few { workers ≤ 16 }
        requires new { AreNew passes }
    { answer_script(rt, alloc, workers, board, registry, gate, passes, src, out) };
    run_crew(rt, alloc, workers, board, registry, passes, gate, &mut main)
}

// Runs the script out of the source beside so many workers on these locks, with their first passes.
fn run_with_workers<S: Source, K: Sink, G: Gate + Sync, R: Threads + Wait + Sync>(
    rt: &R,
    alloc: Global,
    workers: u32,
    board: SharedBoard<Job>,
    registry: SharedRegistry,
    gate: &G,
    passes: Passes<Ask>,
    src: &mut S,
    out: &mut K,
) -> RunResult
    requires few { workers ≤ 16 }
    requires lock { ArePassesOn board registry passes }
    requires first { (knows passes.board ≡ fresh_pass) × (knows passes.registry ≡ fresh_pass) }
    ensures ran { ScriptRan workers (S.left src.old) (S.left src.new)
        result.registry result.board result.answer (K.held out.old) (K.held out.new) }
    ensures faults { TellsFaults result.answer (S.faults src.old) (S.faults src.new) (K.faults out.old) (K.faults out.new) }
{
    crew_laws();
    settled_scripts_print_plain();
    let (passes, answer) = script_with_workers(
        rt, alloc, workers, &board, &registry, gate, passes, src, out,
    );
    let Passes {
        board: on_board,
        registry: on_registry,
    } = passes;
    RunResult {
        answer,
        registry: registry.finish_all(rt, on_registry),
        board: board.finish_all(rt, on_board),
    }
}

/// Both locks, with their first passes.
pub fn first_locks(
    alloc: Global,
) -> Result<(SharedBoard<Job>, SharedRegistry, Passes<Ask>), AllocError>
    ensures { IfOk result (λ r. ArePassesOn r.0 r.1 r.2 × (knows r.2.board ≡ fresh_pass) × (knows r.2.registry ≡ fresh_pass)) }
{
    let (registry, on_registry) = SharedRegistry::new(alloc)?;
    let (board, on_board) = SharedBoard::new(alloc)?;
    let passes = Passes {
        board: on_board,
        registry: on_registry,
    };
    Ok((board, registry, passes))
}

/// Runs the script out of the source beside so many workers, on a board and a registry of its own.
pub fn run_script<S: Source, K: Sink, G: Gate + Sync, R: Threads + Wait + Sync>(
    rt: &R,
    alloc: Global,
    workers: u32,
    gate: &G,
    src: &mut S,
    out: &mut K,
) -> RunResult
    requires few { workers ≤ 16 }
    ensures ran { ScriptRan workers (S.left src.old) (S.left src.new)
        result.registry result.board result.answer (K.held out.old) (K.held out.new) }
    ensures faults { TellsFaults result.answer (S.faults src.old) (S.faults src.new) (K.faults out.old) (K.faults out.new) }
{
    nothing_is_broken_off();
    let Ok((board, registry, passes)) = first_locks(alloc) else {
        return RunResult::refused_run(alloc, RunError::NoMemory);
    };
    run_with_workers(rt, alloc, workers, board, registry, gate, passes, src, out)
}
