//! A whole load beside workers.

ghost use Rattle.std.specs.Prelude.{OnOk, ◌≡◌, ◌≤◌, ◌⊎◌, [], Ok, Err, false, MatchResult, IfOk, IfErr, IsErrOf};
ghost use Rattle.std.specs.Result.{IsOk};
ghost use Rattle.std.specs.Io.KnownBytes.{Appends};
ghost use Rattle.alg_registry.specs.Legal.{LegalReg};
ghost use Rattle.alg_registry.specs.Made.{Made};
ghost use Rattle.board.specs.Legal.{LegalBoard};
ghost use Rattle.crew.specs.Both.{ArePassesOn, HaveNext, CrewedOnBoth};
ghost use Rattle.kc_base.specs.Streams.{Rose, AppendsFront};
ghost use Rattle.load_mode.specs.Requests.{load_line, line_of, digest_of, load_requests};
ghost use Rattle.load_mode.specs.Turns.{AreLoaded};
ghost use Rattle.templates.specs.Table.{table};
ghost use Rattle.turn_lock.specs.Passes.{knows};
ghost use Rattle.turn_lock.specs.Turns.{fresh_pass};
ghost use Rattle.script_run.specs.Endings.{AreCallers, EndsShut, IsShutOnce};
ghost use Rattle.script_run.specs.WithWorkers.{LoadRan};
ghost use Rattle.script_run.specs.Loads.{Loads};
ghost use Rattle.script_run.specs.Runs.{AreNew};

use crate::errors::RunError;
use crate::load_session::perform_load;
use crate::with_workers::{RunResult, crew_laws, first_locks, shut_board};
use alg_registry::RegLog;
use board::BoardLog;
use crew::{Gate, Passes, run_crew};
use kc_base::{Bytes, Sink, write_and_flush};
use load_mode::{load_text, loads_come_to};
use run_options::LoadOptions;
use script_session::Session;
use shared_board::SharedBoard;
use shared_registry::SharedRegistry;
use std::alloc::{AllocError, Global};
use std::sync::Wait;
use std::thread::Threads;
use transforms::{Ask, Job};

// Holds the load with passes of both locks, and shuts the board at its end, however it ends.
fn answer_load<G: Gate, R: Threads + Wait + Sync>(
    rt: &R,
    alloc: Global,
    options: &LoadOptions,
    board: &SharedBoard<Job>,
    registry: &SharedRegistry,
    gate: &G,
    passes: Passes<Ask>,
) -> (Passes<Ask>, Result<[u8; 32], AllocError>)
    requires lock { ArePassesOn board.now registry.now passes }
    requires few { options.now.workers ≤ 16 }
    requires new { AreNew passes }
    ensures lock { ArePassesOn board.now registry.now result.0 }
    ensures loads { Loads options.now.workers options.now.seed options.now.count passes result.0 result.1 }
{
    let Passes {
        board: on_board,
        registry: on_registry,
    } = passes;
    let mut session = Session::new(alloc, options.workers, 0, on_registry, on_board);
    let digest = perform_load(
        rt,
        alloc,
        board,
        registry,
        gate,
        &mut session,
        options.seed,
        options.count,
    );
    let (on_registry, on_board) = session.into_passes();
    let passes = Passes {
        board: shut_board(rt, board, on_board),
        registry: on_registry,
    };
    (passes, digest)
}

// Holds the load with passes of both locks, beside as many workers as it asks for.
fn crew_load<G: Gate + Sync, R: Threads + Wait + Sync>(
    rt: &R,
    alloc: Global,
    options: &LoadOptions,
    board: &SharedBoard<Job>,
    registry: &SharedRegistry,
    gate: &G,
    passes: Passes<Ask>,
) -> (Passes<Ask>, Result<[u8; 32], AllocError>)
    requires few { options.now.workers ≤ 16 }
    requires lock { ArePassesOn board.now registry.now passes }
    requires first { (knows passes.board ≡ fresh_pass) × (knows passes.registry ≡ fresh_pass) }
    ensures lock { ArePassesOn board.now registry.now result.0 }
    ensures crewed { (p q : _) × HaveNext options.now.workers passes p
        × Loads options.now.workers options.now.seed options.now.count p q result.1
        × CrewedOnBoth options.now.workers passes q result.0 }
{
    let mut main = |passes: Passes<Ask>| -> (Passes<Ask>, Result<[u8; 32], AllocError>)
        requires lock { ArePassesOn board.now registry.now passes }
        requires few { options.now.workers ≤ 16 }
        requires new { AreNew passes }
    { answer_load(rt, alloc, options, board, registry, gate, passes) };
    run_crew(
        rt,
        alloc,
        options.workers,
        board,
        registry,
        passes,
        gate,
        &mut main,
    )
}

// What a load came to: its digest, and all that happened in the registry and on the board.
#[derive(Drop)]
struct Loaded {
    digest: Result<[u8; 32], AllocError>,
    registry: RegLog,
    board: BoardLog<Ask>,
}

// Holds the load on these locks, with their first passes.
fn load_with_workers<G: Gate + Sync, R: Threads + Wait + Sync>(
    rt: &R,
    alloc: Global,
    options: &LoadOptions,
    board: SharedBoard<Job>,
    registry: SharedRegistry,
    gate: &G,
    passes: Passes<Ask>,
) -> Loaded
    requires few { options.now.workers ≤ 16 }
    requires count { options.now.count ≤ 100000 }
    requires lock { ArePassesOn board registry passes }
    requires first { (knows passes.board ≡ fresh_pass) × (knows passes.registry ≡ fresh_pass) }
    ensures { LoadRan options.now.workers options.now.seed options.now.count result.registry result.board result.digest }
{
    crew_laws();
    loads_come_to();
    let (passes, digest) = crew_load(rt, alloc, options, &board, &registry, gate, passes);
    let Passes {
        board: on_board,
        registry: on_registry,
    } = passes;
    Loaded {
        digest,
        registry: registry.finish_all(rt, on_registry),
        board: board.finish_all(rt, on_board),
    }
}

// The text of a load's line, where the load reached its end.
fn line_text(
    alloc: Global,
    count: u32,
    digest: Result<[u8; 32], AllocError>,
) -> Result<Bytes, AllocError>
    ensures { MatchResult result
        (λ text. (d : _) × (digest ≡ Ok d) × (text ≡ line_of count d))
        (λ _. Unit {0}) }
{
    let digest = digest?;
    load_text(alloc, count, &digest)
}

// Writes the load's line, where the load reached its end.
fn write_line<K: Sink>(
    alloc: Global,
    options: &LoadOptions,
    digest: Result<[u8; 32], AllocError>,
    out: &mut K,
) -> Result<bool, RunError>
    requires { IfOk digest (λ digest. digest ≡ digest_of (load_requests options.now.seed options.now.count)) }
    ensures line { OnOk result (Appends (K.held out.old) (K.held out.new) (load_line options.now.seed options.now.count)) }
    ensures front { AppendsFront (K.held out.old) (K.held out.new) (load_line options.now.seed options.now.count) }
    ensures reached { OnOk result (IsOk digest) }
    ensures fine { IfOk result (λ bad. bad ≡ false) }
    ensures write_fault { IsErrOf result RunError.WriteFault → Rose (K.faults out.old) (K.faults out.new) }
    ensures causes { IfErr result (λ e. (e ≡ RunError.WriteFault) ⊎ (e ≡ RunError.NoMemory)) }
{
    let text = line_text(alloc, options.count, digest)?;
    write_and_flush(out, text.as_slice())?;
    Ok(false)
}

/// Makes the requests of a load, at most 100,000, beside as many workers as it asks for, at most 16, on a board and a
/// registry of its own, and then writes its line. The answer is `false`, or `WriteFault` or `NoMemory`. However it
/// ends, what was written is a front of the line.
pub fn run_load<K: Sink, G: Gate + Sync, R: Threads + Wait + Sync>(
    rt: &R,
    alloc: Global,
    options: &LoadOptions,
    gate: &G,
    out: &mut K,
) -> RunResult
    requires few { options.now.workers ≤ 16 }
    requires count { options.now.count ≤ 100000 }
    ensures line { OnOk result.answer (Appends (K.held out.old) (K.held out.new) (load_line options.now.seed options.now.count)) }
    ensures front { AppendsFront (K.held out.old) (K.held out.new) (load_line options.now.seed options.now.count) }
    ensures fine { IfOk result.answer (λ bad. bad ≡ false) }
    ensures loaded { OnOk result.answer (AreLoaded options.now.seed options.now.count result.board) }
    ensures shut { OnOk result.answer (EndsShut result.board) }
    ensures closed { IsShutOnce options.now.workers result.board
        ⊎ ((result.answer ≡ Err RunError.NoMemory) × (result.registry ≡ []) × (result.board ≡ [])) }
    ensures callers { AreCallers options.now.workers result.registry result.board }
    ensures legal { LegalReg result.registry }
    ensures legal_board { LegalBoard result.board }
    ensures faithful { Made table result.registry }
    ensures write_fault { IsErrOf result.answer RunError.WriteFault → Rose (K.faults out.old) (K.faults out.new) }
    ensures causes { IfErr result.answer (λ e. (e ≡ RunError.WriteFault) ⊎ (e ≡ RunError.NoMemory)) }
{
    let Ok((board, registry, passes)) = first_locks(alloc) else {
        return RunResult::refused_run(alloc, RunError::NoMemory);
    };
    let loaded = load_with_workers(rt, alloc, options, board, registry, gate, passes);
    RunResult {
        answer: write_line(alloc, options, loaded.digest, out),
        registry: loaded.registry,
        board: loaded.board,
    }
}
