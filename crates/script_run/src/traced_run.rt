//! A script beside workers, and then the trace of its run.

ghost use Rattle.std.specs.Prelude.{OnOk, ◌≡◌, ◌≤◌, ◌⊎◌, Bool, true, [], Err, Ok, IfOk, IfErr, IfSome, IsErrOf, MatchResult};
ghost use Rattle.std.specs.List.{list_any};
ghost use Rattle.std.specs.Io.KnownBytes.{Appends, Keeps};
ghost use Rattle.alg_registry.specs.Legal.{LegalReg};
ghost use Rattle.alg_registry.specs.Made.{Made};
ghost use Rattle.board.specs.Legal.{LegalBoard};
ghost use Rattle.dialogues.specs.Texts.{IsText};
ghost use Rattle.script_run.specs.ByLines.{IsTextByLines};
ghost use Rattle.script_run.specs.Fronts.{IsFrontText};
ghost use Rattle.dialogues.specs.ScriptState.{start};
ghost use Rattle.kc_base.specs.Streams.{AppendsFront, Rose};
ghost use Rattle.script_text.specs.Script.{script_of};
ghost use Rattle.settled_scripts.specs.Settled.{IsSettled, plain_text};
ghost use Rattle.templates.specs.Table.{table};
ghost use Rattle.trace_text.specs.Asks.{ask_origin};
ghost use Rattle.trace_text.specs.Trace.{trace_of, FitTypes};
ghost use Rattle.script_run.specs.Answered.{RanSource, IsCutOff, IsBrokenOff};
ghost use Rattle.script_run.specs.Endings.{AreCallers, CanBeRead, EndsShut, IsShutOnce, traced};
ghost use Rattle.script_run.specs.Runs.{GainsThen, GainsFront, InTurn};
ghost use Rattle.script_run.specs.Text.{is_malformed};

use crate::errors::RunError;
use crate::with_workers::{RunResult, run_script};
use alg_registry::RegLog;
use board::BoardLog;
use crew::Gate;
use kc_base::{Sink, Source, write_and_flush};
use run_options::ScriptOptions;
use std::alloc::Global;
use std::sync::Wait;
use std::thread::Threads;
use trace_laws::traces_can_be_read;
use trace_text::write_trace;
use transforms::Ask;

/// Writes the trace of these histories in one piece, and flushes it. A sink that fails may have taken its front.
pub fn put_trace<K: Sink>(
    alloc: Global,
    registry: &RegLog,
    board: &BoardLog<Ask>,
    out: &mut K,
) -> Result<(), RunError>
    ensures bytes { MatchResult result
        (λ _. Appends (K.held out.old) (K.held out.new) (trace_of ask_origin registry.now board.now))
        (λ _. AppendsFront (K.held out.old) (K.held out.new) (trace_of ask_origin registry.now board.now)) }
    ensures fits { OnOk result (FitTypes ask_origin registry.now board.now) }
    ensures later { K.faults out.old ≤ K.faults out.new }
    ensures cause { IsErrOf result RunError.WriteFault → Rose (K.faults out.old) (K.faults out.new) }
    ensures causes { IfErr result (λ e. (e ≡ RunError.WriteFault) ⊎ (e ≡ RunError.NoMemory)) }
{
    let text = write_trace(alloc, registry, board)?;
    write_and_flush(out, text.as_slice())?;
    Ok(())
}

// What a run answers that writes its trace, if it is asked for, once the script has answered so.
fn answer_traced<K: Sink>(
    alloc: Global,
    trace: bool,
    answer: Result<bool, RunError>,
    registry: &RegLog,
    board: &BoardLog<Ask>,
    out: &mut K,
) -> Result<bool, RunError>
    ensures whole { IfOk result (λ bad. (answer ≡ Ok bad)
        × Appends (K.held out.old) (K.held out.new) (traced trace registry.now board.now)) }
    ensures fits { trace ≡ true → OnOk result (FitTypes ask_origin registry.now board.now) }
    ensures front { IfErr result (λ e. ((answer ≡ Err e) × Keeps (K.held out.old) (K.held out.new))
        ⊎ ((bad : Bool) × (answer ≡ Ok bad) × AppendsFront (K.held out.old) (K.held out.new) (traced trace registry.now board.now))) }
    ensures later { K.faults out.old ≤ K.faults out.new }
    ensures cause { IsErrOf result RunError.WriteFault → (answer ≡ Err RunError.WriteFault) ⊎ Rose (K.faults out.old) (K.faults out.new) }
    ensures causes { IfErr result (λ e. (answer ≡ Err e) ⊎ (e ≡ RunError.WriteFault) ⊎ (e ≡ RunError.NoMemory)) }
{
    let malformed = answer?;
    if trace {
        put_trace(alloc, registry, board, out)?;
    }
    Ok(malformed)
}

/// Runs the script out of the source as the options ask, beside at most 16 workers, on a board and a registry of its
/// own, and then writes the trace of what they recorded, where the options ask for it and the run reached the end.
/// `ReadFault`, `WriteFault`, `NoMemory` and `TooLong` end it; `Usage` never comes.
pub fn run_traced<S: Source, K: Sink, G: Gate + Sync, R: Threads + Wait + Sync>(
    rt: &R,
    alloc: Global,
    options: &ScriptOptions,
    gate: &G,
    src: &mut S,
    out: &mut K,
) -> RunResult
    requires few { options.now.workers ≤ 16 }
    ensures ended { OnOk result.answer (IfSome (S.left src.old) (λ _. S.left src.new ≡ Some [])) }
    ensures whole { OnOk result.answer (IfSome (S.left src.old) (λ script. GainsThen (K.held out.old) (K.held out.new)
        (IsText options.now.workers (start 0) 0 (script_of script) result.registry result.board)
        (traced options.now.trace result.registry result.board))) }
    ensures readable { options.now.trace ≡ true
        → OnOk result.answer (IfSome (S.left src.old) (λ _. CanBeRead result.registry result.board)) }
    ensures in_turn { OnOk result.answer (IfSome (S.left src.old) (λ script. InTurn (script_of script) result.registry)) }
    ensures settled { OnOk result.answer (IfSome (S.left src.old) (λ script. IsSettled (script_of script)
        → GainsThen (K.held out.old) (K.held out.new) (λ text. text ≡ plain_text (script_of script))
        (traced options.now.trace result.registry result.board))) }
    ensures shut { OnOk result.answer (EndsShut result.board) }
    ensures front { IfSome (S.left src.old) (λ script. GainsFront (K.held out.old) (K.held out.new)
        (IsFrontText options.now.workers (start 0) 0 (script_of script) result.registry result.board)
        (IsText options.now.workers (start 0) 0 (script_of script) result.registry result.board)
        (traced options.now.trace result.registry result.board)) }
    ensures by_lines { IfSome (S.left src.old) (λ script. GainsFront (K.held out.old) (K.held out.new)
        (IsTextByLines options.now.workers (script_of script) result.registry result.board)
        (IsText options.now.workers (start 0) 0 (script_of script) result.registry result.board)
        (traced options.now.trace result.registry result.board)) }
    ensures cut { IsErrOf result.answer RunError.WriteFault
        → IfSome (S.left src.old) (λ script. GainsFront (K.held out.old) (K.held out.new)
        (IsCutOff options.now.workers (script_of script) result.registry result.board)
        (IsText options.now.workers (start 0) 0 (script_of script) result.registry result.board)
        (traced options.now.trace result.registry result.board)) }
    ensures broken { IsErrOf result.answer RunError.NoMemory
        → IfSome (S.left src.old) (λ script. GainsFront (K.held out.old) (K.held out.new)
        (IsBrokenOff options.now.workers (script_of script) result.registry result.board)
        (IsText options.now.workers (start 0) 0 (script_of script) result.registry result.board)
        (traced options.now.trace result.registry result.board)) }
    ensures first { RanSource options.now.workers (S.left src.old) (S.left src.new)
        result.registry result.board result.answer (K.held out.old) (K.held out.new) }
    ensures closed { IsShutOnce options.now.workers result.board
        ⊎ ((result.answer ≡ Err RunError.NoMemory) × (result.registry ≡ []) × (result.board ≡ [])) }
    ensures callers { AreCallers options.now.workers result.registry result.board }
    ensures legal { LegalReg result.registry }
    ensures legal_board { LegalBoard result.board }
    ensures faithful { Made table result.registry }
    ensures malformed { IfOk result.answer (λ bad. IfSome (S.left src.old) (λ script. bad ≡ list_any is_malformed (script_of script))) }
    ensures read_fault { IsErrOf result.answer RunError.ReadFault → Rose (S.faults src.old) (S.faults src.new) }
    ensures write_fault { IsErrOf result.answer RunError.WriteFault → Rose (K.faults out.old) (K.faults out.new) }
    ensures usage { IsErrOf result.answer RunError.Usage → ⊥ }
{
    traces_can_be_read();
    let RunResult {
        answer,
        registry,
        board,
    } = run_script(rt, alloc, options.workers, gate, src, out);
    let answer = answer_traced(alloc, options.trace, answer, &registry, &board, out);
    RunResult {
        answer,
        registry,
        board,
    }
}
