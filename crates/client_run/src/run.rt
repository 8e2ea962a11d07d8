//! A whole run of several scripts at once: all input is read first, then the scripts run, and then the whole output is
//! written, and the trace.

ghost use Rattle.std.specs.Prelude.{◌≡◌, ◌≤◌, ◌<◌, ◌+◌, ◌^◌, ◌++◌, ◌⊎◌, All, Err, true, length, IfOk, IfErr, IsOk, OnOk, OnErr, IsErrOf, MatchResult};
ghost use Rattle.std.specs.Io.KnownBytes.{Appends, Consumes, IsAtEnd, Keeps};
ghost use Rattle.kc_base.specs.Streams.{AppendsFront, Rose};
ghost use Rattle.script_run.specs.Endings.{traced};
ghost use Rattle.script_run.specs.Runs.{ReadsUpTo};
ghost use Rattle.script_run.specs.Statuses.{status_of};
ghost use Rattle.trace_text.specs.Asks.{ask_origin};
ghost use Rattle.trace_text.specs.Trace.{FitTypes};
ghost use Rattle.client_run.specs.WithWorkers.{in_one, printed_by};
ghost use Rattle.client_run.specs.Clients.{RanClients, RanParts};

use crate::with_workers::{Output, PartsRun, run_parts};
use alg_registry::RegLog;
use board::BoardLog;
use crew::Gate;
use kc_base::{Bytes, Sink, SinkError, Source, read_input, write_piece};
use reply_text::Reply;
use run_options::ClientOptions;
use script_run::{MAX_INPUT, RunError, RunResult, put_trace};
use script_text::{Part, cut_parts};
use std::alloc::{AllocError, Global};
use std::sync::Wait;
use std::thread::Threads;
use trace_laws::client_traces_can_be_read;
use transforms::Ask;

// How many bytes are asked for at once.
const PIECE: usize = 65_536;

// A buffer. Its length is a parameter, so that no proof counts it out.
fn zeros(alloc: Global, count: usize) -> Result<Vec<u8>, AllocError>
    ensures { IfOk result (λ buffer. length buffer.items ≡ count) }
{
    vec![in alloc; 0u8; count]
}

// Reads all that the source has, at most `MAX_INPUT` bytes.
fn read_whole<S: Source>(alloc: Global, src: &mut S) -> Result<Bytes, RunError>
    ensures whole { IfOk result (λ input. Consumes (S.left src.old) (S.left src.new) input
        × IsAtEnd (S.left src.new) × (length input ≤ 2 ^ 28)) }
    ensures read { ReadsUpTo (S.left src.old) (S.left src.new) (IsErrOf result RunError.TooLong) }
    ensures cause { IsErrOf result RunError.ReadFault → Rose (S.faults src.old) (S.faults src.new) }
    ensures causes { IfErr result (λ e. (e ≡ RunError.ReadFault) ⊎ (e ≡ RunError.NoMemory) ⊎ (e ≡ RunError.TooLong)) }
{
    let mut buf = zeros(alloc, PIECE)?;
    let input = read_input(alloc, src, &mut buf, MAX_INPUT)?;
    Ok(input)
}

// Writes texts, one behind the other.
fn write_texts<K: Sink>(texts: &[Reply], out: &mut K) -> Result<(), SinkError>
    ensures bytes { MatchResult result
        (λ _. Appends (K.held out.old) (K.held out.new) (in_one texts.now))
        (λ _. AppendsFront (K.held out.old) (K.held out.new) (in_one texts.now)) }
    ensures later { K.faults out.old ≤ K.faults out.new }
    ensures cause { IsErrOf result SinkError.Failed → Rose (K.faults out.old) (K.faults out.new) }
{
    for text in texts {
        write_piece(out, text.as_slice())?;
    }
    out.flush()
}

// Writes the trace of these histories, if it is asked for.
fn put_traced<K: Sink>(
    alloc: Global,
    trace: bool,
    registry: &RegLog,
    board: &BoardLog<Ask>,
    out: &mut K,
) -> Result<(), RunError>
    ensures bytes { MatchResult result
        (λ _. Appends (K.held out.old) (K.held out.new) (traced trace registry.now board.now))
        (λ _. AppendsFront (K.held out.old) (K.held out.new) (traced trace registry.now board.now)) }
    ensures fits { trace ≡ true → OnOk result (FitTypes ask_origin registry.now board.now) }
    ensures later { K.faults out.old ≤ K.faults out.new }
    ensures cause { IsErrOf result RunError.WriteFault → Rose (K.faults out.old) (K.faults out.new) }
    ensures causes { IfErr result (λ e. (e ≡ RunError.WriteFault) ⊎ (e ≡ RunError.NoMemory)) }
{
    if trace {
        return put_trace(alloc, registry, board, out);
    }
    Ok(())
}

// Writes the whole output, text after text, and then the trace where it is asked for. Where memory was wanting for the
// output, nothing is written.
fn write_output<K: Sink>(
    alloc: Global,
    trace: bool,
    output: Result<Output, AllocError>,
    registry: &RegLog,
    board: &BoardLog<Ask>,
    out: &mut K,
) -> Result<bool, RunError>
    ensures whole { IfOk result (λ bad. IsOk output × IfOk output (λ o. (bad ≡ o.malformed)
        × Appends (K.held out.old) (K.held out.new) (printed_by o ++ traced trace registry.now board.now))) }
    ensures nothing { OnErr output (result ≡ Err RunError.NoMemory) }
    ensures fits { trace ≡ true → OnOk result (FitTypes ask_origin registry.now board.now) }
    ensures front { OnErr result (Keeps (K.held out.old) (K.held out.new) ⊎ (IsOk output × IfOk output
        (λ o. AppendsFront (K.held out.old) (K.held out.new) (printed_by o ++ traced trace registry.now board.now)))) }
    ensures cause { IsErrOf result RunError.WriteFault → Rose (K.faults out.old) (K.faults out.new) }
    ensures causes { IfErr result (λ e. (e ≡ RunError.WriteFault) ⊎ (e ≡ RunError.NoMemory)) }
{
    let output = output?;
    write_texts(output.texts.as_slice(), out)?;
    put_traced(alloc, trace, registry, board, out)?;
    Ok(output.malformed)
}

// Runs the scripts of an input's parts, the first part's and one for each client, and writes what they print.
fn run_cut<K: Sink, G: Gate + Sync, R: Threads + Wait + Sync>(
    rt: &R,
    alloc: Global,
    options: &ClientOptions,
    gate: &G,
    parts: &[Part<'_>],
    out: &mut K,
) -> RunResult
    requires few { options.now.workers ≤ 16 }
    requires clients { (1 ≤ options.now.clients) × (options.now.clients ≤ 8) }
    requires count { length parts.now ≡ options.now.clients + 1 }
    requires short { All (λ part. length part ≤ 2 ^ 28) parts.now }
    ensures ran { RanParts options.now.workers options.now.clients options.now.trace parts.now
        (K.held out.old) (K.held out.new) result.registry result.board result.answer }
    ensures write_fault { IsErrOf result.answer RunError.WriteFault → Rose (K.faults out.old) (K.faults out.new) }
{
    let Some((first, rest)) = parts.split_first() else {
        return RunResult::refused_run(alloc, RunError::NoMemory);
    };
    let PartsRun {
        output,
        registry,
        board,
    } = run_parts(rt, alloc, options.workers, gate, first.as_slice(), rest);
    let answer = write_output(alloc, options.trace, output, &registry, &board, out);
    RunResult {
        answer,
        registry,
        board,
    }
}

/// Runs several scripts at once as the options ask, beside at most 16 workers, on a board and a registry of its own:
/// all input is read first, at most `MAX_INPUT` bytes, and cut into a first part and one for each of one to eight
/// clients. The whole output is written when all have ended, and then the trace of what was recorded, where the options
/// ask for it. `ReadFault` and `TooLong` end it before any script runs, and `NoMemory` and `WriteFault` at any time;
/// `Usage` never comes.
pub fn run_clients<S: Source, K: Sink, G: Gate + Sync, R: Threads + Wait + Sync>(
    rt: &R,
    alloc: Global,
    options: &ClientOptions,
    gate: &G,
    src: &mut S,
    out: &mut K,
) -> RunResult
    requires few { options.now.workers ≤ 16 }
    requires clients { (1 ≤ options.now.clients) × (options.now.clients ≤ 8) }
    ensures ran { RanClients options.now.workers options.now.clients options.now.trace (status_of result.answer)
        (S.left src.old) (S.left src.new) (K.held out.old) (K.held out.new) result.registry result.board }
    ensures read_fault { IsErrOf result.answer RunError.ReadFault → Rose (S.faults src.old) (S.faults src.new) }
    ensures write_fault { IsErrOf result.answer RunError.WriteFault → Rose (K.faults out.old) (K.faults out.new) }
    ensures too_long { ReadsUpTo (S.left src.old) (S.left src.new) (IsErrOf result.answer RunError.TooLong) }
    ensures usage { IsErrOf result.answer RunError.Usage → ⊥ }
{
    client_traces_can_be_read();
    let input = match read_whole(alloc, src) {
        Ok(input) => input,
        Err(error) => return RunResult::refused_run(alloc, error),
    };
    let Ok(parts) = cut_parts(alloc, input.as_slice(), options.clients) else {
        return RunResult::refused_run(alloc, RunError::NoMemory);
    };
    run_cut(rt, alloc, options, gate, parts.as_slice(), out)
}
