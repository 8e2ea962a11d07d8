//! A script's lines, answered by its session and written one by one. The sink is flushed before more is read.

ghost use Rattle.std.specs.Prelude.{OnOk, ◌≡◌, ◌+◌, ◌^◌, ◌≤◌, [], Some, length, MatchResult, IfOk, IsErrOf, false};
ghost use Rattle.board.specs.Legal.{is_shut};
ghost use Rattle.kc_base.specs.Streams.{Rose, AppendsFront};
ghost use Rattle.std.specs.Io.KnownBytes.{Appends};
ghost use Rattle.script_text.specs.Sizes.{IsShortLine};
ghost use Rattle.dialogues.specs.Lines.{line_dialogue};
ghost use Rattle.dialogues.specs.PipelineCommands.{end};
ghost use Rattle.dialogues.specs.Widths.{width_of};
ghost use Rattle.recorded_calls.specs.Passes.{known};
ghost use Rattle.script_session.specs.PerformedDialogue.{StopsIn};
ghost use Rattle.script_session.specs.Replies.{IsReady, Replies};
ghost use Rattle.script_session.specs.EndOfInput.{AnswersEnd, EndsShut};
ghost use Rattle.script_run.specs.Text.{is_malformed};
ghost use Rattle.script_run.specs.Faults.{TellsFaults};
ghost use Rattle.script_run.specs.Laws.{Laws};
ghost use Rattle.script_run.specs.Answered.{RunsSource};
ghost use Rattle.script_run.specs.Runs.{Writes, Cuts, Breaks, AnswersAndShuts, IsFresh, IsUnshutOrEnds};

use crate::errors::RunError;
use crew::Gate;
use dialogues::{
    board_calls_go_on, calls_at_once, calls_in_turn, first_calls, further_calls, lines_lead,
    registry_calls_go_on, turns_follow,
};
use kc_base::{Sink, SinkError, Source, write_and_flush, write_piece};
use recorded_calls::Stop;
use reply_text::Reply;
use script_session::Session;
use script_text::{Line, LineReader, whole_lines_stay};
use shared_board::SharedBoard;
use shared_registry::SharedRegistry;
use std::alloc::{AllocError, Global};
use std::sync::Wait;
use std::thread::Threads;
use transforms::Job;

/// The most bytes of input.
pub const MAX_INPUT: usize = 268_435_456;

/// What texts and calls are as histories go on.
pub fn laws()
    ensures { Laws }
{
    lines_lead();
    turns_follow();
    registry_calls_go_on();
    board_calls_go_on();
    calls_in_turn();
    calls_at_once();
    first_calls();
    further_calls();
}

fn is_malformed_line(line: &Line) -> bool
    ensures { result ≡ is_malformed line.now }
{
    matches!(line, Line::Malformed)
}

// The text of the answers to one line, in place of what the reply held, and whether the line is malformed.
fn reply_to<G: Gate, R: Threads + Wait + Sync>(
    rt: &R,
    board: &SharedBoard<Job>,
    registry: &SharedRegistry,
    gate: &G,
    session: &mut Session,
    number: u32,
    line: Line,
    reply: &mut Reply,
) -> Result<bool, AllocError>
    requires ready { IsReady registry.now board.now session.old }
    requires short { IsShortLine line }
    ensures done { MatchResult result
        (λ _. Replies (width_of line) (line_dialogue session.old.workers session.old.script_state number line)
        session.old session.new [] reply.new.text)
        (λ _. StopsIn (line_dialogue session.old.workers session.old.script_state number line) session.old session.new) }
    ensures ready { OnOk result (IsReady registry.now board.now session.new) }
    ensures unshut { (known session.new.board).number ≡ 0 → is_shut (known session.new.board).seen ≡ false }
    ensures malformed { IfOk result (λ bad. bad ≡ is_malformed line) }
{
    let malformed = is_malformed_line(&line);
    reply.truncate(0);
    match session.line(rt, board, registry, gate, number, line, reply) {
        Ok(()) => Ok(malformed),
        Err(Stop::Memory) => Err(AllocError),
    }
}

// The text of the answers to the end of input.
fn reply_to_end<G: Gate, R: Wait>(
    rt: &R,
    alloc: Global,
    board: &SharedBoard<Job>,
    registry: &SharedRegistry,
    gate: &G,
    session: &mut Session,
) -> Result<Reply, AllocError>
    requires ready { IsReady registry.now board.now session.old }
    requires first { (known session.old.board).number ≡ 0 }
    ensures done { MatchResult result
        (λ reply. AnswersEnd session.old session.new [] reply.text)
        (λ _. StopsIn (end session.old.script_state) session.old session.new) }
    ensures shut { OnOk result (EndsShut (known session.new.board)) }
    ensures unshut { IsUnshutOrEnds (known session.new.board) }
{
    let mut reply = Reply::new(alloc);
    match session.end(rt, board, gate, &mut reply) {
        Ok(()) => Ok(reply),
        Err(Stop::Memory) => Err(AllocError),
    }
}

// Writes the answers to a line in one piece. Where no further line is there yet, they are flushed: more is read then.
fn write_reply<K: Sink>(reader: &LineReader, reply: &Reply, out: &mut K) -> Result<(), SinkError>
    ensures bytes { MatchResult result
        (λ _. Appends (K.held out.old) (K.held out.new) reply.now.text)
        (λ _. AppendsFront (K.held out.old) (K.held out.new) reply.now.text) }
    ensures later { K.faults out.old ≤ K.faults out.new }
    ensures cause { IsErrOf result SinkError.Failed → Rose (K.faults out.old) (K.faults out.new) }
{
    if reader.has_line() {
        write_piece(out, reply.as_slice())
    } else {
        write_and_flush(out, reply.as_slice())
    }
}

// Answers one line in one piece, and says whether it is malformed.
fn run_line<K: Sink, G: Gate, R: Threads + Wait + Sync>(
    rt: &R,
    board: &SharedBoard<Job>,
    registry: &SharedRegistry,
    gate: &G,
    session: &mut Session,
    reader: &LineReader,
    number: u32,
    line: Line,
    reply: &mut Reply,
    out: &mut K,
) -> Result<bool, SinkError>
    requires ready { IsReady registry.now board.now session.old }
    requires short { IsShortLine line }
    ensures done { MatchResult result
        (λ _. Writes
        (Replies (width_of line) (line_dialogue session.old.workers session.old.script_state number line) session.old session.new [])
        (K.held out.old) (K.held out.new))
        (λ _. Breaks (line_dialogue session.old.workers session.old.script_state number line) session.old session.new
        (Replies (width_of line) (line_dialogue session.old.workers session.old.script_state number line) session.old session.new [])
        (K.held out.old) (K.held out.new)) }
    ensures cut { IsErrOf result SinkError.Failed →
        Cuts
        (Replies (width_of line) (line_dialogue session.old.workers session.old.script_state number line) session.old session.new [])
        (K.held out.old) (K.held out.new) }
    ensures ready { OnOk result (IsReady registry.now board.now session.new) }
    ensures unshut { (known session.new.board).number ≡ 0 → is_shut (known session.new.board).seen ≡ false }
    ensures malformed { IfOk result (λ bad. bad ≡ is_malformed line) }
    ensures later { K.faults out.old ≤ K.faults out.new }
    ensures cause { IsErrOf result SinkError.Failed → Rose (K.faults out.old) (K.faults out.new) }
{
    let malformed = reply_to(rt, board, registry, gate, session, number, line, reply)?;
    write_reply(reader, reply, out)?;
    Ok(malformed)
}

// Answers the end of input.
fn run_end<K: Sink, G: Gate, R: Wait>(
    rt: &R,
    alloc: Global,
    board: &SharedBoard<Job>,
    registry: &SharedRegistry,
    gate: &G,
    session: &mut Session,
    out: &mut K,
) -> Result<(), SinkError>
    requires ready { IsReady registry.now board.now session.old }
    requires first { (known session.old.board).number ≡ 0 }
    ensures done { MatchResult result
        (λ _. Writes (AnswersEnd session.old session.new []) (K.held out.old) (K.held out.new))
        (λ _. Breaks (end session.old.script_state) session.old session.new (AnswersAndShuts session.old session.new)
        (K.held out.old) (K.held out.new)) }
    ensures cut { IsErrOf result SinkError.Failed → Cuts (AnswersAndShuts session.old session.new) (K.held out.old) (K.held out.new) }
    ensures shut { OnOk result (EndsShut (known session.new.board)) }
    ensures unshut { IsUnshutOrEnds (known session.new.board) }
    ensures later { K.faults out.old ≤ K.faults out.new }
    ensures cause { IsErrOf result SinkError.Failed → Rose (K.faults out.old) (K.faults out.new) }
{
    let reply = reply_to_end(rt, alloc, board, registry, gate, session)?;
    write_and_flush(out, reply.as_slice())
}

// Answers each line that the reader finds, and then the end of input.
fn run_read<S: Source, K: Sink, G: Gate, R: Threads + Wait + Sync>(
    rt: &R,
    alloc: Global,
    board: &SharedBoard<Job>,
    registry: &SharedRegistry,
    gate: &G,
    session: &mut Session,
    reader: &mut LineReader,
    reply: &mut Reply,
    src: &mut S,
    out: &mut K,
) -> Result<bool, RunError>
    requires ready { IsReady registry.now board.now session.old }
    requires fresh { IsFresh session.old }
    requires unread { reader.old ≡ record { kept = record { begun = Some []; unseen = [] }; room = 268435456; ended = false } }
    ensures run { RunsSource (S.left src.old) (S.left src.new) session.old session.new result (K.held out.old) (K.held out.new) }
    ensures faults { TellsFaults result (S.faults src.old) (S.faults src.new) (K.faults out.old) (K.faults out.new) }
{
    laws();
    whole_lines_stay();
    let mut number = 1u32;
    let mut malformed = false;
    while let Some(line) = reader.next(src)? {
        let bad = run_line(
            rt, board, registry, gate, session, reader, number, line, reply, out,
        )?;
        malformed |= bad;
        number += 1;
    }
    run_end(rt, alloc, board, registry, gate, session, out)?;
    Ok(malformed)
}

/// Answers each line out of the source and its end, each in one piece, and says whether a line is malformed. It reads
/// on only where each whole line of what was read is answered, and the sink flushed. A failed read, more bytes than
/// `MAX_INPUT`, a failed write and want of memory stop it.
pub fn run_lines<S: Source, K: Sink, G: Gate, R: Threads + Wait + Sync>(
    rt: &R,
    alloc: Global,
    board: &SharedBoard<Job>,
    registry: &SharedRegistry,
    gate: &G,
    session: &mut Session,
    src: &mut S,
    out: &mut K,
) -> Result<bool, RunError>
    requires ready { IsReady registry.now board.now session.old }
    requires fresh { IsFresh session.old }
    ensures run { RunsSource (S.left src.old) (S.left src.new) session.old session.new result (K.held out.old) (K.held out.new) }
    ensures faults { TellsFaults result (S.faults src.old) (S.faults src.new) (K.faults out.old) (K.faults out.new) }
{
    laws();
    let mut reader = LineReader::new(alloc, MAX_INPUT)?;
    let mut reply = Reply::new(alloc);
    run_read(
        rt,
        alloc,
        board,
        registry,
        gate,
        session,
        &mut reader,
        &mut reply,
        src,
        out,
    )
}
