//! A load, held by a session.

ghost use Rattle.std.specs.Prelude.{OnOk, ◌≡◌, ◌<◌, [], IfOk, false, length};
ghost use Rattle.alg_registry.specs.Rows.{caller_of};
ghost use Rattle.board.specs.Legal.{is_shut};
ghost use Rattle.dialogues.specs.Dialogues.{followed};
ghost use Rattle.dialogues.specs.Lines.{line_dialogue, lines_dialogue};
ghost use Rattle.dialogues.specs.PipelineCommands.{end};
ghost use Rattle.dialogues.specs.ScriptState.{ScriptState as Made};
ghost use Rattle.dialogues.specs.Dialogues.{Dialogue, Ends};
ghost use Rattle.dialogues.specs.Widths.{width_of};
ghost use Rattle.load_mode.specs.Lines.{opening, request_line, request_lines};
ghost use Rattle.load_mode.specs.Requests.{asked_for, drawn_request};
ghost use Rattle.script_text.specs.Sizes.{IsShortLine};
ghost use Rattle.script_session.specs.EndOfInput.{EndsShut};
ghost use Rattle.script_session.specs.Replies.{IsReady};
ghost use Rattle.script_session.specs.ReplyText.{hands_out};
ghost use Rattle.recorded_calls.specs.Passes.{known};
ghost use Rattle.turn_lock.specs.PassLaws.{IsOwn};
ghost use Rattle.script_run.specs.Laws.{Laws};
ghost use Rattle.script_run.specs.Loads.{IsHeld, PerformsOn, PerformsOpening, IsLoadTurnAfter};
ghost use Rattle.script_run.specs.Runs.{GoesOn, IsFresh, IsUnshutOrEnds};

use crate::lines::laws;
use crew::Gate;
use generator::Generator;
use load_mode::{draw_request, hash_completions, opening_line};
use recorded_calls::Stop;
use script_session::Session;
use script_text::Line;
use sha2::{Digest, Sha256};
use shared_board::SharedBoard;
use shared_registry::SharedRegistry;
use std::alloc::{AllocError, Global};
use std::sync::Wait;
use std::thread::Threads;
use transforms::Job;

// How many lines make both transforms.
const OPENING_LINES: u32 = 4;

// Answers one line, which makes at most one look at once and collects nothing.
fn perform_line<R: Threads + Wait + Sync>(
    rt: &R,
    alloc: Global,
    board: &SharedBoard<Job>,
    registry: &SharedRegistry,
    session: &mut Session,
    hasher: &mut Sha256,
    number: u32,
    line: Line,
) -> Result<(), AllocError>
    requires ready { IsReady registry.now board.now session.old }
    requires short { IsShortLine line }
    requires narrow { width_of line ≡ 1 }
    requires no_collect { hands_out line ≡ false }
    ensures on { OnOk result ((later : Made → Dialogue)
        → PerformsOn (followed (line_dialogue session.old.workers session.old.script_state number line) later) later
        session.old session.new hasher.old hasher.new) }
    ensures ready { OnOk result (IsReady registry.now board.now session.new) }
    ensures goes_on { GoesOn session.old session.new }
    ensures unshut { (known session.new.board).number ≡ 0 → is_shut (known session.new.board).seen ≡ false }
{
    laws();
    let mut answers = Vec::new(alloc);
    match session.answer_line(rt, board, registry, number, line, &mut answers) {
        Ok(()) => {
            hash_completions(hasher, &answers);
            Ok(())
        }
        Err(Stop::Memory) => Err(AllocError),
    }
}

// Answers the line of this number among those that make both transforms.
#[tactic(auto, using(crate::proofs::LoadLines::no_opening_collects))]
fn hold_opening_line<R: Threads + Wait + Sync>(
    rt: &R,
    alloc: Global,
    board: &SharedBoard<Job>,
    registry: &SharedRegistry,
    session: &mut Session,
    hasher: &mut Sha256,
    number: u32,
) -> Result<(), AllocError>
    requires ready { IsReady registry.now board.now session.old }
    requires among { number < length opening }
    ensures on { OnOk result (PerformsOpening session.old.workers number session.old session.new hasher.old hasher.new) }
    ensures ready { OnOk result (IsReady registry.now board.now session.new) }
    ensures goes_on { GoesOn session.old session.new }
    ensures unshut { (known session.new.board).number ≡ 0 → is_shut (known session.new.board).seen ≡ false }
{
    let line = opening_line(alloc, number)?;
    perform_line(rt, alloc, board, registry, session, hasher, number, line)
}

// Makes both transforms.
fn hold_opening<R: Threads + Wait + Sync>(
    rt: &R,
    alloc: Global,
    board: &SharedBoard<Job>,
    registry: &SharedRegistry,
    session: &mut Session,
    hasher: &mut Sha256,
) -> Result<(), AllocError>
    requires ready { IsReady registry.now board.now session.old }
    ensures on { OnOk result ((later : Made → Dialogue)
        → PerformsOn (lines_dialogue session.old.workers session.old.script_state 0 opening later) later
        session.old session.new hasher.old hasher.new) }
    ensures ready { OnOk result (IsReady registry.now board.now session.new) }
    ensures goes_on { GoesOn session.old session.new }
    ensures unshut { (known session.new.board).number ≡ 0 → is_shut (known session.new.board).seen ≡ false }
{
    for number in 0..OPENING_LINES {
        hold_opening_line(rt, alloc, board, registry, session, hasher, number)?;
    }
    Ok(())
}

// Draws a request and hands it in.
fn hold_request<R: Threads + Wait + Sync>(
    rt: &R,
    alloc: Global,
    board: &SharedBoard<Job>,
    registry: &SharedRegistry,
    session: &mut Session,
    hasher: &mut Sha256,
    generator: &mut Generator,
    number: u32,
) -> Result<(), AllocError>
    requires ready { IsReady registry.now board.now session.old }
    ensures on { OnOk result ((later : Made → Dialogue)
        → PerformsOn (followed (line_dialogue session.old.workers session.old.script_state number
        (request_line (asked_for number (drawn_request generator.old)))) later) later
        session.old session.new hasher.old hasher.new) }
    ensures drawn { OnOk result (generator.new ≡ (drawn_request generator.old).after) }
    ensures ready { OnOk result (IsReady registry.now board.now session.new) }
    ensures goes_on { GoesOn session.old session.new }
    ensures unshut { (known session.new.board).number ≡ 0 → is_shut (known session.new.board).seen ≡ false }
{
    let line = draw_request(alloc, generator, number)?;
    perform_line(rt, alloc, board, registry, session, hasher, number, line)
}

// Hands the requests in.
fn hold_requests<R: Threads + Wait + Sync>(
    rt: &R,
    alloc: Global,
    board: &SharedBoard<Job>,
    registry: &SharedRegistry,
    session: &mut Session,
    hasher: &mut Sha256,
    seed: u64,
    count: u32,
) -> Result<(), AllocError>
    requires ready { IsReady registry.now board.now session.old }
    ensures on { OnOk result
        (PerformsOn (lines_dialogue session.old.workers session.old.script_state 0 (request_lines seed count) end) end
        session.old session.new hasher.old hasher.new) }
    ensures ready { OnOk result (IsReady registry.now board.now session.new) }
    ensures goes_on { GoesOn session.old session.new }
    ensures unshut { (known session.new.board).number ≡ 0 → is_shut (known session.new.board).seen ≡ false }
{
    let mut generator = Generator::new(seed);
    for number in 0..count {
        hold_request(
            rt,
            alloc,
            board,
            registry,
            session,
            hasher,
            &mut generator,
            number,
        )?;
    }
    Ok(())
}

// Drains both transforms and shuts the board.
fn hold_end<G: Gate, R: Wait>(
    rt: &R,
    alloc: Global,
    board: &SharedBoard<Job>,
    registry: &SharedRegistry,
    gate: &G,
    session: &mut Session,
    hasher: &mut Sha256,
) -> Result<(), AllocError>
    requires ready { IsReady registry.now board.now session.old }
    requires first { (known session.old.board).number ≡ 0 }
    ensures on { OnOk result ((whole : Dialogue) → IsHeld whole (end session.old.script_state) session.old hasher.old
        → IsHeld whole (Ends session.old.script_state) session.new hasher.new) }
    ensures own { OnOk result (IsOwn caller_of (known session.new.registry)) }
    ensures shut { OnOk result (EndsShut (known session.new.board)) }
    ensures goes_on { GoesOn session.old session.new }
    ensures unshut { IsUnshutOrEnds (known session.new.board) }
{
    laws();
    let mut answers = Vec::new(alloc);
    match session.answer_end(rt, board, gate, &mut answers) {
        Ok(()) => {
            hash_completions(hasher, &answers);
            Ok(())
        }
        Err(Stop::Memory) => Err(AllocError),
    }
}

/// Makes so many requests from the seed, and gives the hash of their values: first of those of even numbers, then of
/// the others. Only want of memory stops it.
pub fn perform_load<G: Gate, R: Threads + Wait + Sync>(
    rt: &R,
    alloc: Global,
    board: &SharedBoard<Job>,
    registry: &SharedRegistry,
    gate: &G,
    session: &mut Session,
    seed: u64,
    count: u32,
) -> Result<[u8; 32], AllocError>
    requires ready { IsReady registry.now board.now session.old }
    requires fresh { IsFresh session.old }
    ensures loaded { IfOk result (IsLoadTurnAfter session.old.workers seed count (known session.new.registry) (known session.new.board)) }
    ensures own { OnOk result (IsOwn caller_of (known session.new.registry)) }
    ensures shut { OnOk result (EndsShut (known session.new.board)) }
    ensures goes_on { GoesOn session.old session.new }
    ensures unshut { IsUnshutOrEnds (known session.new.board) }
{
    let mut hasher = Sha256::new();
    hold_opening(rt, alloc, board, registry, session, &mut hasher)?;
    hold_requests(
        rt,
        alloc,
        board,
        registry,
        session,
        &mut hasher,
        seed,
        count,
    )?;
    hold_end(rt, alloc, board, registry, gate, session, &mut hasher)?;
    laws();
    Ok(hasher.finalize())
}
