//! The lines of one part of an input, which is in memory, answered by its session.

ghost use Rattle.std.specs.Prelude.{◌≡◌, ◌≤◌, ◌^◌, length, IfOk, OnOk, MatchResult};
ghost use Rattle.std.specs.List.{list_any};
ghost use Rattle.dialogues.specs.Dialogues.{Ends as EndsThere};
ghost use Rattle.dialogues.specs.Lines.{lines_dialogue};
ghost use Rattle.dialogues.specs.Widths.{widest};
ghost use Rattle.script_run.specs.Text.{is_malformed};
ghost use Rattle.script_session.specs.PerformedDialogue.{Stops};
ghost use Rattle.script_session.specs.Replies.{IsReady, Replies};
ghost use Rattle.script_text.specs.Script.{script_of};
ghost use Rattle.client_run.specs.Laws.{Laws};

use crew::Gate;
use dialogues::{
    board_calls_go_on, calls_at_once, calls_in_turn, lines_lead, registry_calls_go_on, turns_follow,
};
use recorded_calls::Stop;
use reply_text::Reply;
use script_session::Session;
use script_text::{Line, read_line, split_line};
use shared_board::SharedBoard;
use shared_registry::SharedRegistry;
use std::alloc::Global;
use std::sync::Wait;
use std::thread::Threads;
use transforms::Job;

/// What turns and calls are as histories go on.
pub(crate) fn laws()
    ensures { Laws }
{
    lines_lead();
    turns_follow();
    registry_calls_go_on();
    board_calls_go_on();
    calls_in_turn();
    calls_at_once();
}

fn is_malformed_line(line: &Line) -> bool
    ensures { result ≡ is_malformed line.now }
{
    matches!(line, Line::Malformed)
}

/// Answers each line of a part of at most 2^28 bytes, adds the text of the answers to `reply`, and says whether a line
/// is malformed. The numbers of the part's lines begin at 1. `Stop` comes for want of memory alone; the session takes
/// no line after it.
pub fn answer_part<G: Gate, R: Threads + Wait + Sync>(
    rt: &R,
    alloc: Global,
    board: &SharedBoard<Job>,
    registry: &SharedRegistry,
    gate: &G,
    session: &mut Session,
    part: &[u8],
    reply: &mut Reply,
) -> Result<bool, Stop>
    requires ready { IsReady registry.now board.now session.old }
    requires short { length part.now ≤ 2 ^ 28 }
    ensures done { MatchResult result
        (λ _. Replies (widest (script_of part.now))
        (lines_dialogue session.old.workers session.old.script_state 1 (script_of part.now) EndsThere)
        session.old session.new reply.old.text reply.new.text)
        (λ _. Stops session.old session.new) }
    ensures ready { OnOk result (IsReady registry.now board.now session.new) }
    ensures malformed { IfOk result (λ bad. bad ≡ list_any is_malformed (script_of part.now)) }
{
    laws();
    let mut rest = part;
    let mut number = 1u32;
    let mut malformed = false;
    while let Some((line, behind)) = split_line(rest) {
        let said = read_line(alloc, line)?;
        let bad = is_malformed_line(&said);
        session.line(rt, board, registry, gate, number, said, reply)?;
        malformed |= bad;
        number += 1;
        rest = behind;
    }
    Ok(malformed)
}
