//! The end of input: pipelines are let go, and then drained.

ghost use Rattle.std.specs.Prelude.{◌≡◌, ◌++◌, [], OnOk, OnErr, MatchResult};
ghost use Rattle.board.specs.Legal.{LegalBoard};
ghost use Rattle.dialogues.specs.PipelineCommands.{lets_go, let_all_go, drains_at_end, drain_all, end, end_said};
ghost use Rattle.script_session.specs.EndOfInput.{Moves, MovesAll, StopsMoving, PipelinesMatchState, AreAllDelivered, AllDelivered, AnswersEnd, EndsShut};
ghost use Rattle.script_session.specs.PerformedDialogue.{StopsIn};
ghost use Rattle.script_session.specs.ReplyText.{SaysTold, Tells};
ghost use Rattle.script_session.specs.States.{HasPipe, ReferencesMatch, PipelinesMatch};
ghost use Rattle.recorded_calls.specs.Passes.{known, lock_of, CallsBoard};

use crate::callbacks::{count_completions, tell};
use crate::collects::drain_last_said_all;
use crate::scripts::Session;
use crate::transform::Transform;
use board::only_collects_hand_out;
use crew::Gate;
use kc_base::{Bytes, Callbacks};
use recorded_calls::{BoardCaller, Stop};
use reply_text::{Answer, Reply};
use shared_board::SharedBoard;
use std::alloc::{AllocError, Global};
use std::sync::Wait;
use transforms::{Ask, Job};

// Lets the pipeline of a transform go, if it is held.
fn release_live<R: Wait>(
    rt: &R,
    board: &SharedBoard<Job>,
    caller: &mut BoardCaller,
    live: &mut Transform,
) -> Result<(), Stop>
    requires at { CallsBoard board.now caller.old }
    requires legal { LegalBoard (known caller.old).seen }
    requires pipe { HasPipe (known caller.old) live.old.pipe }
    ensures lock { lock_of caller.new ≡ lock_of caller.old }
    ensures moved { MatchResult result
        (λ _. Moves (lets_go live.old.pipe) live.old live.new (known caller.old) (known caller.new) [] [])
        (λ _. StopsMoving (lets_go live.old.pipe) (known caller.old) (known caller.new)) }
    ensures told { Tells (known caller.old) (known caller.new) [] }
{
    let Some(pipe) = live.pipe() else {
        return Ok(());
    };
    if !pipe.held {
        return Ok(());
    }
    caller.go(rt, board, pipe)?;
    live.set_held(false);
    Ok(())
}

/// Adds how many completions a transform's last callbacks have, where there is one.
pub fn say_end(
    alloc: Global,
    label: &[u8],
    count: u64,
    answers: &mut Vec<Answer>,
) -> Result<(), AllocError>
    ensures { OnOk result (answers.new.items ≡ answers.old.items ++ end_said label.now count) }
{
    if count == 0 {
        return Ok(());
    }
    let label = Bytes::copy_of(alloc, label)?;
    answers.push(Answer::End { label, count })?;
    Ok(())
}

// Does what jobs there are until those of a transform's pipeline are done, if it has one, and adds what it hands out.
fn drain_last<R: Wait, G: Gate>(
    rt: &R,
    alloc: Global,
    board: &SharedBoard<Job>,
    gate: &G,
    caller: &mut BoardCaller,
    live: &mut Transform,
    answers: &mut Vec<Answer>,
) -> Result<(), Stop>
    requires at { CallsBoard board.now caller.old }
    requires legal { LegalBoard (known caller.old).seen }
    requires pipe { HasPipe (known caller.old) live.old.pipe }
    ensures lock { lock_of caller.new ≡ lock_of caller.old }
    ensures moved { MatchResult result
        (λ _. Moves (drains_at_end live.old.label live.old.pipe)
        live.old live.new (known caller.old) (known caller.new) answers.old.items answers.new.items)
        (λ _. StopsMoving (drains_at_end live.old.label live.old.pipe) (known caller.old) (known caller.new)) }
    ensures paid { OnOk result (AllDelivered live.new.pipe) }
{
    let Some(pipe) = live.pipe() else {
        return Ok(());
    };
    let mut into = Callbacks::new(alloc);
    caller.drain(rt, board, gate, pipe, &mut into)?;
    let count = count_completions(into.as_slice());
    tell(&pipe.lines, into, answers)?;
    say_end(alloc, live.label(), count, answers)?;
    live.deliver(count);
    Ok(())
}

/// Lets each held pipeline go, in order of allocation.
pub fn release_all<R: Wait>(
    rt: &R,
    board: &SharedBoard<Job>,
    caller: &mut BoardCaller,
    lives: &mut [Transform],
) -> Result<(), Stop>
    requires at { CallsBoard board.now caller.old }
    requires posted { PipelinesMatchState lives.old (known caller.old) }
    ensures lock { lock_of caller.new ≡ lock_of caller.old }
    ensures moved { MatchResult result
        (λ _. MovesAll (let_all_go lives.old) lives.old lives.new (known caller.old) (known caller.new) [] [])
        (λ _. StopsMoving (let_all_go lives.old) (known caller.old) (known caller.new)) }
    ensures told { Tells (known caller.old) (known caller.new) [] }
{
    for live in lives.iter_mut() {
        release_live(rt, board, caller, live)?;
    }
    Ok(())
}

/// Drains each pipeline, in order of allocation, and adds what they hand out.
pub fn drain_last_all<R: Wait, G: Gate>(
    rt: &R,
    alloc: Global,
    board: &SharedBoard<Job>,
    gate: &G,
    caller: &mut BoardCaller,
    lives: &mut [Transform],
    answers: &mut Vec<Answer>,
) -> Result<(), Stop>
    requires at { CallsBoard board.now caller.old }
    requires posted { PipelinesMatchState lives.old (known caller.old) }
    ensures lock { lock_of caller.new ≡ lock_of caller.old }
    ensures moved { MatchResult result
        (λ _. MovesAll (drain_all lives.old) lives.old lives.new (known caller.old) (known caller.new) answers.old.items answers.new.items)
        (λ _. StopsMoving (drain_all lives.old) (known caller.old) (known caller.new)) }
    ensures paid { OnOk result (AreAllDelivered lives.new) }
{
    for live in lives.iter_mut() {
        drain_last(rt, alloc, board, gate, caller, live, answers)?;
    }
    Ok(())
}

impl Session {
    /// Answers the end of input, as `line` answers a line: held queues are let go, then each live transform is drained,
    /// both in order of allocation, and then the board is shut. No line comes after it. The session's is the board's
    /// first pass, with the number 0.
    ///
    /// It does what jobs there are while it waits. `Stop` comes for want of memory alone: the calls that were made are
    /// then the first of the end's dialogue, and the board isn't shut. The reply has the text of what its pipelines
    /// handed out up to then, and no other callback.
    pub fn end<R: Wait, G: Gate>(
        &mut self,
        rt: &R,
        board: &SharedBoard<Job>,
        gate: &G,
        reply: &mut Reply,
    ) -> Result<(), Stop>
        requires at { CallsBoard board.now self.old.board }
        requires stands { ReferencesMatch self.old.script_state.lives (known self.old.registry) }
        requires posted { PipelinesMatch self.old.script_state (known self.old.board) }
        requires first { (known self.old.board).number ≡ 0 }
        ensures done { MatchResult result
            (λ _. AnswersEnd self.old self.new reply.old.text reply.new.text)
            (λ _. StopsIn (end self.old.script_state) self.old self.new) }
        ensures shut { OnOk result (EndsShut (known self.new.board)) }
        ensures told { OnErr result (SaysTold (known self.old.board) (known self.new.board) reply.old.text reply.new.text) }
    {
        only_collects_hand_out::<Ask>();
        // No line comes after it, so nothing is looked up any more.
        let mut lives = self.lives.take_all(self.alloc)?;
        release_all(rt, board, &mut self.board, &mut lives)?;
        drain_last_said_all(
            rt,
            self.alloc,
            board,
            gate,
            &mut self.board,
            self.bytes,
            &mut lives,
            reply,
        )?;
        self.board.shut(rt, board);
        Ok(())
    }
}
