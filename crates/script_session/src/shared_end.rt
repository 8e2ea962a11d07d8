//! The end of input of the first script, when those have ended that shared its transforms.

ghost use Rattle.std.specs.Prelude.{◌≡◌, [], false, OnErr, MatchResult};
ghost use Rattle.board.specs.Alone.{PeersGone};
ghost use Rattle.board.specs.Legal.{LegalBoard};
ghost use Rattle.turn_lock.specs.Passes.{knows};
ghost use Rattle.dialogues.specs.PipelineCommands.{lets_go, let_all_go, drains_at_end, drain_all};
ghost use Rattle.shared_board.specs.Passes.{IsPassOn};
ghost use Rattle.recorded_calls.specs.Passes.{known, lock_of, CallsBoard};
ghost use Rattle.recorded_calls.specs.SharedCalls.{HaveEnded};
ghost use Rattle.script_session.specs.SharedEnd.{IsJoined, EndsFirst, StopsFirst, SeesBeside, HasFreed, HasDelivered, MovesLent, MovesAllLent, EndsLent, AreToMove, MayShut, ShutsBeside, MeetsBeside};
ghost use Rattle.script_session.specs.PerformedDialogue.{HasSeenMore};
ghost use Rattle.script_session.specs.Loans.{HasLent};

use crate::answers::put_all;
use crate::callbacks::{count_completions, tell};
use crate::end_of_input::say_end;
use crate::shared_transforms::Shared;
use crate::transform::Transform;
use board::only_collects_hand_out;
use crew::Gate;
use kc_base::Callbacks;
use recorded_calls::{
    BoardCaller, PipelineView, RequestLines, Stop, gathered_hand_out_all, sharing_laws,
};
use reply_text::{Answer, Reply};
use shared_board::{BoardPass, SharedBoard};
use std::alloc::Global;
use std::sync::Wait;
use transforms::{Ask, Job};

// Lets the pipeline of a shared transform go, if it is held.
fn release_shared<R: Wait>(
    rt: &R,
    board: &SharedBoard<Job>,
    caller: &mut BoardCaller,
    live: &Transform,
) -> Result<(), Stop>
    requires at { CallsBoard board.now caller.old }
    requires legal { LegalBoard (known caller.old).seen }
    requires gone { PeersGone (known caller.old) }
    requires pipe { HasLent (known caller.old) live.now.pipe }
    ensures lock { lock_of caller.new ≡ lock_of caller.old }
    ensures moved { MatchResult result
        (λ _. MovesLent HasLent HasFreed (lets_go live.now.pipe) live.now.pipe (known caller.old) (known caller.new) [] [])
        (λ _. SeesBeside (known caller.old) (known caller.new)) }
{
    let Some(pipe) = live.pipe() else {
        return Ok(());
    };
    if !pipe.held {
        return Ok(());
    }
    caller.go_gathered(rt, board, pipe)?;
    Ok(())
}

// Lets each held pipeline go, in order of allocation.
fn release_shared_all<R: Wait>(
    rt: &R,
    board: &SharedBoard<Job>,
    caller: &mut BoardCaller,
    lives: &[Transform],
) -> Result<(), Stop>
    requires at { CallsBoard board.now caller.old }
    requires lent { AreToMove HasLent lives.now (known caller.old) }
    ensures lock { lock_of caller.new ≡ lock_of caller.old }
    ensures moved { MatchResult result
        (λ _. MovesAllLent HasFreed (let_all_go lives.now) lives.now (known caller.old) (known caller.new) [] [])
        (λ _. SeesBeside (known caller.old) (known caller.new)) }
{
    for live in lives {
        release_shared(rt, board, caller, live)?;
    }
    Ok(())
}

// A pipeline that was let go, of which it isn't known yet what it accepted. No memory is taken.
fn freed(alloc: Global, pipe: &PipelineView) -> PipelineView
    ensures { result ≡ record (pipe.now) { held = false; lines = [] } }
{
    PipelineView {
        number: pipe.number,
        bound: pipe.bound,
        held: false,
        mask_is_empty: pipe.mask_is_empty,
        lines: RequestLines::new(alloc),
        delivered: pipe.delivered,
    }
}

// Does what jobs there are until those of a shared transform's pipeline are done, if it has one, and adds what it hands
// out.
fn drain_shared<R: Wait, G: Gate>(
    rt: &R,
    alloc: Global,
    board: &SharedBoard<Job>,
    gate: &G,
    caller: &mut BoardCaller,
    live: &Transform,
    answers: &mut Vec<Answer>,
) -> Result<(), Stop>
    requires at { CallsBoard board.now caller.old }
    requires legal { LegalBoard (known caller.old).seen }
    requires gone { PeersGone (known caller.old) }
    requires pipe { HasFreed (known caller.old) live.now.pipe }
    ensures lock { lock_of caller.new ≡ lock_of caller.old }
    ensures moved { MatchResult result
        (λ _. MovesLent HasFreed HasDelivered (drains_at_end live.now.label live.now.pipe)
        live.now.pipe (known caller.old) (known caller.new) answers.old.items answers.new.items)
        (λ _. SeesBeside (known caller.old) (known caller.new)) }
{
    let Some(shared) = live.pipe() else {
        return Ok(());
    };
    let mut pipe = freed(alloc, shared);
    caller.gather(rt, alloc, board, &mut pipe)?;
    let mut into = Callbacks::new(alloc);
    caller.drain_gathered(rt, board, gate, &pipe, &mut into)?;
    let count = count_completions(into.as_slice());
    tell(&pipe.lines, into, answers)?;
    say_end(alloc, live.label(), count, answers)?;
    Ok(())
}

// Drains each pipeline, in order of allocation, and adds what they hand out.
fn drain_shared_all<R: Wait, G: Gate>(
    rt: &R,
    alloc: Global,
    board: &SharedBoard<Job>,
    gate: &G,
    caller: &mut BoardCaller,
    lives: &[Transform],
    answers: &mut Vec<Answer>,
) -> Result<(), Stop>
    requires at { CallsBoard board.now caller.old }
    requires freed { AreToMove HasFreed lives.now (known caller.old) }
    ensures lock { lock_of caller.new ≡ lock_of caller.old }
    ensures moved { MatchResult result
        (λ _. MovesAllLent HasDelivered (drain_all lives.now)
        lives.now (known caller.old) (known caller.new) answers.old.items answers.new.items)
        (λ _. SeesBeside (known caller.old) (known caller.new)) }
{
    for live in lives {
        drain_shared(rt, alloc, board, gate, caller, live, answers)?;
    }
    Ok(())
}

// Answers the end of input up to the shut.
fn end_shared<R: Wait, G: Gate>(
    rt: &R,
    alloc: Global,
    board: &SharedBoard<Job>,
    gate: &G,
    caller: &mut BoardCaller,
    lives: &[Transform],
    reply: &mut Reply,
) -> Result<(), Stop>
    requires at { CallsBoard board.now caller.old }
    requires lent { AreToMove HasLent lives.now (known caller.old) }
    ensures lock { lock_of caller.new ≡ lock_of caller.old }
    ensures done { MatchResult result
        (λ _. EndsLent lives.now (known caller.old) (known caller.new) reply.old.text reply.new.text)
        (λ _. SeesBeside (known caller.old) (known caller.new)) }
    ensures unwritten { OnErr result (reply.new.text ≡ reply.old.text) }
{
    release_shared_all(rt, board, caller, lives)?;
    let mut answers = Vec::new(alloc);
    drain_shared_all(rt, alloc, board, gate, caller, lives, &mut answers)?;
    put_all(reply, answers.as_slice())?;
    Ok(())
}

// Shuts the board where the end was held up to that. Otherwise it takes a turn, at which the caller has seen all that
// it did. No memory is taken.
fn leave_board<R: Wait>(
    rt: &R,
    board: &SharedBoard<Job>,
    caller: BoardCaller,
    held: &Result<(), Stop>,
) -> BoardPass<Job>
    requires at { CallsBoard board.now caller }
    requires may { MatchResult held.now (λ _. MayShut (known caller)) (λ _. HaveEnded (known caller)) }
    ensures lock { IsPassOn board.now result }
    ensures left { MatchResult held.now (λ _. ShutsBeside (known caller) (knows result)) (λ _. MeetsBeside (known caller) (knows result)) }
{
    sharing_laws();
    let pass = caller.into_pass();
    match held {
        Ok(()) => board.shut(rt, pass),
        Err(_) => {
            let (pass, _) = board.is_shut(rt, pass);
            pass
        }
    }
}

/// Answers the end of input of the first script, when all have ended that were split off its pass and share its
/// transforms: held queues are let go, each pipeline is drained of what all submitted, both in order of allocation, and
/// then the board is shut.
///
/// It does what jobs there are while it waits. `Stop` comes for want of memory alone; then the board isn't shut, and the
/// reply is as it was.
pub fn end_first<R: Wait, G: Gate>(
    rt: &R,
    alloc: Global,
    board: &SharedBoard<Job>,
    gate: &G,
    shared: &Shared,
    pass: BoardPass<Job>,
    reply: &mut Reply,
) -> (BoardPass<Job>, Result<(), Stop>)
    requires lock { IsPassOn board.now pass }
    requires joined { IsJoined shared.now (knows pass) }
    ensures lock { IsPassOn board.now result.0 }
    ensures more { HasSeenMore (knows pass) (knows result.0) }
    ensures ended { (knows result.0).ended ≡ (knows pass).ended }
    ensures done { MatchResult result.1
        (λ _. EndsFirst shared.now (knows pass) (knows result.0) reply.old.text reply.new.text)
        (λ _. StopsFirst (knows pass) (knows result.0)) }
    ensures unwritten { OnErr result.1 (reply.new.text ≡ reply.old.text) }
{
    only_collects_hand_out::<Ask>();
    gathered_hand_out_all();
    let mut caller = BoardCaller::new(pass);
    caller.meet(rt, board);
    let lives = shared.transforms.as_slice();
    let held = end_shared(rt, alloc, board, gate, &mut caller, lives, reply);
    (leave_board(rt, board, caller, &held), held)
}
