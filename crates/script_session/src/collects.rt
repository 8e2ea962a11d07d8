//! Collects whose text goes straight into a reply. The room for the whole text is taken before the call on the board,
//! from what the script's requests asked: whatever a pipeline handed out is in the reply.

ghost use Rattle.std.specs.Prelude.{◌≡◌, ◌+◌, ◌≤◌, ◌++◌, ◌&&◌, length, MatchResult, OnOk, sum_by};
ghost use Rattle.std.specs.List.{flat_map};
ghost use Rattle.board.specs.Allowance.{accepted_by};
ghost use Rattle.board.specs.Legal.{LegalBoard};
ghost use Rattle.reply_text.specs.Answers.{text_of};
ghost use Rattle.dialogues.specs.PipelineCommands.{drains_at_end, drain_all, end_said};
ghost use Rattle.script_session.specs.EndOfInput.{PipelinesMatchState, AreAllDelivered, AllDelivered, StopsMoving};
ghost use Rattle.script_session.specs.ReplyText.{SaysFor, SaysBy, BreaksFor, BreaksOff, SaysMove, SaysMoves, SaysTold, collects, collected_said, Collected};
ghost use Rattle.script_session.specs.States.{HasPipe, StateMatches};
ghost use Rattle.recorded_calls.specs.Passes.{known, lock_of, CallsBoard};
ghost use Rattle.recorded_calls.specs.Pipelines.{KnowsPipe, Unchanged};
ghost use Rattle.transforms.specs.AskValue.{ask_size};

use crate::answers::put_one;
use crate::callbacks::{count_completions, put_callbacks, put_short};
use crate::room::collected_room;
use crate::scripts::Session;
use crate::transform::Transform;
use board::{BoardErr, only_collects_hand_out};
use crew::Gate;
use kc_base::{Bytes, Callbacks, Errno};
use recorded_calls::{BoardCaller, PipelineView, Stop};
use reply_text::{Answer, Reply};
use shared_board::SharedBoard;
use std::alloc::Global;
use std::sync::Wait;
use transforms::{Ask, Finished, Job};

// Collects what a pipeline hands out. With `waits` it does what jobs there are until those of the pipeline are done.
fn collect_pipe<R: Wait, G: Gate>(
    rt: &R,
    board: &SharedBoard<Job>,
    gate: &G,
    caller: &mut BoardCaller,
    pipe: &PipelineView,
    waits: bool,
    into: &mut Callbacks<Finished>,
) -> Result<(), BoardErr>
    requires at { CallsBoard board.now caller.old }
    requires legal { LegalBoard (known caller.old).seen }
    requires pipe { KnowsPipe (known caller.old) pipe.now }
    ensures lock { lock_of caller.new ≡ lock_of caller.old }
    ensures collected { MatchResult result
        (λ _. Collected waits (known caller.old) (known caller.new) pipe.now into.old.list into.new.list)
        (λ _. Unchanged (known caller.old) (known caller.new)) }
{
    if waits {
        caller.drain(rt, board, gate, pipe, into)
    } else {
        caller.poll(rt, board, pipe, into)
    }
}

// A drain of a held queue would not end.
fn never_ends(waits: bool, pipe: &PipelineView) -> bool
    ensures { result ≡ (waits && pipe.now.held) }
{
    waits && pipe.held
}

fn collected(line: u32, waits: bool, count: u64) -> Answer
    ensures { result ≡ collected_said line waits count }
{
    if waits {
        Answer::Drained { line, count }
    } else {
        Answer::Polled { line, count }
    }
}

// `drain T` of a transform, or `poll T` without `waits`, whose text is added to a reply, where all requests of the
// script ask so many bytes. Where it stops, the board wasn't called, but jobs that there were may have been done.
fn collect_live<R: Wait, G: Gate>(
    rt: &R,
    alloc: Global,
    board: &SharedBoard<Job>,
    gate: &G,
    caller: &mut BoardCaller,
    line: u32,
    waits: bool,
    bytes: u64,
    live: &mut Transform,
    reply: &mut Reply,
) -> Result<(), Stop>
    requires at { CallsBoard board.now caller.old }
    requires legal { LegalBoard (known caller.old).seen }
    requires pipe { HasPipe (known caller.old) live.old.pipe }
    requires bytes { sum_by ask_size (accepted_by (known caller.old).number (known caller.old).seen) ≡ bytes }
    ensures named { live.new.label ≡ live.old.label }
    ensures lock { lock_of caller.new ≡ lock_of caller.old }
    ensures held { MatchResult result
        (λ _. SaysFor (λ script_state. collects waits script_state line live.old.label)
        live.old live.new (known caller.old) (known caller.new) reply.old.text reply.new.text)
        (λ _. BreaksFor (known caller.old) (known caller.new) reply.old.text reply.new.text) }
{
    only_collects_hand_out::<Ask>();
    let Some(pipe) = live.pipe() else {
        return put_one(reply, collected(line, waits, 0));
    };
    if never_ends(waits, pipe) {
        let errno = Errno::EINVAL;
        return put_one(reply, Answer::Refused { line, errno });
    }
    reply.reserve(collected_room(pipe.lines.count(), bytes, 0))?;
    let mut into = Callbacks::new(alloc);
    collect_pipe(rt, board, gate, caller, pipe, waits, &mut into)?;
    let count = count_completions(into.as_slice());
    put_callbacks(reply, &pipe.lines, into.as_slice());
    put_short(reply, collected(line, waits, count));
    live.deliver(count);
    Ok(())
}

impl Session {
    // `drain T`, or `poll T` without `waits`, whose text is added. Where it stops, the board wasn't called.
    pub(crate) fn collect<R: Wait, G: Gate>(
        &mut self,
        rt: &R,
        board: &SharedBoard<Job>,
        gate: &G,
        number: u32,
        label: &Bytes,
        waits: bool,
        reply: &mut Reply,
    ) -> Result<(), Stop>
        requires at { CallsBoard board.now self.old.board }
        requires state { StateMatches self.old }
        ensures { MatchResult result
            (λ _. SaysBy 1 (collects waits self.old.script_state number label.now) self.old self.new reply.old.text reply.new.text)
            (λ _. BreaksOff (collects waits self.old.script_state number label.now) self.old self.new reply.old.text reply.new.text) }
    {
        let Some(place) = self.lives.place_of(label.as_slice()) else {
            let errno = self.missing(label.as_slice());
            return put_one(
                reply,
                Answer::Refused {
                    line: number,
                    errno,
                },
            );
        };
        let live = self.lives.transforms.get_mut(&place).unwrap();
        collect_live(
            rt,
            self.alloc,
            board,
            gate,
            &mut self.board,
            number,
            waits,
            self.bytes,
            live,
            reply,
        )
    }
}

// Adds the line `end`, where a transform's last callbacks have completions. There is room for it.
fn put_end(reply: &mut Reply, label: &[u8], count: u64)
    requires { length label.now + 64 ≤ reply.old.spare }
    ensures { reply.new.text ≡ reply.old.text ++ flat_map text_of (end_said label.now count) }
{
    if count == 0 {
        return;
    }
    let _ = reply.put_end(label, count);
}

// Does what jobs there are until those of a transform's pipeline are done, if it has one, and adds the text of what it
// hands out.
fn drain_last_said<R: Wait, G: Gate>(
    rt: &R,
    alloc: Global,
    board: &SharedBoard<Job>,
    gate: &G,
    caller: &mut BoardCaller,
    bytes: u64,
    live: &mut Transform,
    reply: &mut Reply,
) -> Result<(), Stop>
    requires at { CallsBoard board.now caller.old }
    requires legal { LegalBoard (known caller.old).seen }
    requires pipe { HasPipe (known caller.old) live.old.pipe }
    requires bytes { sum_by ask_size (accepted_by (known caller.old).number (known caller.old).seen) ≡ bytes }
    ensures lock { lock_of caller.new ≡ lock_of caller.old }
    ensures moved { MatchResult result
        (λ _. SaysMove (drains_at_end live.old.label live.old.pipe)
        live.old live.new (known caller.old) (known caller.new) reply.old.text reply.new.text)
        (λ _. StopsMoving (drains_at_end live.old.label live.old.pipe) (known caller.old) (known caller.new)) }
    ensures told { SaysTold (known caller.old) (known caller.new) reply.old.text reply.new.text }
    ensures paid { OnOk result (AllDelivered live.new.pipe) }
{
    let Some(pipe) = live.pipe() else {
        return Ok(());
    };
    let more = live.label().len();
    reply.reserve(collected_room(pipe.lines.count(), bytes, more))?;
    let mut into = Callbacks::new(alloc);
    caller.drain(rt, board, gate, pipe, &mut into)?;
    let count = count_completions(into.as_slice());
    put_callbacks(reply, &pipe.lines, into.as_slice());
    put_end(reply, live.label(), count);
    live.deliver(count);
    Ok(())
}

/// Drains each pipeline, in order of allocation, and adds the text of what they hand out, where all requests of
/// the script ask so many bytes. Where it stops, the reply has what was handed out.
pub fn drain_last_said_all<R: Wait, G: Gate>(
    rt: &R,
    alloc: Global,
    board: &SharedBoard<Job>,
    gate: &G,
    caller: &mut BoardCaller,
    bytes: u64,
    lives: &mut [Transform],
    reply: &mut Reply,
) -> Result<(), Stop>
    requires at { CallsBoard board.now caller.old }
    requires posted { PipelinesMatchState lives.old (known caller.old) }
    requires bytes { sum_by ask_size (accepted_by (known caller.old).number (known caller.old).seen) ≡ bytes }
    ensures lock { lock_of caller.new ≡ lock_of caller.old }
    ensures moved { MatchResult result
        (λ _. SaysMoves (drain_all lives.old) lives.old lives.new (known caller.old) (known caller.new) reply.old.text reply.new.text)
        (λ _. StopsMoving (drain_all lives.old) (known caller.old) (known caller.new)) }
    ensures told { SaysTold (known caller.old) (known caller.new) reply.old.text reply.new.text }
    ensures paid { OnOk result (AreAllDelivered lives.new) }
{
    for live in lives.iter_mut() {
        drain_last_said(rt, alloc, board, gate, caller, bytes, live, reply)?;
    }
    Ok(())
}
