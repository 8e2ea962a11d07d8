//! What the checker keeps of a board, and the board's events checked in order.

ghost use Rattle.std.specs.Prelude.{◌≡◌, map, OnOk, IfOk, slice_get};
ghost use Rattle.trace_check.specs.BoardReasons.{IsFirstWrong};
ghost use Rattle.trace_check.specs.Pipes.{state_of, AllCanCount, judged, judged_at, pipe_of, after_at, pipes_after, is_shut_by};

use crate::pipe::{Pipeline, is_shape, is_worker};
use crate::reason::{Reason, reason_of};
use board::BoardEntry;
use std::alloc::{AllocError, Global};

// The pipeline of an event; the event that shuts the board has none.
fn pipe_of<A>(event: &BoardEntry<A>) -> u64
    ensures { result ≡ pipe_of event.now }
{
    match event {
        BoardEntry::Born { pipe, .. }
        | BoardEntry::Submit { pipe, .. }
        | BoardEntry::Take { pipe, .. }
        | BoardEntry::Finish { pipe, .. }
        | BoardEntry::Enq { pipe, .. }
        | BoardEntry::Deq { pipe, .. }
        | BoardEntry::Done { pipe, .. }
        | BoardEntry::Hold { pipe, .. }
        | BoardEntry::Go { pipe, .. }
        | BoardEntry::Collect { pipe, .. }
        | BoardEntry::Close { pipe, .. }
        | BoardEntry::Share { pipe, .. }
        | BoardEntry::Mask { pipe, .. } => *pipe,
        BoardEntry::Shut { .. } => 0,
    }
}

fn is_shut_by<A>(shut: bool, event: &BoardEntry<A>) -> bool
    ensures { result ≡ is_shut_by shut event.now }
{
    match event {
        BoardEntry::Shut { .. } => true,
        _ => shut,
    }
}

// The first reason against an event of a pipeline.
fn judge_at<A>(pipes: &[Pipeline], event: &BoardEntry<A>) -> Option<Reason>
    ensures { result ≡ judged_at (slice_get (map state_of pipes.now) (pipe_of event.now)) event.now }
{
    match pipes.get(pipe_of(event) as usize) {
        Some(pipe) => pipe.judge(event),
        None => Some(Reason::State),
    }
}

// The first reason against an event, where there is one.
fn judge<A>(pipes: &[Pipeline], shut: bool, event: &BoardEntry<A>) -> Option<Reason>
    ensures { result ≡ judged (map state_of pipes.now) shut event.now }
{
    match event {
        BoardEntry::Born {
            caller,
            pipe,
            shape,
        } => reason_of(
            true,
            !is_worker(*caller),
            *pipe == pipes.len() as u64 && is_shape(*shape),
            true,
        ),
        BoardEntry::Shut { caller } => reason_of(!shut, *caller == 0, true, true),
        _ => judge_at(pipes, event),
    }
}

// Goes on by an event of a pipeline.
fn advance_at<A>(pipes: &mut Vec<Pipeline>, event: &BoardEntry<A>) -> Result<(), AllocError>
    requires { AllCanCount (map state_of pipes.old.items) }
    ensures { OnOk result (map state_of pipes.new.items
        ≡ after_at (map state_of pipes.old.items) event.now (slice_get (map state_of pipes.old.items) (pipe_of event.now))) }
{
    let place = pipe_of(event) as usize;
    if place < pipes.len() {
        pipes[place].advance(event)?;
    }
    Ok(())
}

// Goes on by a right event.
fn advance<A>(
    alloc: Global,
    pipes: &mut Vec<Pipeline>,
    event: &BoardEntry<A>,
) -> Result<(), AllocError>
    requires { AllCanCount (map state_of pipes.old.items) }
    ensures { OnOk result (map state_of pipes.new.items ≡ pipes_after (map state_of pipes.old.items) event.now) }
{
    match event {
        BoardEntry::Born { caller, shape, .. } => {
            pipes.push(Pipeline::new(alloc, *caller, *shape))?;
        }
        BoardEntry::Shut { .. } => {}
        _ => advance_at(pipes, event)?,
    }
    Ok(())
}

/// The place, counted from 0, and the reason of the first event that isn't right after those before it; `None` where
/// each is right. Only want of memory is an error.
pub fn first_wrong_event<A>(
    alloc: Global,
    events: &[BoardEntry<A>],
) -> Result<Option<(u64, Reason)>, AllocError>
    ensures { IfOk result (λ found. IsFirstWrong events.now found) }
{
    let mut pipes = Vec::new(alloc);
    let mut shut = false;
    for place in 0..events.len() {
        let event = &events[place];
        if let Some(reason) = judge(&pipes, shut, event) {
            return Ok(Some((place as u64, reason)));
        }
        advance(alloc, &mut pipes, event)?;
        shut = is_shut_by(shut, event);
    }
    Ok(None)
}
