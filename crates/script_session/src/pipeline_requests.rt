//! What lines do with the pipeline of one transform.

ghost use Rattle.std.specs.Prelude.{◌≡◌, ◌≢◌, ◌↔◌, ◌≤◌, [], Some, MatchResult, IfOk, IfErr, IsTrue, true, false};
ghost use Rattle.board.specs.declared.board_core.BoardErr.TheVariants as BoardErr;
ghost use Rattle.script_session.specs.BrokenOff.{CallsOn};
ghost use Rattle.script_session.specs.Offers.{Offered};
ghost use Rattle.recorded_calls.specs.Pipelines.{KnowsPipe, Unchanged};
ghost use Rattle.dialogues.specs.AllocAndFree.{lists_beside, is_chained, queue_shape, shape_for};
ghost use Rattle.dialogues.specs.Names.{is_queue_length};
ghost use Rattle.script_session.specs.Creation.{Created, unasked};
ghost use Rattle.board.specs.Legal.{IsNoWorker};
ghost use Rattle.board.specs.Legal.{LegalBoard};
ghost use Rattle.std.specs.Arc.{arc_value};
ghost use Rattle.dialogues.specs.BoardCalls.{asked_by, origin_of};
ghost use Rattle.board.specs.Allowance.{IsAllowed};
ghost use Rattle.transforms.specs.AskValue.{ask_size};
ghost use Rattle.dialogues.specs.RequestCommands.{requests_in};
ghost use Rattle.recorded_calls.specs.Passes.{known, lock_of, CallsBoard};
ghost use Rattle.script_session.specs.States.{HasPipe};
ghost use Rattle.script_session.specs.TransformChanges.{PerformsFor, StopsFor, Released, asks_if, has_undelivered};

use crate::answers::{answer_errno, say, value_answer};
use crate::name_limits::is_chained_driver;
use crate::transform::Transform;
use alg_registry::{Spec, Wrap};
use board::{BoardErr, Entered, only_collects_hand_out};
use kc_base::Errno;
use recorded_calls::{BoardCaller, PipelineView, RequestLines, Stop};
use reply_text::{Answer, Origin};
use shared_board::SharedBoard;
use std::alloc::Global;
use std::sync::Wait;
use transforms::{Ask, Job};

// Hands a job in to a pipeline that has a worker that may take from it. A pad takes each that the caller's allowance
// has room for.
fn offer<R: Wait>(
    rt: &R,
    board: &SharedBoard<Job>,
    caller: &mut BoardCaller,
    pipe: &PipelineView,
    job: Job,
    backlog: bool,
) -> Result<Entered, BoardErr>
    requires at { CallsBoard board.now caller.old }
    requires pipe { KnowsPipe (known caller.old) pipe.now }
    requires manned { pipe.now.mask_is_empty ≡ false }
    ensures lock { lock_of caller.new ≡ lock_of caller.old }
    ensures offered { MatchResult result
        (λ answer. Offered (known caller.old) (known caller.new) pipe.now (arc_value job.ask) backlog answer)
        (λ _. Unchanged (known caller.old) (known caller.new)) }
    ensures allowed { MatchResult result
        (λ _. IsAllowed ask_size (known caller.old).seen (known caller.old).number (arc_value job.ask))
        (λ e. (e ≡ BoardErr.TooBig) ↔ (IsAllowed ask_size (known caller.old).seen (known caller.old).number (arc_value job.ask) → ⊥)) }
    ensures served { IfErr result (λ e. e ≢ BoardErr.NoWorker) }
{
    match pipe.bound {
        None => match caller.submit(rt, board, pipe, job) {
            Ok(number) => Ok(Entered::InProgress(number)),
            Err(error) => Err(error),
        },
        Some(_) => caller.enqueue(rt, board, pipe, job, backlog),
    }
}

/// Does a job of a line of the script: at once, or in its transform's pipeline. It says whether a pipeline accepted it.
pub fn take_job<R: Wait>(
    rt: &R,
    board: &SharedBoard<Job>,
    caller: &mut BoardCaller,
    of: Origin,
    live: &mut Transform,
    job: Job,
    backlog: bool,
    answers: &mut Vec<Answer>,
) -> Result<bool, Stop>
    requires at { CallsBoard board.now caller.old }
    requires legal { LegalBoard (known caller.old).seen }
    requires pipe { HasPipe (known caller.old) live.old.pipe }
    requires line { origin_of (arc_value job.ask) ≡ of }
    ensures named { live.new.label ≡ live.old.label }
    ensures lock { lock_of caller.new ≡ lock_of caller.old }
    ensures held { MatchResult result
        (λ accepted. PerformsFor
        (λ script_state. requests_in script_state of.line live.old (asked_by (arc_value job.ask)) backlog live.old.pipe)
        live.old live.new (known caller.old) (known caller.new) (asks_if accepted (arc_value job.ask)) answers.old.items answers.new.items)
        (λ _. StopsFor (λ script_state. requests_in script_state of.line live.old (asked_by (arc_value job.ask)) backlog live.old.pipe)
        live.old (known caller.old) (known caller.new)) }
    ensures allowed { IfOk result (λ accepted. IsTrue accepted
        → IsAllowed ask_size (known caller.old).seen (known caller.old).number (arc_value job.ask)) }
{
    let Some(pipe) = live.pipe() else {
        say(answers, value_answer(of.line, job.run()))?;
        return Ok(false);
    };
    if pipe.mask_is_empty {
        answer_errno(answers, of.line, Errno::EINVAL)?;
        return Ok(false);
    }
    match offer(rt, board, caller, pipe, job, backlog) {
        Ok(Entered::InProgress(_)) => {
            answer_errno(answers, of.line, Errno::EINPROGRESS)?;
            live.accept(of)?;
            Ok(true)
        }
        Ok(Entered::Busy(_)) => {
            answer_errno(answers, of.line, Errno::EBUSY)?;
            live.accept(of)?;
            Ok(true)
        }
        Ok(Entered::NoSpace) => {
            answer_errno(answers, of.line, Errno::ENOSPC)?;
            Ok(false)
        }
        Err(BoardErr::TooBig) => {
            answer_errno(answers, of.line, Errno::E2BIG)?;
            Ok(false)
        }
        Err(BoardErr::Memory) => Err(Stop::Memory),
        // Some worker may take from it.
        Err(BoardErr::NoWorker) => unreachable!(),
    }
}

/// Whether completions of its requests are to come.
pub fn is_undelivered(live: &Transform) -> bool
    ensures { result ≡ has_undelivered live.now.pipe }
{
    match live.pipe() {
        Some(pipe) => pipe.delivered < pipe.lines.count(),
        None => false,
    }
}

/// Closes the pipeline of a transform that owes nothing, if it has one. No memory is taken.
pub fn close_live<R: Wait>(
    rt: &R,
    board: &SharedBoard<Job>,
    caller: &mut BoardCaller,
    live: &Transform,
)
    requires at { CallsBoard board.now caller.old }
    requires legal { LegalBoard (known caller.old).seen }
    requires pipe { HasPipe (known caller.old) live.now.pipe }
    requires paid { has_undelivered live.now.pipe ≡ false }
    ensures lock { lock_of caller.new ≡ lock_of caller.old }
    ensures released { Released live.now (known caller.old) (known caller.new) }
{
    only_collects_hand_out::<Ask>();
    let Some(pipe) = live.pipe() else {
        return;
    };
    caller.close(rt, board, pipe);
}

/// How many requests wait in a queue before it is full, where its line doesn't say.
const QUEUE_LENGTH: u32 = 1000;

/// How many lists a pad has beside so many workers.
pub fn lists_beside_workers(workers: u32) -> u32
    requires few { workers ≤ 16 }
    ensures lists { result ≡ lists_beside workers }
    ensures some { 1 ≤ result }
    ensures most { result ≤ 16 }
{
    if workers < 1 { 1 } else { workers }
}

// A pipeline of which nothing was asked. No memory is taken.
fn unasked_pipe(alloc: Global, number: u64, bound: Option<u32>) -> PipelineView
    ensures { result ≡ unasked number bound }
{
    PipelineView {
        number,
        bound,
        held: false,
        mask_is_empty: false,
        lines: RequestLines::new(alloc),
        delivered: 0,
    }
}

// Makes the pipeline of what is under `cryptd`: a queue, and a chain for what is chained.
fn create_queue<R: Wait>(
    rt: &R,
    alloc: Global,
    board: &SharedBoard<Job>,
    caller: &mut BoardCaller,
    workers: u32,
    chained: bool,
    length: Option<u32>,
) -> Result<PipelineView, Stop>
    requires at { CallsBoard board.now caller.old }
    requires caller { IsNoWorker (known caller.old).number }
    requires fits { is_queue_length length ≡ true }
    requires few { workers ≤ 16 }
    ensures lock { lock_of caller.new ≡ lock_of caller.old }
    ensures created { MatchResult result
        (λ pipe. Created (Some (queue_shape workers chained length)) (Some pipe) (known caller.old) (known caller.new))
        (λ _. CallsOn (known caller.old) (known caller.new) []) }
{
    let max = length.unwrap_or(QUEUE_LENGTH);
    if chained {
        let number = caller.born_chain(rt, board, max, lists_beside_workers(workers))?;
        return Ok(unasked_pipe(alloc, number, Some(max)));
    }
    let number = caller.born_queue(rt, board, max)?;
    Ok(unasked_pipe(alloc, number, Some(max)))
}

/// Makes the pipeline of a transform, where its driver's outermost template has one: a pad under `pcrypt`, and under
/// `cryptd` a queue, or a chain over `pcrypt`.
pub fn create_pipe<R: Wait>(
    rt: &R,
    alloc: Global,
    board: &SharedBoard<Job>,
    caller: &mut BoardCaller,
    workers: u32,
    spec: &Spec,
    length: Option<u32>,
) -> Result<Option<PipelineView>, Stop>
    requires at { CallsBoard board.now caller.old }
    requires caller { IsNoWorker (known caller.old).number }
    requires fits { is_queue_length length ≡ true }
    requires few { workers ≤ 16 }
    ensures lock { lock_of caller.new ≡ lock_of caller.old }
    ensures created { MatchResult result
        (λ pipe. Created (shape_for workers (is_chained spec.now.driver) spec.now.wrap length) pipe (known caller.old) (known caller.new))
        (λ _. CallsOn (known caller.old) (known caller.new) []) }
{
    match spec.wrap {
        Wrap::Plain => Ok(None),
        Wrap::Pcrypt => {
            let number = caller.born_pad(rt, board, lists_beside_workers(workers))?;
            Ok(Some(unasked_pipe(alloc, number, None)))
        }
        Wrap::Cryptd => {
            let chained = is_chained_driver(spec.driver.as_slice());
            let pipe = create_queue(rt, alloc, board, caller, workers, chained, length)?;
            Ok(Some(pipe))
        }
    }
}
