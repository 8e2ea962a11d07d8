//! Requests of transforms that several scripts share.

ghost use Rattle.std.specs.Prelude.{◌≡◌, ◌≢◌, ◌↔◌, ◌<◌, ◌^◌, length, MatchResult, IfOk, IfErr, IsTrue, None, true, false};
ghost use Rattle.std.specs.Arc.{arc_value};
ghost use Rattle.board.specs.declared.board_core.BoardErr.TheVariants as BoardErr;
ghost use Rattle.board.specs.Allowance.{IsAllowed};
ghost use Rattle.board.specs.Legal.{LegalBoard};
ghost use Rattle.transforms.specs.AskValue.{ask_size};
ghost use Rattle.dialogues.specs.BoardCalls.{asked_by};
ghost use Rattle.dialogues.specs.RequestCommands.{request, requests_in};
ghost use Rattle.dialogues.specs.ScriptState.{live_of};
ghost use Rattle.recorded_calls.specs.Passes.{known, lock_of, CallsBoard};
ghost use Rattle.recorded_calls.specs.Pipelines.{Unchanged};
ghost use Rattle.recorded_calls.specs.SharedCalls.{KnowsShared};
ghost use Rattle.script_session.specs.TransformChanges.{asks_if};
ghost use Rattle.script_session.specs.PerformedDialogue.{Performs, StopsIn};
ghost use Rattle.script_session.specs.SharedTransforms.{GivesFor, StopsGiving, OffersShared};
ghost use Rattle.script_session.specs.States.{StateMatches, HasShared, AreShared};

use crate::answers::{answer_errno, say, value_answer};
use crate::scripts::Session;
use crate::shared_transforms::find_shared;
use crate::transform::Transform;
use board::{BoardErr, Entered, Work};
use kc_base::{Bytes, Errno};
use recorded_calls::{BoardCaller, PipelineView, Stop};
use reply_text::Answer;
use shared_board::SharedBoard;
use std::sync::Wait;
use transforms::{Job, Request, TfmErr};

// Hands a job in to a shared pipeline that has a worker that may take from it. A pad takes each that the caller's
// allowance has room for.
fn offer_shared<R: Wait>(
    rt: &R,
    board: &SharedBoard<Job>,
    caller: &mut BoardCaller,
    pipe: &PipelineView,
    job: Job,
    backlog: bool,
) -> Result<Entered, BoardErr>
    requires at { CallsBoard board.now caller.old }
    requires pipe { KnowsShared (known caller.old) pipe.now }
    requires manned { pipe.now.mask_is_empty ≡ false }
    ensures lock { lock_of caller.new ≡ lock_of caller.old }
    ensures offered { MatchResult result
        (λ answer. OffersShared (known caller.old) (known caller.new) pipe.now (arc_value job.ask) backlog answer)
        (λ _. Unchanged (known caller.old) (known caller.new)) }
    ensures allowed { MatchResult result
        (λ _. IsAllowed ask_size (known caller.old).seen (known caller.old).number (arc_value job.ask))
        (λ e. (e ≡ BoardErr.TooBig) ↔ (IsAllowed ask_size (known caller.old).seen (known caller.old).number (arc_value job.ask) → ⊥)) }
    ensures served { IfErr result (λ e. e ≢ BoardErr.NoWorker) }
{
    match pipe.bound {
        None => match caller.submit_shared(rt, board, pipe, job) {
            Ok(number) => Ok(Entered::InProgress(number)),
            Err(error) => Err(error),
        },
        Some(_) => caller.enqueue_shared(rt, board, pipe, job, backlog),
    }
}

// Does a job of a line of the script: at once, or in the pipeline of a transform that is shared. It says whether that
// accepted it.
fn give_job<R: Wait>(
    rt: &R,
    board: &SharedBoard<Job>,
    caller: &mut BoardCaller,
    line: u32,
    live: &Transform,
    job: Job,
    backlog: bool,
    answers: &mut Vec<Answer>,
) -> Result<bool, Stop>
    requires at { CallsBoard board.now caller.old }
    requires legal { LegalBoard (known caller.old).seen }
    requires pipe { HasShared (known caller.old) live.now.pipe }
    ensures lock { lock_of caller.new ≡ lock_of caller.old }
    ensures held { MatchResult result
        (λ accepted. GivesFor (λ script_state. requests_in script_state line live.now (asked_by (arc_value job.ask)) backlog live.now.pipe)
        live.now (known caller.old) (known caller.new) (asks_if accepted (arc_value job.ask)) answers.old.items answers.new.items)
        (λ _. StopsGiving (λ script_state. requests_in script_state line live.now (asked_by (arc_value job.ask)) backlog live.now.pipe)
        live.now (known caller.old) (known caller.new)) }
    ensures allowed { IfOk result (λ accepted. IsTrue accepted
        → IsAllowed ask_size (known caller.old).seen (known caller.old).number (arc_value job.ask)) }
{
    let Some(pipe) = live.pipe() else {
        say(answers, value_answer(line, job.run()))?;
        return Ok(false);
    };
    if pipe.mask_is_empty {
        answer_errno(answers, line, Errno::EINVAL)?;
        return Ok(false);
    }
    match offer_shared(rt, board, caller, pipe, job, backlog) {
        Ok(Entered::InProgress(_)) => {
            answer_errno(answers, line, Errno::EINPROGRESS)?;
            Ok(true)
        }
        Ok(Entered::Busy(_)) => {
            answer_errno(answers, line, Errno::EBUSY)?;
            Ok(true)
        }
        Ok(Entered::NoSpace) => {
            answer_errno(answers, line, Errno::ENOSPC)?;
            Ok(false)
        }
        Err(BoardErr::TooBig) => {
            answer_errno(answers, line, Errno::E2BIG)?;
            Ok(false)
        }
        Err(BoardErr::Memory) => Err(Stop::Memory),
        // Some worker may take from it.
        Err(BoardErr::NoWorker) => unreachable!(),
    }
}

impl Session {
    // A request of a label that no transform of the script's own has.
    pub(crate) fn request_shared<R: Wait>(
        &mut self,
        rt: &R,
        board: &SharedBoard<Job>,
        number: u32,
        label: &Bytes,
        asked: Request,
        backlog: bool,
        answers: &mut Vec<Answer>,
    ) -> Result<(), Stop>
        requires at { CallsBoard board.now self.old.board }
        requires state { StateMatches self.old }
        requires shared { AreShared self.old.script_state.shared (known self.old.board) }
        requires none { live_of self.old.script_state label.now ≡ None }
        requires aad { length asked.aad < 2 ^ 32 }
        requires text { length asked.text.text < 2 ^ 32 }
        ensures { MatchResult result
            (λ _. Performs (request self.old.script_state number label.now asked backlog)
            self.old self.new answers.old.items answers.new.items)
            (λ _. StopsIn (request self.old.script_state number label.now asked backlog) self.old self.new) }
    {
        let Some(live) = find_shared(&self.shared, label.as_slice()) else {
            return answer_errno(answers, number, Errno::ENOENT);
        };
        let job = match live.job(self.alloc, self.client, number, asked) {
            Ok(Some(job)) => job,
            Ok(None) => return answer_errno(answers, number, Errno::ENOKEY),
            Err(TfmErr::Inval) => return answer_errno(answers, number, Errno::EINVAL),
            Err(TfmErr::Memory) => return Err(Stop::Memory),
        };
        let size = job.size();
        let accepted = give_job(
            rt,
            board,
            &mut self.board,
            number,
            live,
            job,
            backlog,
            answers,
        )?;
        self.count(accepted, size);
        Ok(())
    }
}
