//! The lines that set something of a transform: its key, its tag size, its pad's mask, and whether its queue is held.

ghost use Rattle.std.specs.Prelude.{◌≡◌, ◌≤◌, ◌∷◌, [], OnOk, MatchResult};
ghost use Rattle.board.specs.declared.entry.BoardEntry.{BoardEntry};
ghost use Rattle.board.specs.Legal.{LegalBoard};
ghost use Rattle.transforms.specs.declared.ask.Ask.{Ask};
ghost use Rattle.turn_lock.specs.Turns.{Known};
ghost use Rattle.dialogues.specs.AllocAndFree.{lists_beside};
ghost use Rattle.dialogues.specs.PipelineCommands.{kept_bits, mask};
ghost use Rattle.dialogues.specs.RequestCommands.{set_key, set_tag_size};
ghost use Rattle.recorded_calls.specs.Passes.{known, lock_of, CallsBoard};
ghost use Rattle.recorded_calls.specs.Pipelines.{KnowsPipe, Unchanged, IsQueue, Changed};
ghost use Rattle.script_session.specs.TransformChanges.{PerformsFor, StopsFor};
ghost use Rattle.script_session.specs.PerformedDialogue.{Performs, StopsIn};
ghost use Rattle.script_session.specs.Settings.{sets, holds_or_goes, hold_call};
ghost use Rattle.script_session.specs.States.{HasPipe, MadeWide, PadsHaveAListPerWorker, StateMatches};

use crate::answers::{answer_errno, say};
use crate::pipeline_requests::lists_beside_workers;
use crate::scripts::Session;
use crate::transform::Transform;
use board::BoardErr;
use kc_base::{Bytes, Errno};
use recorded_calls::{BoardCaller, PipelineView, Stop};
use reply_text::Answer;
use shared_board::SharedBoard;
use std::alloc::Global;
use std::sync::Wait;
use transforms::{Job, TfmErr};

/// What a line sets of a transform.
#[derive(Drop)]
pub enum Setting {
    Key(Bytes),
    TagSize(u32),
    /// Which workers may take from its pad.
    Mask(u16),
    /// Whether its queue is held.
    Held(bool),
}

// `key T HEX` of a transform.
fn key_live(
    alloc: Global,
    line: u32,
    live: &mut Transform,
    key: &[u8],
    answers: &mut Vec<Answer>,
) -> Result<(), Stop>
    ensures named { live.new.label ≡ live.old.label }
    ensures held { OnOk result ((k : Known (BoardEntry Ask)) → HasPipe k live.old.pipe → LegalBoard k.seen
        → PerformsFor (λ script_state. set_key script_state line live.old.label key.now)
        live.old live.new k k [] answers.old.items answers.new.items) }
{
    match live.set_key(alloc, key) {
        Ok(()) => say(answers, Answer::Ok { line }),
        Err(TfmErr::Inval) => answer_errno(answers, line, Errno::EINVAL),
        Err(TfmErr::Memory) => Err(Stop::Memory),
    }
}

// `authsize T NUM` of a transform.
fn size_live(
    line: u32,
    live: &mut Transform,
    size: u32,
    answers: &mut Vec<Answer>,
) -> Result<(), Stop>
    ensures named { live.new.label ≡ live.old.label }
    ensures held { OnOk result ((k : Known (BoardEntry Ask)) → HasPipe k live.old.pipe → LegalBoard k.seen
        → PerformsFor (λ script_state. set_tag_size script_state line live.old.label size)
        live.old live.new k k [] answers.old.items answers.new.items) }
{
    match live.set_tag_size(size) {
        Ok(()) => say(answers, Answer::Ok { line }),
        Err(errno) => answer_errno(answers, line, errno),
    }
}

// The bits of the workers that there are.
fn bits_beside_workers(workers: u32, bits: u16) -> u16
    requires few { workers ≤ 16 }
    ensures { result ≡ kept_bits workers bits }
{
    (u32::from(bits) % (1u32 << lists_beside_workers(workers))) as u16
}

// `mask T MASK` of a transform, beside so many workers. Only a pad is masked.
fn mask_live<R: Wait>(
    rt: &R,
    board: &SharedBoard<Job>,
    caller: &mut BoardCaller,
    workers: u32,
    line: u32,
    bits: u16,
    live: &mut Transform,
    answers: &mut Vec<Answer>,
) -> Result<(), Stop>
    requires at { CallsBoard board.now caller.old }
    requires legal { LegalBoard (known caller.old).seen }
    requires pipe { HasPipe (known caller.old) live.old.pipe }
    requires few { workers ≤ 16 }
    requires wide { MadeWide (lists_beside workers) (known caller.old) }
    ensures named { live.new.label ≡ live.old.label }
    ensures lock { lock_of caller.new ≡ lock_of caller.old }
    ensures held { MatchResult result
        (λ _. PerformsFor (λ script_state. mask workers script_state line live.old.label bits)
        live.old live.new (known caller.old) (known caller.new) [] answers.old.items answers.new.items)
        (λ _. StopsFor (λ script_state. mask workers script_state line live.old.label bits)
        live.old (known caller.old) (known caller.new)) }
{
    let Some(pipe) = live.pipe() else {
        return answer_errno(answers, line, Errno::EINVAL);
    };
    if pipe.bound.is_some() {
        return answer_errno(answers, line, Errno::EINVAL);
    }
    let kept = bits_beside_workers(workers, bits);
    caller.mask(rt, board, pipe, kept)?;
    say(answers, Answer::Ok { line })?;
    live.set_mask_is_empty(kept == 0);
    Ok(())
}

// Performs a queue, or lets it go.
fn hold_pipe<R: Wait>(
    rt: &R,
    board: &SharedBoard<Job>,
    caller: &mut BoardCaller,
    pipe: &PipelineView,
    held: bool,
) -> Result<(), BoardErr>
    requires at { CallsBoard board.now caller.old }
    requires pipe { KnowsPipe (known caller.old) pipe.now }
    requires queue { IsQueue pipe.now.bound }
    ensures lock { lock_of caller.new ≡ lock_of caller.old }
    ensures changed { MatchResult result
        (λ _. Changed (known caller.old) (known caller.new) pipe.now (record (pipe.now) { held = held })
        (hold_call held pipe.now.number ∷ []) [])
        (λ _. Unchanged (known caller.old) (known caller.new)) }
{
    if held {
        caller.hold(rt, board, pipe)
    } else {
        caller.go(rt, board, pipe)
    }
}

// `hold T` or `go T` of a transform. Only a queue is held and let go.
fn hold_live<R: Wait>(
    rt: &R,
    board: &SharedBoard<Job>,
    caller: &mut BoardCaller,
    line: u32,
    held: bool,
    live: &mut Transform,
    answers: &mut Vec<Answer>,
) -> Result<(), Stop>
    requires at { CallsBoard board.now caller.old }
    requires legal { LegalBoard (known caller.old).seen }
    requires pipe { HasPipe (known caller.old) live.old.pipe }
    ensures named { live.new.label ≡ live.old.label }
    ensures lock { lock_of caller.new ≡ lock_of caller.old }
    ensures held { MatchResult result
        (λ _. PerformsFor (λ script_state. holds_or_goes script_state line live.old.label held)
        live.old live.new (known caller.old) (known caller.new) [] answers.old.items answers.new.items)
        (λ _. StopsFor (λ script_state. holds_or_goes script_state line live.old.label held)
        live.old (known caller.old) (known caller.new)) }
{
    let Some(pipe) = live.pipe() else {
        return answer_errno(answers, line, Errno::EINVAL);
    };
    if pipe.bound.is_none() {
        return answer_errno(answers, line, Errno::EINVAL);
    }
    hold_pipe(rt, board, caller, pipe, held)?;
    say(answers, Answer::Ok { line })?;
    live.set_held(held);
    Ok(())
}

// What a line sets of a transform, beside so many workers.
fn set_live<R: Wait>(
    rt: &R,
    alloc: Global,
    board: &SharedBoard<Job>,
    caller: &mut BoardCaller,
    workers: u32,
    line: u32,
    setting: Setting,
    live: &mut Transform,
    answers: &mut Vec<Answer>,
) -> Result<(), Stop>
    requires at { CallsBoard board.now caller.old }
    requires legal { LegalBoard (known caller.old).seen }
    requires pipe { HasPipe (known caller.old) live.old.pipe }
    requires few { workers ≤ 16 }
    requires wide { MadeWide (lists_beside workers) (known caller.old) }
    ensures named { live.new.label ≡ live.old.label }
    ensures lock { lock_of caller.new ≡ lock_of caller.old }
    ensures held { MatchResult result
        (λ _. PerformsFor (λ script_state. sets workers script_state line live.old.label setting)
        live.old live.new (known caller.old) (known caller.new) [] answers.old.items answers.new.items)
        (λ _. StopsFor (λ script_state. sets workers script_state line live.old.label setting)
        live.old (known caller.old) (known caller.new)) }
{
    match setting {
        Setting::Key(key) => key_live(alloc, line, live, key.as_slice(), answers),
        Setting::TagSize(size) => size_live(line, live, size, answers),
        Setting::Mask(bits) => mask_live(rt, board, caller, workers, line, bits, live, answers),
        Setting::Held(held) => hold_live(rt, board, caller, line, held, live, answers),
    }
}

impl Session {
    // `key T HEX`, `authsize T NUM`, `mask T MASK`, `hold T` and `go T`
    pub(crate) fn set<R: Wait>(
        &mut self,
        rt: &R,
        board: &SharedBoard<Job>,
        number: u32,
        label: &Bytes,
        setting: Setting,
        answers: &mut Vec<Answer>,
    ) -> Result<(), Stop>
        requires at { CallsBoard board.now self.old.board }
        requires state { StateMatches self.old }
        requires few { self.old.workers ≤ 16 }
        requires wide { PadsHaveAListPerWorker self.old }
        ensures { MatchResult result
            (λ _. Performs (sets self.old.workers self.old.script_state number label.now setting)
            self.old self.new answers.old.items answers.new.items)
            (λ _. StopsIn (sets self.old.workers self.old.script_state number label.now setting) self.old self.new) }
    {
        let Some(place) = self.lives.place_of(label.as_slice()) else {
            let errno = self.missing(label.as_slice());
            return answer_errno(answers, number, errno);
        };
        let live = self.lives.transforms.get_mut(&place).unwrap();
        set_live(
            rt,
            self.alloc,
            board,
            &mut self.board,
            self.workers,
            number,
            setting,
            live,
            answers,
        )
    }
}
