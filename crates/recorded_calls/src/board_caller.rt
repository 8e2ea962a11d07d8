//! A script's calls on the board.

ghost use Rattle.std.specs.Prelude.{◌≡◌, ◌≢◌, ◌↔◌, ◌<◌, ◌≤◌, ◌==◌, ◌+◌, ◌^◌, ◌++◌, ◌∷◌, [], true, false, Bool, List, length, Some, IsSome, IfErr, MatchResult};
ghost use Rattle.std.specs.Arc.{arc_value};
ghost use Rattle.kc_base.specs.declared.callback_list.Callback.{Callback as Told};
ghost use Rattle.board.specs.Allowance.{IsAllowed, accepted_by};
ghost use Rattle.board.specs.Alone.{PeersGone};
ghost use Rattle.board.specs.Entries.{entries_of, birth};
ghost use Rattle.board.specs.HandedOut.{completions};
ghost use Rattle.board.specs.Legal.{IsNoWorker, LegalBoard, is_shut};
ghost use Rattle.board.specs.declared.board_core.BoardErr.TheVariants as BoardErr;
ghost use Rattle.board.specs.declared.entry.Shape.TheVariants.{Pad as PadOf, Queue as QueueOf, Chain as ChainOf};
ghost use Rattle.board.specs.Shapes.{width_born};
ghost use Rattle.transforms.specs.AskValue.{ask_size};
ghost use Rattle.transforms.specs.declared.request.Finished.{Finished as Outcome};
ghost use Rattle.dialogues.specs.BoardCalls.{Submits, Enqueues, Holds, Goes, Masks, asked_by};
ghost use Rattle.dialogues.specs.ScriptState.{PipelineState as KnownPipe};
ghost use Rattle.recorded_calls.specs.Bounds.{AreWithin};
ghost use Rattle.recorded_calls.specs.Passes.{CallsBoard, known, lock_of};
ghost use Rattle.recorded_calls.specs.Pipelines.{Laws, Steps, IsPad, IsQueue, KnowsPipe, Unchanged, Changed, Closed, IsShut, Opened, with_ask, entered_pipe, entered_asks, Drained, Polled};
ghost use Rattle.recorded_calls.specs.SharedCalls.{KnowsGathered};

use crate::pipe::PipelineView;
use crate::shared_calls::sharing_laws;
use board::{
    BoardErr, Entered, collects_hand_out, collects_hand_out_all, completions_in_order,
    entries_join, entries_leave, fronts_tell_all, histories_go_on, masks_stay, numbers_in_order,
    only_collects_hand_out, others_leave, pipelines_stay, queues_hold,
};
use crew::{Gate, drain};
use dialogues::board_calls_go_on;
use kc_base::Callbacks;
use shared_board::{BoardPass, SharedBoard};
use std::marker::Model;
use std::sync::Wait;
use transforms::laws::values_are_short;
use transforms::{Ask, Finished, Job};

/// Who calls the board for a script. Its pass is at hand between two calls; contracts see it.
#[derive(Drop)]
pub struct BoardCaller {
    pub(crate) pass: Option<BoardPass<Job>>,
}

impl Model for BoardCaller {
    ghost use Rattle.std.specs.Prelude.{Option};
    ghost use Rattle.recorded_calls.specs.Passes.{BoardPass};

    ghost Value = { Option BoardPass };

    ghost view = { λ c. c.pass };
}

// what an entry of a caller's own is to what it knows
fn entry_laws()
    ensures { Steps }
{
    histories_go_on::<Ask>();
    entries_join::<Ask>();
    entries_leave::<Ask>();
    pipelines_stay::<Ask>();
    queues_hold::<Ask>();
    masks_stay::<Ask>();
    only_collects_hand_out::<Ask>();
    collects_hand_out::<Ask, Finished>();
    collects_hand_out_all::<Ask>();
    fronts_tell_all::<Ask>();
    completions_in_order::<Ask>();
    numbers_in_order::<Ask>();
}

// what others leave of what a caller knows of the board, what it does itself, and that values are short
pub(crate) fn board_laws()
    ensures { Laws }
{
    others_leave::<Ask, Finished>();
    board_calls_go_on();
    entry_laws();
    values_are_short();
}

impl BoardCaller {
    /// A caller with this pass.
    pub fn new(pass: BoardPass<Job>) -> BoardCaller
        ensures { result ≡ Some pass }
    {
        BoardCaller { pass: Some(pass) }
    }

    /// The caller's pass.
    pub fn into_pass(self) -> BoardPass<Job>
        requires { IsSome self }
        ensures { self ≡ Some result }
    {
        self.pass.unwrap()
    }

    // Takes the caller's pass for a call, which gives one back.
    pub(crate) fn take_pass(&mut self) -> BoardPass<Job>
        requires { IsSome self.old }
        ensures { self.old ≡ Some result }
    {
        self.pass.take().unwrap()
    }

    /// Makes a pad of `lists` reorder lists, 1 to 16, and answers its number. Only want of memory refuses.
    pub fn born_pad<R: Wait>(
        &mut self,
        rt: &R,
        board: &SharedBoard<Job>,
        lists: u32,
    ) -> Result<u64, BoardErr>
        requires at { CallsBoard board.now self.old }
        requires caller { IsNoWorker (known self.old).number }
        requires some { 1 ≤ lists }
        requires lists { lists ≤ 16 }
        ensures lock { lock_of self.new ≡ lock_of self.old }
        ensures opened { MatchResult result
            (λ number. Opened (known self.old) (known self.new) number (PadOf lists))
            (λ e. (e ≡ BoardErr.Memory) × Unchanged (known self.old) (known self.new)) }
    {
        board_laws();
        let pass = self.take_pass();
        let (pass, answer) = board.born_pad(rt, pass, lists);
        self.pass = Some(pass);
        answer
    }

    /// Makes a queue in which so many requests may wait before it is full, at least 1, and answers its number. Only
    /// want of memory refuses.
    pub fn born_queue<R: Wait>(
        &mut self,
        rt: &R,
        board: &SharedBoard<Job>,
        max: u32,
    ) -> Result<u64, BoardErr>
        requires at { CallsBoard board.now self.old }
        requires caller { IsNoWorker (known self.old).number }
        requires max { 1 ≤ max }
        ensures lock { lock_of self.new ≡ lock_of self.old }
        ensures opened { MatchResult result
            (λ number. Opened (known self.old) (known self.new) number (QueueOf max))
            (λ e. (e ≡ BoardErr.Memory) × Unchanged (known self.old) (known self.new)) }
    {
        board_laws();
        let pass = self.take_pass();
        let (pass, answer) = board.born_queue(rt, pass, max);
        self.pass = Some(pass);
        answer
    }

    /// Makes a chain, and answers its number: a queue in which so many requests may wait before it is full, at least 1,
    /// and a pad of `lists` reorder lists, 1 to 16, to which they go on. Only want of memory refuses.
    pub fn born_chain<R: Wait>(
        &mut self,
        rt: &R,
        board: &SharedBoard<Job>,
        max: u32,
        lists: u32,
    ) -> Result<u64, BoardErr>
        requires at { CallsBoard board.now self.old }
        requires caller { IsNoWorker (known self.old).number }
        requires max { 1 ≤ max }
        requires some { 1 ≤ lists }
        requires lists { lists ≤ 16 }
        ensures lock { lock_of self.new ≡ lock_of self.old }
        ensures opened { MatchResult result
            (λ number. Opened (known self.old) (known self.new) number (ChainOf max lists))
            (λ e. (e ≡ BoardErr.Memory) × Unchanged (known self.old) (known self.new)) }
    {
        board_laws();
        let pass = self.take_pass();
        let (pass, answer) = board.born_chain(rt, pass, max, lists);
        self.pass = Some(pass);
        answer
    }

    /// Hands a job in to a pad of the caller's, from which some worker may take, and answers its number. `TooBig`
    /// exactly where the caller's allowance has no room for the job, otherwise `Memory`; `NoWorker` never. An error
    /// drops the job, and leaves the caller's pipelines as they were.
    pub fn submit<R: Wait>(
        &mut self,
        rt: &R,
        board: &SharedBoard<Job>,
        pipe: &PipelineView,
        job: Job,
    ) -> Result<u64, BoardErr>
        requires at { CallsBoard board.now self.old }
        requires pipe { KnowsPipe (known self.old) pipe.now }
        requires pad { IsPad pipe.now.bound }
        requires manned { pipe.now.mask_is_empty ≡ false }
        ensures lock { lock_of self.new ≡ lock_of self.old }
        ensures submitted { MatchResult result
            (λ number. Changed (known self.old) (known self.new) pipe.now (with_ask pipe.now (arc_value job.ask))
            (Submits pipe.now.number number (asked_by (arc_value job.ask)) ∷ []) (arc_value job.ask ∷ []))
            (λ _. Unchanged (known self.old) (known self.new)) }
        ensures allowed { MatchResult result
            (λ _. IsAllowed ask_size (known self.old).seen (known self.old).number (arc_value job.ask))
            (λ e. (e ≡ BoardErr.TooBig) ↔ (IsAllowed ask_size (known self.old).seen (known self.old).number (arc_value job.ask) → ⊥)) }
        ensures served { IfErr result (λ e. e ≢ BoardErr.NoWorker) }
    {
        board_laws();
        let pass = self.take_pass();
        let (pass, answer) = board.submit(rt, pass, pipe.number, job);
        self.pass = Some(pass);
        answer
    }

    /// Hands a job in to a queue or a chain of the caller's, and answers its verdict. `TooBig` exactly where the
    /// caller's allowance has no room for the job, otherwise `Memory`; `NoWorker` never. An error drops the job, and
    /// leaves the caller's pipelines as they were.
    pub fn enqueue<R: Wait>(
        &mut self,
        rt: &R,
        board: &SharedBoard<Job>,
        pipe: &PipelineView,
        job: Job,
        backlog: bool,
    ) -> Result<Entered, BoardErr>
        requires at { CallsBoard board.now self.old }
        requires pipe { KnowsPipe (known self.old) pipe.now }
        requires queue { IsQueue pipe.now.bound }
        ensures lock { lock_of self.new ≡ lock_of self.old }
        ensures entered { MatchResult result
            (λ answer. Changed (known self.old) (known self.new) pipe.now (entered_pipe pipe.now (arc_value job.ask) answer)
            (Enqueues pipe.now.number (asked_by (arc_value job.ask)) backlog answer ∷ []) (entered_asks (arc_value job.ask) answer))
            (λ _. Unchanged (known self.old) (known self.new)) }
        ensures allowed { MatchResult result
            (λ _. IsAllowed ask_size (known self.old).seen (known self.old).number (arc_value job.ask))
            (λ e. (e ≡ BoardErr.TooBig) ↔ (IsAllowed ask_size (known self.old).seen (known self.old).number (arc_value job.ask) → ⊥)) }
        ensures served { IfErr result (λ e. e ≢ BoardErr.NoWorker) }
    {
        board_laws();
        let pass = self.take_pass();
        let (pass, answer) = board.enqueue(rt, pass, pipe.number, job, backlog);
        self.pass = Some(pass);
        answer
    }

    /// Closes a pipeline of the caller's, of which all is handed out. No memory is taken.
    pub fn close<R: Wait>(&mut self, rt: &R, board: &SharedBoard<Job>, pipe: &PipelineView)
        requires at { CallsBoard board.now self.old }
        requires legal { LegalBoard (known self.old).seen }
        requires pipe { KnowsPipe (known self.old) pipe.now }
        requires done { pipe.now.delivered ≡ length pipe.now.lines }
        ensures lock { lock_of self.new ≡ lock_of self.old }
        ensures closed { Closed (known self.old) (known self.new) pipe.now }
    {
        board_laws();
        let pass = self.take_pass();
        self.pass = Some(board.close(rt, pass, pipe.number));
    }

    /// From now on the workers whose bits are set may take from a pad of the caller's, bit i for worker i + 1; no bit
    /// stands at or above the number of lists that it was made with. Only want of memory refuses.
    pub fn mask<R: Wait>(
        &mut self,
        rt: &R,
        board: &SharedBoard<Job>,
        pipe: &PipelineView,
        bits: u16,
    ) -> Result<(), BoardErr>
        requires at { CallsBoard board.now self.old }
        requires pipe { KnowsPipe (known self.old) pipe.now }
        requires pad { IsPad pipe.now.bound }
        requires bits { bits < 2 ^ width_born (birth (entries_of pipe.now.number (known self.old).seen)) }
        ensures lock { lock_of self.new ≡ lock_of self.old }
        ensures masked { MatchResult result
            (λ _. Changed (known self.old) (known self.new) pipe.now (record (pipe.now) { mask_is_empty = bits == 0 })
            (Masks pipe.now.number bits ∷ []) [])
            (λ e. (e ≡ BoardErr.Memory) × Unchanged (known self.old) (known self.new)) }
    {
        board_laws();
        let pass = self.take_pass();
        let (pass, answer) = board.mask(rt, pass, pipe.number, bits);
        self.pass = Some(pass);
        answer
    }

    /// From now on no request of a queue of the caller's is begun, and none of a chain goes on; what was begun, or has
    /// gone on, is done. Only want of memory refuses.
    pub fn hold<R: Wait>(
        &mut self,
        rt: &R,
        board: &SharedBoard<Job>,
        pipe: &PipelineView,
    ) -> Result<(), BoardErr>
        requires at { CallsBoard board.now self.old }
        requires pipe { KnowsPipe (known self.old) pipe.now }
        requires queue { IsQueue pipe.now.bound }
        ensures lock { lock_of self.new ≡ lock_of self.old }
        ensures held { MatchResult result
            (λ _. Changed (known self.old) (known self.new) pipe.now (record (pipe.now) { held = true }) (Holds pipe.now.number ∷ []) [])
            (λ e. (e ≡ BoardErr.Memory) × Unchanged (known self.old) (known self.new)) }
    {
        board_laws();
        let pass = self.take_pass();
        let (pass, answer) = board.hold(rt, pass, pipe.number);
        self.pass = Some(pass);
        answer
    }

    /// The requests of a queue of the caller's are run again, and those of a chain go on. Only want of memory refuses.
    pub fn go<R: Wait>(
        &mut self,
        rt: &R,
        board: &SharedBoard<Job>,
        pipe: &PipelineView,
    ) -> Result<(), BoardErr>
        requires at { CallsBoard board.now self.old }
        requires pipe { KnowsPipe (known self.old) pipe.now }
        requires queue { IsQueue pipe.now.bound }
        ensures lock { lock_of self.new ≡ lock_of self.old }
        ensures held { MatchResult result
            (λ _. Changed (known self.old) (known self.new) pipe.now (record (pipe.now) { held = false }) (Goes pipe.now.number ∷ []) [])
            (λ e. (e ≡ BoardErr.Memory) × Unchanged (known self.old) (known self.new)) }
    {
        board_laws();
        let pass = self.take_pass();
        let (pass, answer) = board.go(rt, pass, pipe.number);
        self.pass = Some(pass);
        answer
    }

    /// Hands out what a pipeline of the caller's has told and no call handed out before: at most a start and a
    /// completion of each of its requests, with at most 64 bytes more for each than was asked. Only want of memory
    /// refuses, and hands out nothing.
    pub fn poll<R: Wait>(
        &mut self,
        rt: &R,
        board: &SharedBoard<Job>,
        pipe: &PipelineView,
        into: &mut Callbacks<Finished>,
    ) -> Result<(), BoardErr>
        requires at { CallsBoard board.now self.old }
        requires pipe { KnowsPipe (known self.old) pipe.now }
        ensures lock { lock_of self.new ≡ lock_of self.old }
        ensures polled { MatchResult result
            (λ _. (callbacks : List (Told Outcome)) × (all : Bool) × (into.new.list ≡ into.old.list ++ callbacks)
            × Polled (known self.old) (known self.new) pipe.now callbacks all
            × AreWithin (length pipe.now.lines) (accepted_by (known self.old).number (known self.old).seen) callbacks)
            (λ e. (e ≡ BoardErr.Memory) × (into.new.list ≡ into.old.list) × Unchanged (known self.old) (known self.new)) }
    {
        board_laws();
        let pass = self.take_pass();
        let (pass, answer) = board.poll(rt, pass, pipe.number, into);
        self.pass = Some(pass);
        answer
    }

    /// Does what jobs there are until each of a pipeline of the caller's is done, and hands out what no call handed out
    /// before, as `poll` does: with it all is handed out. Only want of memory refuses, and hands out
    /// nothing.
    pub fn drain<R: Wait, G: Gate>(
        &mut self,
        rt: &R,
        board: &SharedBoard<Job>,
        gate: &G,
        pipe: &PipelineView,
        into: &mut Callbacks<Finished>,
    ) -> Result<(), BoardErr>
        requires at { CallsBoard board.now self.old }
        requires legal { LegalBoard (known self.old).seen }
        requires pipe { KnowsPipe (known self.old) pipe.now }
        ensures lock { lock_of self.new ≡ lock_of self.old }
        ensures drained { MatchResult result
            (λ _. (callbacks : List (Told Outcome)) × (into.new.list ≡ into.old.list ++ callbacks)
            × Drained (known self.old) (known self.new) pipe.now callbacks
            × (pipe.now.delivered + completions callbacks ≡ length pipe.now.lines)
            × AreWithin (length pipe.now.lines) (accepted_by (known self.old).number (known self.old).seen) callbacks)
            (λ e. (e ≡ BoardErr.Memory) × (into.new.list ≡ into.old.list) × Unchanged (known self.old) (known self.new)) }
    {
        board_laws();
        let pass = self.take_pass();
        let (pass, answer) = drain(rt, board, pass, pipe.number, into, gate);
        self.pass = Some(pass);
        answer
    }

    /// Shuts the board, which isn't shut yet, by the caller with the number 0. No memory is taken. What it knows of
    /// pipelines that it shares stays, where workers alone are left beside it.
    pub fn shut<R: Wait>(&mut self, rt: &R, board: &SharedBoard<Job>)
        requires at { CallsBoard board.now self.old }
        requires first { (known self.old).number ≡ 0 }
        requires once { is_shut (known self.old).seen ≡ false }
        ensures lock { lock_of self.new ≡ lock_of self.old }
        ensures shut { IsShut (known self.old) (known self.new) }
        ensures ended { (known self.new).ended ≡ (known self.old).ended }
        ensures gathered { PeersGone (known self.old) → (pipe : KnownPipe)
            → KnowsGathered (known self.old) pipe → KnowsGathered (known self.new) pipe }
    {
        sharing_laws();
        let pass = self.take_pass();
        self.pass = Some(board.shut(rt, pass));
    }
}
