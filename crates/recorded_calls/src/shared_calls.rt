//! A script's calls on pipelines that are shared, and how its pass is lent to others.

ghost use Rattle.std.specs.Prelude.{◌≡◌, ◌≢◌, ◌↔◌, ◌<◌, ◌≤◌, ◌+◌, ◌^◌, ◌++◌, ◌∷◌, [], true, false, List, length, map, IfOk, IsOk, IfErr, MatchResult};
ghost use Rattle.std.specs.Arc.{arc_value};
ghost use Rattle.kc_base.specs.declared.callback_list.Callback.{Callback as Told};
ghost use Rattle.board.specs.declared.board_core.BoardErr.TheVariants as BoardErr;
ghost use Rattle.board.specs.declared.entry.BoardEntry.{BoardEntry};
ghost use Rattle.board.specs.Allowance.{IsAllowed};
ghost use Rattle.board.specs.Alone.{PeersGone};
ghost use Rattle.board.specs.Entries.{caller_of};
ghost use Rattle.board.specs.HandedOut.{completions};
ghost use Rattle.board.specs.Legal.{LegalBoard};
ghost use Rattle.turn_lock.specs.PassLaws.{AtTurn, Leaves, IsOwn};
ghost use Rattle.turn_lock.specs.Passes.{knows};
ghost use Rattle.turn_lock.specs.Turns.{Known, gives_number, gets_number, joined, StartsWith};
ghost use Rattle.transforms.specs.AskValue.{ask_size};
ghost use Rattle.transforms.specs.declared.ask.Ask.{Ask as Asked};
ghost use Rattle.transforms.specs.declared.request.Finished.{Finished as Outcome};
ghost use Rattle.dialogues.specs.BoardCalls.{Submits, Enqueues, Goes, asked_by, origin_of};
ghost use Rattle.dialogues.specs.ScriptState.{PipelineState as KnownPipe};
ghost use Rattle.shared_board.specs.Passes.{IsPassOn};
ghost use Rattle.recorded_calls.specs.Passes.{CallsBoard, known, lock_of};
ghost use Rattle.recorded_calls.specs.Pipelines.{IsPad, IsQueue, KnowsPipe, Unchanged, entered_asks};
ghost use Rattle.recorded_calls.specs.SharedCalls.{SharingLaws, KnowsShared, Gave, KnowsLent, Lends, KnowsGathered, Rejoined, HaveEnded, Rejoins, Beside, Gathers, DrainedLent, SharedStaysKnown, LentIsShared, GatheredHandsAll};

use crate::board_caller::{BoardCaller, board_laws};
use crate::pipe::{PipelineView, RequestLines};
use board::{
    BoardErr, Entered, completions_in_order, entries_leave, shared_pipelines_stay,
    workers_are_left, workers_finish,
};
use crew::{Gate, drain};
use kc_base::Callbacks;
use reply_text::Origin;
use shared_board::{BoardPass, SharedBoard};
use std::alloc::{AllocError, Global};
use std::sync::{Arc, Wait};
use transforms::{Ask, Finished, Job};

/// What the board's laws say of what is shared, and of what workers alone leave.
pub fn sharing_laws()
    ensures { SharingLaws }
{
    board_laws();
    shared_pipelines_stay::<Ask>();
    entries_leave::<Ask>();
    workers_are_left::<Ask>();
    workers_finish::<Ask>();
}

/// A pipeline that is shared stays so whoever goes on, and whose pass was split off its maker's knows that it is.
pub fn shared_is_known()
    ensures stays { (k l : Known (BoardEntry Asked)) (pipe : KnownPipe) → SharedStaysKnown k l pipe }
    ensures lent { (k l : Known (BoardEntry Asked)) (pipe : KnownPipe) → LentIsShared k l pipe }
{
    sharing_laws();
}

/// A pipeline that the caller shares, and that has handed out as many completions as it accepted requests, has handed
/// out those of all, in order, each once.
pub fn gathered_hand_out_all()
    ensures { (k : Known (BoardEntry Asked)) (pipe : KnownPipe) → GatheredHandsAll k pipe }
{
    completions_in_order::<Ask>();
}

// Of which line of which client's script an ask is.
fn line_of(ask: &Ask) -> Origin
    ensures { result ≡ origin_of ask.now }
{
    Origin {
        client: ask.client,
        line: ask.line,
    }
}

// The lines of these asks.
fn lines_of(alloc: Global, asks: &[Arc<Ask, Global>]) -> Result<RequestLines, AllocError>
    ensures { IfOk result (λ lines. lines ≡ map origin_of (map arc_value asks.now)) }
{
    let mut lines = RequestLines::new(alloc);
    for ask in asks {
        lines.push(line_of(ask))?;
    }
    Ok(lines)
}

// The lines of what a pipeline accepted, where that could be read.
fn lines_read(
    alloc: Global,
    asks: Result<Vec<Arc<Ask, Global>>, AllocError>,
) -> Result<RequestLines, BoardErr>
    ensures { MatchResult result
        (λ lines. IsOk asks × IfOk asks (λ asks. lines ≡ map origin_of (map arc_value asks.items)))
        (λ e. e ≡ BoardErr.Memory) }
{
    let asks = asks?;
    let lines = lines_of(alloc, asks.as_slice())?;
    Ok(lines)
}

impl BoardCaller {
    /// Lets others submit to a pipeline of the caller's. Only want of memory refuses.
    pub fn share<R: Wait>(
        &mut self,
        rt: &R,
        board: &SharedBoard<Job>,
        pipe: &PipelineView,
    ) -> Result<(), BoardErr>
        requires at { CallsBoard board.now self.old }
        requires pipe { KnowsPipe (known self.old) pipe.now }
        ensures lock { lock_of self.new ≡ lock_of self.old }
        ensures shared { MatchResult result
            (λ _. Lends (known self.old) (known self.new) pipe.now)
            (λ e. (e ≡ BoardErr.Memory) × Unchanged (known self.old) (known self.new)) }
    {
        sharing_laws();
        let pass = self.take_pass();
        let (pass, answer) = board.share(rt, pass, pipe.number);
        self.pass = Some(pass);
        answer
    }

    /// Hands a job in to a pad that is shared, as `submit` does to one of the caller's.
    pub fn submit_shared<R: Wait>(
        &mut self,
        rt: &R,
        board: &SharedBoard<Job>,
        pipe: &PipelineView,
        job: Job,
    ) -> Result<u64, BoardErr>
        requires at { CallsBoard board.now self.old }
        requires pipe { KnowsShared (known self.old) pipe.now }
        requires pad { IsPad pipe.now.bound }
        requires manned { pipe.now.mask_is_empty ≡ false }
        ensures lock { lock_of self.new ≡ lock_of self.old }
        ensures submitted { MatchResult result
            (λ number. Gave (known self.old) (known self.new)
            (Submits pipe.now.number number (asked_by (arc_value job.ask)) ∷ []) (arc_value job.ask ∷ []))
            (λ _. Unchanged (known self.old) (known self.new)) }
        ensures allowed { MatchResult result
            (λ _. IsAllowed ask_size (known self.old).seen (known self.old).number (arc_value job.ask))
            (λ e. (e ≡ BoardErr.TooBig) ↔ (IsAllowed ask_size (known self.old).seen (known self.old).number (arc_value job.ask) → ⊥)) }
        ensures served { IfErr result (λ e. e ≢ BoardErr.NoWorker) }
    {
        sharing_laws();
        let pass = self.take_pass();
        let (pass, answer) = board.submit(rt, pass, pipe.number, job);
        self.pass = Some(pass);
        answer
    }

    /// Hands a job in to a queue or a chain that is shared, as `enqueue` does to one of the caller's.
    pub fn enqueue_shared<R: Wait>(
        &mut self,
        rt: &R,
        board: &SharedBoard<Job>,
        pipe: &PipelineView,
        job: Job,
        backlog: bool,
    ) -> Result<Entered, BoardErr>
        requires at { CallsBoard board.now self.old }
        requires pipe { KnowsShared (known self.old) pipe.now }
        requires queue { IsQueue pipe.now.bound }
        ensures lock { lock_of self.new ≡ lock_of self.old }
        ensures entered { MatchResult result
            (λ answer. Gave (known self.old) (known self.new)
            (Enqueues pipe.now.number (asked_by (arc_value job.ask)) backlog answer ∷ []) (entered_asks (arc_value job.ask) answer))
            (λ _. Unchanged (known self.old) (known self.new)) }
        ensures allowed { MatchResult result
            (λ _. IsAllowed ask_size (known self.old).seen (known self.old).number (arc_value job.ask))
            (λ e. (e ≡ BoardErr.TooBig) ↔ (IsAllowed ask_size (known self.old).seen (known self.old).number (arc_value job.ask) → ⊥)) }
        ensures served { IfErr result (λ e. e ≢ BoardErr.NoWorker) }
    {
        sharing_laws();
        let pass = self.take_pass();
        let (pass, answer) = board.enqueue(rt, pass, pipe.number, job, backlog);
        self.pass = Some(pass);
        answer
    }

    /// A pass of this number, split off from the caller's, which has seen as much. No turn is taken.
    pub fn split(&mut self, board: &SharedBoard<Job>, number: u32) -> BoardPass<Job>
        requires at { CallsBoard board.now self.old }
        requires number { ((known self.old).next ≤ number) × (number + 1 < 2 ^ 32) }
        ensures lock { lock_of self.new ≡ lock_of self.old }
        ensures other { IsPassOn board.now result }
        ensures gives { known self.new ≡ gives_number number (known self.old) }
        ensures gets { knows result ≡ gets_number number (known self.old) }
    {
        let pass = self.take_pass();
        let (own, other) = board.split(pass, number);
        self.pass = Some(own);
        other
    }

    /// Joins a pass into the caller's. No turn is taken.
    pub fn join(&mut self, board: &SharedBoard<Job>, other: BoardPass<Job>)
        requires at { CallsBoard board.now self.old }
        requires other { IsPassOn board.now other }
        ensures lock { lock_of self.new ≡ lock_of self.old }
        ensures joined { known self.new ≡ joined (known self.old) (knows other) }
        ensures seen { StartsWith (known self.new).seen (known self.old).seen × StartsWith (known self.new).seen (knows other).seen }
    {
        let pass = self.take_pass();
        self.pass = Some(board.join(pass, other));
    }

    /// Takes a turn at which nothing is done: the caller has then seen all that happened. Where others were joined into
    /// its pass, it knows again what it knew before (`again`), and that they have ended (`gone`).
    pub fn meet<R: Wait>(&mut self, rt: &R, board: &SharedBoard<Job>)
        requires at { CallsBoard board.now self.old }
        ensures lock { lock_of self.new ≡ lock_of self.old }
        ensures turn { AtTurn caller_of LegalBoard (known self.old) (λ h. Leaves (known self.old) h (known self.new)) }
        ensures kept { Unchanged (known self.old) (known self.new) }
        ensures lent { (pipe : KnownPipe) → KnowsLent (known self.old) pipe → KnowsLent (known self.new) pipe }
        ensures own { IsOwn caller_of (known self.new) }
        ensures again { (k : Known (BoardEntry Asked)) → IsOwn caller_of k → Rejoined k (known self.old) → Rejoins k (known self.new) }
        ensures gone { HaveEnded (known self.old) → PeersGone (known self.new) }
    {
        sharing_laws();
        let pass = self.take_pass();
        let (pass, _) = board.is_shut(rt, pass);
        self.pass = Some(pass);
    }

    /// Learns what a pipeline accepted that the caller shares, once all others have ended but the workers: whose lines
    /// its requests are. Only want of memory refuses, and leaves the pipeline as the caller knew it.
    pub fn gather<R: Wait>(
        &mut self,
        rt: &R,
        alloc: Global,
        board: &SharedBoard<Job>,
        pipe: &mut PipelineView,
    ) -> Result<(), BoardErr>
        requires at { CallsBoard board.now self.old }
        requires gone { PeersGone (known self.old) }
        requires pipe { KnowsLent (known self.old) pipe.old }
        ensures lock { lock_of self.new ≡ lock_of self.old }
        ensures beside { Beside (known self.old) (known self.new) }
        ensures gathered { MatchResult result
            (λ _. (pipe.new ≡ record (pipe.old) { lines = pipe.new.lines }) × KnowsGathered (known self.new) pipe.new)
            (λ e. (e ≡ BoardErr.Memory) × (pipe.new ≡ pipe.old)) }
    {
        sharing_laws();
        let pass = self.take_pass();
        let (pass, asks) = board.asks(rt, pass, pipe.number);
        self.pass = Some(pass);
        let lines = lines_read(alloc, asks)?;
        pipe.lines = lines;
        Ok(())
    }

    /// The requests of a queue that the caller shares are run again, and those of a chain go on, once all others have
    /// ended but the workers. Only want of memory refuses.
    pub fn go_gathered<R: Wait>(
        &mut self,
        rt: &R,
        board: &SharedBoard<Job>,
        pipe: &PipelineView,
    ) -> Result<(), BoardErr>
        requires at { CallsBoard board.now self.old }
        requires gone { PeersGone (known self.old) }
        requires pipe { KnowsLent (known self.old) pipe.now }
        requires queue { IsQueue pipe.now.bound }
        ensures lock { lock_of self.new ≡ lock_of self.old }
        ensures held { MatchResult result
            (λ _. Gathers (known self.old) (known self.new) pipe.now (record (pipe.now) { held = false }) (Goes pipe.now.number ∷ []))
            (λ e. (e ≡ BoardErr.Memory) × Beside (known self.old) (known self.new)) }
    {
        sharing_laws();
        let pass = self.take_pass();
        let (pass, answer) = board.go(rt, pass, pipe.number);
        self.pass = Some(pass);
        answer
    }

    /// Drains a pipeline that the caller shares, as `drain` does one of its own, once all others have ended but the
    /// workers, and the caller has learnt what it accepted (`gather`). Only want of memory refuses, and hands out
    /// nothing.
    pub fn drain_gathered<R: Wait, G: Gate>(
        &mut self,
        rt: &R,
        board: &SharedBoard<Job>,
        gate: &G,
        pipe: &PipelineView,
        into: &mut Callbacks<Finished>,
    ) -> Result<(), BoardErr>
        requires at { CallsBoard board.now self.old }
        requires legal { LegalBoard (known self.old).seen }
        requires gone { PeersGone (known self.old) }
        requires pipe { KnowsGathered (known self.old) pipe.now }
        ensures lock { lock_of self.new ≡ lock_of self.old }
        ensures drained { MatchResult result
            (λ _. (callbacks : List (Told Outcome)) × (into.new.list ≡ into.old.list ++ callbacks)
            × DrainedLent (known self.old) (known self.new) pipe.now callbacks
            × (pipe.now.delivered + completions callbacks ≡ length pipe.now.lines))
            (λ e. (e ≡ BoardErr.Memory) × (into.new.list ≡ into.old.list) × Unchanged (known self.old) (known self.new)
            × ((known self.new).ended ≡ (known self.old).ended)) }
    {
        sharing_laws();
        let pass = self.take_pass();
        let (pass, answer) = drain(rt, board, pass, pipe.number, into, gate);
        self.pass = Some(pass);
        answer
    }
}
