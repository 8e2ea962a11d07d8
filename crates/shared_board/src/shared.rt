//! The board of many threads.

ghost use Rattle.std.specs.Prelude.{◌≡◌, ◌≢◌, ℕ, ◌+◌, ◌++◌, ◌<◌, ◌≤◌, ◌^◌, false, true, length, IfOk, ◌↔◌, MatchResult, MatchOption, MatchBool};
ghost use Rattle.std.specs.Result.{result_unwrap_or};
ghost use Rattle.turn_lock.specs.Passes.{knows, turn_lock, turn_knows, turn_value};
ghost use Rattle.turn_lock.specs.Turns.{fresh_pass, sees, gives_number, gets_number, joined, StartsWith, Shows};
ghost use Rattle.board.specs.declared.entry.Shape.TheVariants as Shaped;
ghost use Rattle.board.specs.declared.entry.BoardEntry.TheVariants as Entry;
ghost use Rattle.board.specs.declared.board_core.BoardErr.TheVariants as BoardErr;
ghost use Rattle.board.specs.Shapes.{is_chain, width_born};
ghost use Rattle.board.specs.Entries.{entries_of, birth, submissions, front, mask, told, collected, delivered, verdict, is_shared, finish_entry, pass_entry, NoneFor, NonePasses, caller_of};
ghost use Rattle.board.specs.Allowance.{IsAllowed};
ghost use Rattle.board.specs.Legal.{Is, IsNoWorker, MaySubmit, MayManage, MayFinish, IsOpenPad, IsOpenQueue, IsOpen, is_shut, LegalBoard};
ghost use Rattle.board.specs.PipelineHistory.{IsDrained};
ghost use Rattle.turn_lock.specs.PassLaws.{Meets, Leaves};
ghost use Rattle.shared_board.specs.Passes.{IsPassOn};
ghost use Rattle.shared_board.specs.Knowledge.{HoldsAt};
ghost use Rattle.shared_board.specs.Records.{AtBoard, Adds, AddsAsk, TakesJob, Collects, Records, RecordsNothing, RecordsUnlessMemory, Makes};

use crate::laws::known_holds;
use crate::looks::{Drowsy, EndWait, Look, SpinResult, Tired};
use crate::wakeups::Wakeups;
use board::{BoardCore, BoardEntry, BoardErr, BoardLog, Entered, Slip, Taken, Work};
use job_wakeups::WorkerWakeup;
use kc_base::Callbacks;
use std::alloc::{AllocError, Global};
use std::sync::Wait;
use turn_lock::{Pass, Turn, TurnLock};

/// What one caller knows of a board, and its right to take a turn on it.
pub type BoardPass<W> = Pass<BoardEntry<<W as Work>::Ask>>;

/// A board for many threads, each of which has a pass and takes its turn. A call that refuses records nothing.
#[derive(Drop)]
pub struct SharedBoard<W: Work> {
    lock: TurnLock<BoardCore<W>>,
    wakeups: Wakeups,
}

impl<W: Work> SharedBoard<W> {
    /// A board on which nothing happened, and its first pass, which has the number 0.
    pub fn new(alloc: Global) -> Result<(SharedBoard<W>, BoardPass<W>), AllocError>
        ensures { IfOk result (λ r. IsPassOn r.0 r.1 × (knows r.1 ≡ fresh_pass)) }
    {
        let board = BoardCore::new(alloc)?;
        let (lock, pass) = TurnLock::new(alloc, board)?;
        let wakeups = Wakeups::new(alloc)?;
        Ok((SharedBoard { lock, wakeups }, pass))
    }

    /// Waits for the pass's turn.
    pub(crate) fn turn<'a, R: Wait>(&'a self, rt: &R, pass: BoardPass<W>) -> Turn<'a, BoardCore<W>>
        requires { IsPassOn self.now pass }
        ensures lock { turn_lock result ≡ self.now.lock }
        ensures sees { turn_knows result ≡ sees (knows pass) (turn_value result) }
        ensures meets { Meets caller_of LegalBoard (knows pass) (turn_value result) }
        ensures holds { HoldsAt W.meaning (knows pass) (turn_value result) }
    {
        known_holds::<W::Ask, W::Out>();
        let mut turn = self.lock.take(rt, pass);
        turn.get().is_legal();
        turn
    }

    /// Two passes of one. The first keeps its number, and gives numbers above `number` from then on; the second has
    /// `number` and has seen as much. `number` is at least the pass's `next`, and below 2^32 - 1. No turn is taken.
    pub fn split(&self, pass: BoardPass<W>, number: u32) -> (BoardPass<W>, BoardPass<W>)
        requires lock { IsPassOn self.now pass }
        requires number { ((knows pass).next ≤ number) × (number + 1 < 2 ^ 32) }
        ensures lock { IsPassOn self.now result.0 × IsPassOn self.now result.1 }
        ensures first { knows result.0 ≡ gives_number number (knows pass) }
        ensures second { knows result.1 ≡ gets_number number (knows pass) }
    {
        self.lock.split(pass, number)
    }

    /// One pass of two, which has seen what both have seen. It has the number of the first, and keeps that of the
    /// second as ended.
    pub fn join(&self, a: BoardPass<W>, b: BoardPass<W>) -> BoardPass<W>
        requires { IsPassOn self.now a × IsPassOn self.now b }
        ensures lock { IsPassOn self.now result }
        ensures joined { knows result ≡ joined (knows a) (knows b) }
        ensures seen { StartsWith (knows result).seen (knows a).seen × StartsWith (knows result).seen (knows b).seen }
    {
        self.lock.join(a, b)
    }

    /// Makes a pad of `lists` reorder lists, 1 to 16, from which the workers 1 to `lists` may take, and answers its
    /// number. The caller is no worker. Only want of memory refuses. A job wakes at most one worker that sleeps, or
    /// none and is left to one that stays awake, whichever it is. Beside a worker of a number above `lists` each job of
    /// the board wakes all that sleep instead.
    pub fn born_pad<R: Wait>(
        &self,
        rt: &R,
        pass: BoardPass<W>,
        lists: u32,
    ) -> (BoardPass<W>, Result<u64, BoardErr>)
        requires lock { IsPassOn self.now pass }
        requires caller { IsNoWorker (knows pass).number }
        requires some { 1 ≤ lists }
        requires lists { lists ≤ 16 }
        ensures lock { IsPassOn self.now result.0 }
        ensures turn { Makes (knows pass) result.1 (Shaped.Pad lists) (knows result.0) }
    {
        self.wakeups.jobs().note_lists(lists);
        let caller = pass.number();
        let mut turn = self.turn(rt, pass);
        let answer = turn.get().born_pad(caller, lists);
        let added = answer.is_ok();
        (turn.give(added), answer)
    }

    /// Makes a queue of which so many requests wait before its backlog begins, at least 1, and answers its number. The
    /// caller is no worker. Only want of memory refuses.
    pub fn born_queue<R: Wait>(
        &self,
        rt: &R,
        pass: BoardPass<W>,
        max: u32,
    ) -> (BoardPass<W>, Result<u64, BoardErr>)
        requires lock { IsPassOn self.now pass }
        requires caller { IsNoWorker (knows pass).number }
        requires max { 1 ≤ max }
        ensures lock { IsPassOn self.now result.0 }
        ensures turn { Makes (knows pass) result.1 (Shaped.Queue max) (knows result.0) }
    {
        self.wakeups.jobs().note_queue();
        let caller = pass.number();
        let mut turn = self.turn(rt, pass);
        let answer = turn.get().born_queue(caller, max);
        let added = answer.is_ok();
        (turn.give(added), answer)
    }

    /// Makes a chain, and answers its number: a queue of which so many requests wait before its backlog begins, at
    /// least 1, and a pad of `lists` reorder lists, 1 to 16, to which they go on, and from which the workers 1 to
    /// `lists` may take. The caller is no worker. Only want of memory refuses. Workers are woken for what comes or goes
    /// on as for a pad's jobs (`born_pad`).
    pub fn born_chain<R: Wait>(
        &self,
        rt: &R,
        pass: BoardPass<W>,
        max: u32,
        lists: u32,
    ) -> (BoardPass<W>, Result<u64, BoardErr>)
        requires lock { IsPassOn self.now pass }
        requires caller { IsNoWorker (knows pass).number }
        requires max { 1 ≤ max }
        requires some { 1 ≤ lists }
        requires lists { lists ≤ 16 }
        ensures lock { IsPassOn self.now result.0 }
        ensures turn { Makes (knows pass) result.1 (Shaped.Chain max lists) (knows result.0) }
    {
        self.wakeups.note_chain(lists);
        let caller = pass.number();
        let mut turn = self.turn(rt, pass);
        let answer = turn.get().born_chain(caller, max, lists);
        let added = answer.is_ok();
        (turn.give(added), answer)
    }

    /// Lets others than the caller submit to a pipeline that it made, which isn't closed. Only want of memory refuses.
    pub fn share<R: Wait>(
        &self,
        rt: &R,
        pass: BoardPass<W>,
        pipe: u64,
    ) -> (BoardPass<W>, Result<(), BoardErr>)
        requires lock { IsPassOn self.now pass }
        requires caller { MayManage (entries_of pipe (knows pass).seen) (knows pass).number }
        requires pipe { IsOpen (entries_of pipe (knows pass).seen) }
        ensures lock { IsPassOn self.now result.0 }
        ensures turn { RecordsUnlessMemory (knows pass) result.1 (Entry.Share (knows pass).number pipe) (knows result.0) }
    {
        let caller = pass.number();
        let mut turn = self.turn(rt, pass);
        let answer = turn.get().share(caller, pipe);
        let added = answer.is_ok();
        (turn.give(added), answer)
    }

    /// From now on the workers whose bits are set may take from the pad, besides its maker and who submits to it: bit i
    /// stands for worker i + 1. What was submitted before stays, and is completed in order. The caller made the pad,
    /// which is neither closed nor shared, and no bit stands at or above the number of lists that it was made with.
    /// Only want of memory refuses. While the mask leaves a worker out, each job of the pad wakes all workers that
    /// sleep. A job of another pad wakes one, or none, as before, while at most 16 pads of the board are masked so at
    /// once: from the 17th on each job of the board wakes all, for good.
    pub fn mask<R: Wait>(
        &self,
        rt: &R,
        pass: BoardPass<W>,
        pipe: u64,
        mask: u16,
    ) -> (BoardPass<W>, Result<(), BoardErr>)
        requires lock { IsPassOn self.now pass }
        requires caller { MayManage (entries_of pipe (knows pass).seen) (knows pass).number }
        requires pipe { IsOpenPad (entries_of pipe (knows pass).seen) }
        requires alone { is_shared (entries_of pipe (knows pass).seen) ≡ false }
        requires bits { mask < 2 ^ width_born (birth (entries_of pipe (knows pass).seen)) }
        ensures lock { IsPassOn self.now result.0 }
        ensures turn { RecordsUnlessMemory (knows pass) result.1 (Entry.Mask (knows pass).number pipe mask) (knows result.0) }
    {
        let caller = pass.number();
        let mut turn = self.turn(rt, pass);
        let answer = turn.get().mask(caller, pipe, mask);
        let added = answer.is_ok();
        self.wakeups.note_mask(pipe, mask, added);
        let pass = turn.give(added);
        if added {
            self.wakeups.jobs().notify_workers();
        }
        (pass, answer)
    }

    /// Takes a job into a pad that isn't closed, and answers its number. The caller made the pad, or has seen that it
    /// is shared, and is no worker. `NoWorker` where the pad's mask is empty, and otherwise `TooBig` where the caller's
    /// allowance has no room for the job; want of memory comes after these. A refusal drops the job. (`Put`, then
    /// `Count` and `Leave` or `Notify`.)
    pub fn submit<R: Wait>(
        &self,
        rt: &R,
        pass: BoardPass<W>,
        pipe: u64,
        job: W,
    ) -> (BoardPass<W>, Result<u64, BoardErr>)
        requires lock { IsPassOn self.now pass }
        requires caller { MaySubmit (entries_of pipe (knows pass).seen) (knows pass).number }
        requires pipe { IsOpenPad (entries_of pipe (knows pass).seen) }
        ensures lock { IsPassOn self.now result.0 }
        ensures turn { AtBoard (knows pass) (λ h. MatchResult result.1
            (λ n. (n ≡ length (submissions (entries_of pipe h))) × IsAllowed W.weight h (knows pass).number (W.asked job)
            × AddsAsk (knows pass) h (W.asked job) (λ ask. Entry.Submit (knows pass).number pipe n ask) (knows result.0))
            (λ e. ((e ≡ BoardErr.NoWorker) ↔ (mask (entries_of pipe h) ≡ 0))
            × ((e ≡ BoardErr.TooBig) ↔ ((0 < mask (entries_of pipe h)) × (IsAllowed W.weight h (knows pass).number (W.asked job) → ⊥)))
            × Leaves (knows pass) h (knows result.0))) }
    {
        let caller = pass.number();
        let mut turn = self.turn(rt, pass);
        let answer = turn.get().submit(caller, pipe, job);
        let added = answer.is_ok();
        let masked = self.wakeups.jobs().is_masked(pipe);
        let pass = turn.give(added);
        if added {
            self.wakeups.jobs().notify_job_of(masked);
        }
        (pass, answer)
    }

    /// Offers a job to a queue or chain that isn't closed, and answers its verdict. The caller made it, or has seen
    /// that it is shared, and is no worker. `TooBig` where the caller's allowance has no room for the job; want of
    /// memory comes after that, and both before the verdict. What isn't accepted is dropped. (`Put`, then `Count` and
    /// `Leave` or `Notify`.)
    pub fn enqueue<R: Wait>(
        &self,
        rt: &R,
        pass: BoardPass<W>,
        pipe: u64,
        job: W,
        backlog: bool,
    ) -> (BoardPass<W>, Result<Entered, BoardErr>)
        requires lock { IsPassOn self.now pass }
        requires caller { MaySubmit (entries_of pipe (knows pass).seen) (knows pass).number }
        requires pipe { IsOpenQueue (entries_of pipe (knows pass).seen) }
        ensures lock { IsPassOn self.now result.0 }
        ensures turn { AtBoard (knows pass) (λ h. MatchResult result.1
            (λ answer. (answer ≡ verdict (entries_of pipe h) backlog) × IsAllowed W.weight h (knows pass).number (W.asked job)
            × AddsAsk (knows pass) h (W.asked job) (λ ask. Entry.Enq (knows pass).number pipe ask backlog answer) (knows result.0))
            (λ e. (e ≢ BoardErr.NoWorker) × ((e ≡ BoardErr.TooBig) ↔ (IsAllowed W.weight h (knows pass).number (W.asked job) → ⊥))
            × Leaves (knows pass) h (knows result.0))) }
    {
        let caller = pass.number();
        let mut turn = self.turn(rt, pass);
        let answer = turn.get().enqueue(caller, pipe, job, backlog);
        let added = answer.is_ok();
        let pass = turn.give(added);
        if is_accepted(&answer) {
            self.wakeups.jobs().notify_job();
        }
        (pass, answer)
    }

    /// Hands out a job that this caller may take: of a pad, or of the pad within a chain, the first that nobody has
    /// taken, where the caller made the pipeline, submitted to it, or is a worker in its mask; of a queue the first
    /// that waits, where it is neither held nor busy. `None` exactly where there is none. No memory is taken. Once a
    /// queue or a chain was made, a take that found a job wakes a worker that sleeps, unless one stays awake, since
    /// another may be ready. (`Help`, or `Look_and_take`, then `Leave_next` or `Notify_next`; `Look_and_find_none`,
    /// then `Forget` or `Keep`.)
    pub fn take<R: Wait>(&self, rt: &R, pass: BoardPass<W>) -> (BoardPass<W>, Option<Taken<W>>)
        requires { IsPassOn self.now pass }
        ensures lock { IsPassOn self.now result.0 }
        ensures turn { AtBoard (knows pass) (λ h. MatchOption result.1
            (NoneFor h (knows pass).number × Leaves (knows pass) h (knows result.0))
            (λ t. TakesJob W.meaning (knows pass) h t.slip.pipe t.slip.number (W.asked t.job) (knows result.0))) }
    {
        let caller = pass.number();
        let seen = self.wakeups.jobs().seen();
        let mut turn = self.turn(rt, pass);
        let answer = turn.get().take(caller);
        let added = answer.is_some();
        let masked = self.is_of_masked(&answer);
        let pass = turn.give(added);
        if added {
            self.wakeups.jobs().notify_taken(caller, masked);
        } else {
            self.wakeups.jobs().forget(caller, seen);
        }
        (pass, answer)
    }

    /// Hands out a job that this caller may take, as `take` does, and where there is none passes a request of a chain
    /// on at the same turn, as `pass_on` does. The answer says whether it did the latter. It spends a look that is due:
    /// where it finds something, a wait that was announced is over, and else its caller may sleep. No memory is taken.
    /// It wakes as these two do. (`Look_and_take`, or `Look_and_find_none`, then `Forget` or `Keep`. After a wait was
    /// announced `Last_take`, then `Drop_key`, or `Last_find_none`, then `Forget_last` or `Keep_last`.)
    pub fn take_or_pass_on<'a, R: Wait>(
        &self,
        rt: &R,
        pass: BoardPass<W>,
        look: Look<'a>,
    ) -> (BoardPass<W>, Option<Taken<W>>, bool, Option<Drowsy<'a>>)
        requires { IsPassOn self.now pass }
        ensures lock { IsPassOn self.now result.0 }
        ensures turn { AtBoard (knows pass) (λ h. MatchOption result.1
            (MatchBool result.2
            ((p : ℕ) × Is is_chain (entries_of p h) × NoneFor h (knows pass).number
            × Adds (knows pass) h (pass_entry h (knows pass).number p) (knows result.0))
            (NonePasses h × NoneFor h (knows pass).number × Leaves (knows pass) h (knows result.0)))
            (λ t. TakesJob W.meaning (knows pass) h t.slip.pipe t.slip.number (W.asked t.job) (knows result.0))) }
    {
        let caller = pass.number();
        let seen = self.wakeups.jobs().seen();
        let mut turn = self.turn(rt, pass);
        let taken = turn.get().take(caller);
        match taken {
            Some(job) => {
                let masked = self.wakeups.jobs().is_masked(job.slip.pipe());
                let pass = turn.give(true);
                look.end();
                self.wakeups.jobs().notify_taken(caller, masked);
                (pass, Some(job), false, None)
            }
            None => {
                let passed = turn.get().pass_on(caller);
                let pass = turn.give(passed);
                self.wakeups.jobs().forget(caller, seen);
                self.wakeups.notify_passed(passed);
                (pass, None, passed, look.find_none())
            }
        }
    }

    /// Records the outcome of a job that this caller took and hasn't finished: what the job's ask means. No memory is
    /// taken. It wakes who waits for an end of the pipeline (`prepare_wait_for_end`), and, once a queue or a chain was
    /// made, a worker that sleeps, unless one stays awake, since a queue's next request may be ready then.
    /// (`End_and_look` or `Ready`, then `Leave_next` or `Notify_next`.)
    pub fn finish<R: Wait>(
        &self,
        rt: &R,
        pass: BoardPass<W>,
        slip: Slip,
        out: W::Out,
    ) -> BoardPass<W>
        requires lock { IsPassOn self.now pass }
        requires took { MayFinish W.meaning (entries_of slip.pipe (knows pass).seen) (knows pass).number slip.number out }
        ensures lock { IsPassOn self.now result }
        ensures turn { Records (knows pass) (λ h. finish_entry h (knows pass).number slip.pipe slip.number) (knows result) }
    {
        let caller = pass.number();
        let pipe = slip.pipe();
        let mut turn = self.turn(rt, pass);
        turn.get().finish(caller, slip, out);
        let pass = turn.give(true);
        self.wakeups.notify_end(pipe);
        self.wakeups.jobs().notify_next();
        pass
    }

    /// Records the outcome of a job that this caller took and hasn't finished, as `finish` does, and at the same turn
    /// hands out the next, as `take` does. No memory is taken. It wakes as `finish` does, but no worker where it hands
    /// out none, since then no queue has a request that is ready. (`End_and_take`, then `Notice_taken` or `Run_on`;
    /// `End_and_find_none`, then `Forget` or `Keep`; of a caller that is no worker `Help_on`, then `Notice_helped` or
    /// `Stop_helping`.)
    pub fn finish_and_take<R: Wait>(
        &self,
        rt: &R,
        pass: BoardPass<W>,
        slip: Slip,
        out: W::Out,
    ) -> (BoardPass<W>, Option<Taken<W>>)
        requires lock { IsPassOn self.now pass }
        requires took { MayFinish W.meaning (entries_of slip.pipe (knows pass).seen) (knows pass).number slip.number out }
        ensures lock { IsPassOn self.now result.0 }
        ensures turn { (m : _)
            × Records (knows pass) (λ h. finish_entry h (knows pass).number slip.pipe slip.number) m
            × MatchOption result.1
            (NoneFor m.seen m.number × (knows result.0 ≡ m))
            (λ t. TakesJob W.meaning m m.seen t.slip.pipe t.slip.number (W.asked t.job) (knows result.0)) }
    {
        let caller = pass.number();
        let pipe = slip.pipe();
        let seen = self.wakeups.jobs().seen();
        let mut turn = self.turn(rt, pass);
        turn.get().finish(caller, slip, out);
        let mut turn = turn.note();
        let next = turn.get().take(caller);
        let added = next.is_some();
        let masked = self.is_of_masked(&next);
        let pass = turn.give(added);
        self.wakeups.notify_end(pipe);
        if added {
            self.wakeups.jobs().notice_taken(seen, masked);
            self.wakeups.jobs().notify_next();
        } else {
            self.wakeups.jobs().forget(caller, seen);
        }
        (pass, next)
    }

    /// The first request of a chain's line goes on to its pad, where the chain isn't held. False exactly where there is
    /// no such chain. No memory is taken. (`Put`, then `Count` and `Leave` or `Notify`.)
    pub fn pass_on<R: Wait>(&self, rt: &R, pass: BoardPass<W>) -> (BoardPass<W>, bool)
        requires { IsPassOn self.now pass }
        ensures lock { IsPassOn self.now result.0 }
        ensures turn { AtBoard (knows pass) (λ h. MatchBool result.1
            ((p : ℕ) × Is is_chain (entries_of p h) × Adds (knows pass) h (pass_entry h (knows pass).number p) (knows result.0))
            (NonePasses h × Leaves (knows pass) h (knows result.0))) }
    {
        let caller = pass.number();
        let mut turn = self.turn(rt, pass);
        let passed = turn.get().pass_on(caller);
        let pass = turn.give(passed);
        self.wakeups.notify_passed(passed);
        (pass, passed)
    }

    /// From now on no request of the queue is begun, and none of the chain goes on to its pad. The caller made it, and
    /// it isn't closed. Only want of memory refuses.
    pub fn hold<R: Wait>(
        &self,
        rt: &R,
        pass: BoardPass<W>,
        pipe: u64,
    ) -> (BoardPass<W>, Result<(), BoardErr>)
        requires lock { IsPassOn self.now pass }
        requires caller { MayManage (entries_of pipe (knows pass).seen) (knows pass).number }
        requires pipe { IsOpenQueue (entries_of pipe (knows pass).seen) }
        ensures lock { IsPassOn self.now result.0 }
        ensures turn { RecordsUnlessMemory (knows pass) result.1 (Entry.Hold (knows pass).number pipe) (knows result.0) }
    {
        let caller = pass.number();
        let mut turn = self.turn(rt, pass);
        let answer = turn.get().hold(caller, pipe);
        let added = answer.is_ok();
        (turn.give(added), answer)
    }

    /// The queue's requests are run again, or the chain's go on. The caller made it, and it isn't closed. Only want of
    /// memory refuses. (`Put`, then `Count` and `Leave` or `Notify`.)
    pub fn go<R: Wait>(
        &self,
        rt: &R,
        pass: BoardPass<W>,
        pipe: u64,
    ) -> (BoardPass<W>, Result<(), BoardErr>)
        requires lock { IsPassOn self.now pass }
        requires caller { MayManage (entries_of pipe (knows pass).seen) (knows pass).number }
        requires pipe { IsOpenQueue (entries_of pipe (knows pass).seen) }
        ensures lock { IsPassOn self.now result.0 }
        ensures turn { RecordsUnlessMemory (knows pass) result.1 (Entry.Go (knows pass).number pipe) (knows result.0) }
    {
        let caller = pass.number();
        let mut turn = self.turn(rt, pass);
        let answer = turn.get().go(caller, pipe);
        let added = answer.is_ok();
        let pass = turn.give(added);
        if added {
            self.wakeups.jobs().notify_job();
        }
        (pass, answer)
    }

    /// Hands out what a pipeline has told and no call handed out before, in the order in which it was told. The caller
    /// made the pipeline, which isn't closed. Only want of memory refuses, and hands out nothing.
    pub fn poll<R: Wait>(
        &self,
        rt: &R,
        pass: BoardPass<W>,
        pipe: u64,
        into: &mut Callbacks<W::Out>,
    ) -> (BoardPass<W>, Result<(), BoardErr>)
        requires lock { IsPassOn self.now pass }
        requires caller { MayManage (entries_of pipe (knows pass).seen) (knows pass).number }
        requires pipe { IsOpen (entries_of pipe (knows pass).seen) }
        ensures lock { IsPassOn self.now result.0 }
        ensures turn { AtBoard (knows pass) (λ h. let es = entries_of pipe h in MatchResult result.1
            (λ _. (into.new.list ≡ into.old.list ++ delivered W.meaning es (length (told es)))
            × Collects (knows pass) h pipe (knows result.0))
            (λ e. (e ≡ BoardErr.Memory) × (into.new.list ≡ into.old.list) × Leaves (knows pass) h (knows result.0))) }
    {
        let caller = pass.number();
        let mut turn = self.turn(rt, pass);
        let answer = turn.get().poll(caller, pipe, into);
        let added = answer.is_ok();
        (turn.give(added), answer)
    }

    /// Where all requests of the pipeline are finished, answers true and hands out what no call handed out before, in
    /// the order in which it was told. Otherwise it answers false and nothing happens. The caller made the pipeline,
    /// which isn't closed. Only want of memory refuses, and hands out nothing.
    pub fn try_drain<R: Wait>(
        &self,
        rt: &R,
        pass: BoardPass<W>,
        pipe: u64,
        into: &mut Callbacks<W::Out>,
    ) -> (BoardPass<W>, Result<bool, BoardErr>)
        requires lock { IsPassOn self.now pass }
        requires caller { MayManage (entries_of pipe (knows pass).seen) (knows pass).number }
        requires pipe { IsOpen (entries_of pipe (knows pass).seen) }
        ensures lock { IsPassOn self.now result.0 }
        ensures turn { AtBoard (knows pass) (λ h. let es = entries_of pipe h in MatchResult result.1
            (λ all. MatchBool all
            ((front es ≡ length (submissions es)) × (into.new.list ≡ into.old.list ++ delivered W.meaning es (length (told es)))
            × Collects (knows pass) h pipe (knows result.0))
            ((front es < length (submissions es)) × (into.new.list ≡ into.old.list) × Leaves (knows pass) h (knows result.0)))
            (λ e. (e ≡ BoardErr.Memory) × (into.new.list ≡ into.old.list) × Leaves (knows pass) h (knows result.0))) }
    {
        let caller = pass.number();
        let mut turn = self.turn(rt, pass);
        let answer = turn.get().try_drain(caller, pipe, into);
        let added = is_true(&answer);
        (turn.give(added), answer)
    }

    /// Closes a pipeline that the caller made and shared with nobody, of which all is finished and handed out. No
    /// memory is taken.
    pub fn close<R: Wait>(&self, rt: &R, pass: BoardPass<W>, pipe: u64) -> BoardPass<W>
        requires lock { IsPassOn self.now pass }
        requires caller { MayManage (entries_of pipe (knows pass).seen) (knows pass).number }
        requires pipe { IsOpen (entries_of pipe (knows pass).seen) }
        requires alone { is_shared (entries_of pipe (knows pass).seen) ≡ false }
        requires drained { IsDrained (entries_of pipe (knows pass).seen) }
        ensures lock { IsPassOn self.now result }
        ensures turn { Records (knows pass) (λ _. Entry.Close (knows pass).number pipe) (knows result) }
    {
        let caller = pass.number();
        let mut turn = self.turn(rt, pass);
        turn.get().close(caller, pipe);
        self.wakeups.jobs().note_close(pipe);
        turn.give(true)
    }

    /// Shuts the board, by the pass with the number 0, once. No memory is taken.
    pub fn shut<R: Wait>(&self, rt: &R, pass: BoardPass<W>) -> BoardPass<W>
        requires lock { IsPassOn self.now pass }
        requires caller { (knows pass).number ≡ 0 }
        requires once { is_shut (knows pass).seen ≡ false }
        ensures lock { IsPassOn self.now result }
        ensures turn { Records (knows pass) (λ _. Entry.Shut (knows pass).number) (knows result) }
    {
        let caller = pass.number();
        let mut turn = self.turn(rt, pass);
        turn.get().shut(caller);
        let pass = turn.give(true);
        self.wakeups.notify_over();
        pass
    }

    /// Whether the board is shut.
    pub fn is_shut<R: Wait>(&self, rt: &R, pass: BoardPass<W>) -> (BoardPass<W>, bool)
        requires { IsPassOn self.now pass }
        ensures lock { IsPassOn self.now result.0 }
        ensures shut { result.1 ≡ is_shut (knows result.0).seen }
        ensures turn { RecordsNothing (knows pass) (knows result.0) }
    {
        let caller = pass.number();
        let mut turn = self.turn(rt, pass);
        let answer = turn.get().is_shut(caller);
        (turn.give(false), answer)
    }

    /// Whether the board is shut, of a caller whose look is due: where it is, no job is left to it, and the look goes.
    /// Otherwise that is still due.
    pub fn look_at_end<'a, R: Wait>(
        &self,
        rt: &R,
        pass: BoardPass<W>,
        look: Look<'a>,
    ) -> (BoardPass<W>, Option<Look<'a>>)
        requires { IsPassOn self.now pass }
        ensures lock { IsPassOn self.now result.0 }
        ensures shut { MatchOption result.1 (is_shut (knows result.0).seen ≡ true) (λ _. is_shut (knows result.0).seen ≡ false) }
        ensures turn { RecordsNothing (knows pass) (knows result.0) }
    {
        let (pass, shut) = self.is_shut(rt, pass);
        if shut {
            look.end();
            return (pass, None);
        }
        (pass, Some(look))
    }

    /// Announces a wait for a job to be taken, or for the end of the board, of a worker that stays awake no longer. A
    /// last look is due before it sleeps. (`Announce` and `Read_epoch`.)
    pub fn prepare_wait_for_job(&self, tired: Tired) -> Look<'_> {
        Look::last(self.wakeups.jobs().prepare_wait_for_job(tired.inner()))
    }

    /// Announces a wait for a job of the pipeline to be finished, a request to be passed on, or the end of the board.
    /// Who announced it drains (`try_drain`) and looks before it sleeps. It may be over where a job of another pipeline
    /// is finished, whose number differs by a multiple of 16.
    pub fn prepare_wait_for_end(&self, pipe: u64) -> EndWait<'_> {
        EndWait::on(self.wakeups.prepare_wait_for_end(pipe))
    }

    /// Counts as a job that came, since something else than a job may be there for a worker: wakes one that sleeps,
    /// unless enough stay awake. (`Call`, then `Leave` or `Notify`.)
    pub fn call_worker(&self) {
        self.wakeups.jobs().notify_job();
    }

    /// The wake-up of the board's workers, for another who has something for them to find. The error is that memory was
    /// refused.
    pub fn worker_wakeup(&self) -> Result<WorkerWakeup, AllocError> {
        self.wakeups.worker_wakeup()
    }

    /// Whether a worker that did a job may find another: a hint that takes no turn. It may have noticed a job that
    /// came, for which nobody else then stays awake or is woken: so a look is due. Without one the worker stays awake
    /// for a while (`spin_for_job`). (`Notice_between` or `Look_anyway`, and `Notice_none`.)
    pub fn may_have_job(&self) -> Option<Look<'_>> {
        if self.wakeups.jobs().may_have_job() {
            return Some(Look::new());
        }
        None
    }

    /// Stays awake for a while for a job to come, unless each job wakes all: a hint that takes no turn. Jobs are left
    /// to who stays awake, and wake nobody else. So a look is due afterwards: at once, where it noticed a job, and else
    /// once it has announced a wait. (`Spin`, then `Notice_while_awake`, `Rouse` and `Read_unnoticed`, or `Give_up`.)
    pub fn spin_for_job(&self) -> SpinResult<'_> {
        match self.wakeups.jobs().spin_for_job() {
            job_wakeups::SpinResult::JobCame => SpinResult::JobCame(Look::new()),
            job_wakeups::SpinResult::Tired(tired) => SpinResult::Tired(Tired::of(tired)),
        }
    }

    /// Sleeps for a millisecond, as a worker does that lacks memory before it tries again.
    pub fn pause<R: Wait>(&self, rt: &R) {
        self.wakeups.jobs().pause(rt);
    }

    /// Whether the board may be shut: a hint that takes no turn.
    pub fn may_be_shut(&self) -> bool {
        self.wakeups.jobs().is_over()
    }

    /// Whether some chain may have been made: a hint that takes no turn.
    pub fn may_have_chains(&self) -> bool {
        self.wakeups.has_chains()
    }

    /// Whether a job was taken whose pad's mask leaves some worker out. It is asked within the turn.
    fn is_of_masked(&self, taken: &Option<Taken<W>>) -> bool {
        match taken {
            Some(job) => self.wakeups.jobs().is_masked(job.slip.pipe()),
            None => false,
        }
    }

    /// The history, at the board's end: it begins with all that the pass has seen, and has of the pass's number, and of
    /// each that it keeps as ended, just the entries made under it. No memory is taken.
    pub fn finish_all<R: Wait>(self, rt: &R, pass: BoardPass<W>) -> BoardLog<W::Ask>
        requires { IsPassOn self pass }
        ensures shows { Shows caller_of (knows pass) result }
        ensures legal { LegalBoard result }
    {
        let SharedBoard { lock, wakeups: _ } = self;
        lock.finish(rt, pass).finish_all()
    }
}

/// Whether the answer is that all is finished.
fn is_true(answer: &Result<bool, BoardErr>) -> bool
    ensures { result ≡ result_unwrap_or answer.now false }
{
    match answer {
        Ok(all) => *all,
        Err(_) => false,
    }
}

/// Whether the answer is that a job came.
fn is_accepted(answer: &Result<Entered, BoardErr>) -> bool {
    match answer {
        Ok(Entered::InProgress(_) | Entered::Busy(_)) => true,
        Ok(Entered::NoSpace) | Err(_) => false,
    }
}
