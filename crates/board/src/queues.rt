//! What a board does with queues and chains alone: it offers them requests, holds them and lets them go.

ghost use Rattle.std.specs.Prelude.{◌≡◌, ◌≢◌, [], ◌∷◌, ◌++◌, IfErr, OnOk, ◌↔◌, MatchResult};
ghost use Rattle.std.specs.Arc.{arc_value};
ghost use Rattle.std.specs.declared.sync.Arc.{Arc};
ghost use Rattle.std.specs.declared.alloc.Global.{Global as GlobalMemory};
ghost use Rattle.board.specs.declared.entry.BoardEntry.TheVariants as Entry;
ghost use Rattle.board.specs.declared.board_core.BoardErr.TheVariants as BoardErr;
ghost use Rattle.board.specs.Entries.{entries_of, verdict};
ghost use Rattle.board.specs.Allowance.{IsAllowed};
ghost use Rattle.board.specs.Legal.{MaySubmit, MayManage, IsOpenQueue, LegalBoard};

use crate::board_core::{BoardCore, BoardErr};
use crate::entry::{BoardEntry, Entered};
use crate::log::reserve_entries;
use crate::requests::{make_room, update_run_queues};
use crate::submission::Admitted;
use crate::work::Work;

impl<W: Work> BoardCore<W> {
    /// Offers a job to a queue or chain, and answers its verdict: accepted while fewer requests wait than the queue's
    /// bound, otherwise into the backlog where `backlog` permits it, and else refused for want of space. The caller
    /// made the queue, which isn't closed, or the queue is shared, and the caller is no worker. `TooBig` where the
    /// caller's allowance has no room for the job; want of memory comes after that, and both before the verdict. Either
    /// leaves the board as it was. `NoSpace` is recorded. What isn't accepted is dropped. All memory that the job's
    /// `take` and `finish` and its callbacks need is taken here.
    pub fn enqueue(
        &mut self,
        caller: u32,
        pipe: u64,
        job: W,
        backlog: bool,
    ) -> Result<Entered, BoardErr>
        requires caller { MaySubmit (entries_of pipe self.old) caller }
        requires pipe { IsOpenQueue (entries_of pipe self.old) }
        ensures answered { MatchResult result
            (λ answer. (answer ≡ verdict (entries_of pipe self.old) backlog)
            × ((ask : Arc W.Ask GlobalMemory) × (arc_value ask ≡ W.asked job)
            × (self.new ≡ self.old ++ Entry.Enq caller pipe ask backlog answer ∷ [])))
            (λ _. self.new ≡ self.old) }
        ensures allowed { OnOk result (IsAllowed W.weight self.old caller (W.asked job)) }
        ensures refused { IfErr result (λ e. (e ≡ BoardErr.TooBig) ↔ (IsAllowed W.weight self.old caller (W.asked job) → ⊥)) }
        ensures other { IfErr result (λ e. e ≢ BoardErr.NoWorker) }
        ensures legal { LegalBoard self.new }
    {
        let Admitted { ask, used } = self.admit(caller, &job)?;
        reserve_entries(&mut self.log, self.owed, 4)?;
        let place = self.pipes.get_mut(&pipe).unwrap();
        let had_job = place.stage.may_serve();
        let accepted = place.stage.accepts(backlog);
        make_room(
            &mut self.ready,
            &mut self.used,
            place,
            caller,
            pipe,
            used,
            accepted,
        )?;
        let answer = place.enqueue(caller, job, backlog);
        self.owed += place.stage.work_entries(answer);
        self.log.push_reserved(BoardEntry::Enq {
            caller,
            pipe,
            ask,
            backlog,
            answer,
        });
        update_run_queues(&mut self.ready, &mut self.passing, pipe, place, had_job);
        Ok(answer)
    }

    /// From now on no request of the queue is run, and none of the chain goes on to its pad. The caller made it, and it
    /// isn't closed. Only want of memory refuses, and leaves the board as it was.
    pub fn hold(&mut self, caller: u32, pipe: u64) -> Result<(), BoardErr>
        requires caller { MayManage (entries_of pipe self.old) caller }
        requires pipe { IsOpenQueue (entries_of pipe self.old) }
        ensures held { MatchResult result (λ _. self.new ≡ self.old ++ Entry.Hold caller pipe ∷ []) (λ _. self.new ≡ self.old) }
        ensures refused { IfErr result (λ e. e ≡ BoardErr.Memory) }
        ensures legal { LegalBoard self.new }
    {
        reserve_entries(&mut self.log, self.owed, 1)?;
        let place = self.pipes.get_mut(&pipe).unwrap();
        let had_job = place.stage.may_serve();
        place.stage.set_held(true);
        let has_job = place.stage.may_serve();
        let may_pass = place.stage.may_pass();
        self.log.push_reserved(BoardEntry::Hold { caller, pipe });
        self.ready.set_ready(pipe, place, had_job, has_job);
        self.passing.set(pipe, may_pass);
        Ok(())
    }

    /// The queue's requests are run again, or the chain's go on. The caller made it, and it isn't closed. Only want of
    /// memory refuses, and leaves the board as it was.
    pub fn go(&mut self, caller: u32, pipe: u64) -> Result<(), BoardErr>
        requires caller { MayManage (entries_of pipe self.old) caller }
        requires pipe { IsOpenQueue (entries_of pipe self.old) }
        ensures going { MatchResult result (λ _. self.new ≡ self.old ++ Entry.Go caller pipe ∷ []) (λ _. self.new ≡ self.old) }
        ensures refused { IfErr result (λ e. e ≡ BoardErr.Memory) }
        ensures legal { LegalBoard self.new }
    {
        reserve_entries(&mut self.log, self.owed, 1)?;
        let place = self.pipes.get_mut(&pipe).unwrap();
        let had_job = place.stage.may_serve();
        place.stage.set_held(false);
        let has_job = place.stage.may_serve();
        let may_pass = place.stage.may_pass();
        self.log.push_reserved(BoardEntry::Go { caller, pipe });
        self.ready.set_ready(pipe, place, had_job, has_job);
        self.passing.set(pipe, may_pass);
        Ok(())
    }
}
