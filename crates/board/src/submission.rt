//! How a board admits requests, and a pad of it accepts them.

ghost use Rattle.std.specs.Prelude.{◌≡◌, ◌≢◌, ◌+◌, ◌<◌, [], ◌∷◌, ◌++◌, length, IfOk, IfErr, OnOk, ◌↔◌, MatchResult};
ghost use Rattle.std.specs.Arc.{arc_value};
ghost use Rattle.std.specs.declared.sync.Arc.{Arc};
ghost use Rattle.std.specs.declared.alloc.Global.{Global as GlobalMemory};
ghost use Rattle.board.specs.declared.entry.BoardEntry.TheVariants as Entry;
ghost use Rattle.board.specs.declared.board_core.BoardErr.TheVariants as BoardErr;
ghost use Rattle.board.specs.Entries.{entries_of, submissions, mask};
ghost use Rattle.board.specs.Allowance.{IsAllowed, used_in};
ghost use Rattle.board.specs.Legal.{MaySubmit, IsOpenPad, LegalBoard};

use crate::allowance::{Used, used_with};
use crate::board_core::{BoardCore, BoardErr};
use crate::entry::BoardEntry;
use crate::log::reserve_entries;
use crate::requests::make_room;
use crate::work::Work;
use std::alloc::Global;
use std::sync::Arc;

/// What a job that is accepted is asked, and what its caller has used of its allowance with it.
pub(crate) struct Admitted<A> {
    pub(crate) ask: Arc<A, Global>,
    pub(crate) used: Used,
}

impl<W: Work> BoardCore<W> {
    /// Takes a job into the pad, and answers its number. The caller made the pad, which isn't closed, or the pad is
    /// shared, and the caller is no worker. `NoWorker` where the pad's mask is empty, and otherwise `TooBig` where the
    /// caller's allowance has no room for the job; want of memory comes after these. A refusal drops the job and leaves
    /// the board as it was. All memory that the job's `take` and `finish` need is taken here.
    pub fn submit(&mut self, caller: u32, pipe: u64, job: W) -> Result<u64, BoardErr>
        requires caller { MaySubmit (entries_of pipe self.old) caller }
        requires pipe { IsOpenPad (entries_of pipe self.old) }
        ensures submitted { MatchResult result
            (λ n. (n ≡ length (submissions (entries_of pipe self.old)))
            × ((ask : Arc W.Ask GlobalMemory) × (arc_value ask ≡ W.asked job)
            × (self.new ≡ self.old ++ Entry.Submit caller pipe n ask ∷ [])))
            (λ _. self.new ≡ self.old) }
        ensures allowed { OnOk result (IsAllowed W.weight self.old caller (W.asked job)) }
        ensures masked { OnOk result (0 < mask (entries_of pipe self.old)) }
        ensures unmasked { IfErr result (λ e. (e ≡ BoardErr.NoWorker) ↔ (mask (entries_of pipe self.old) ≡ 0)) }
        ensures refused { IfErr result (λ e. (e ≡ BoardErr.TooBig)
            ↔ ((0 < mask (entries_of pipe self.old)) × (IsAllowed W.weight self.old caller (W.asked job) → ⊥))) }
        ensures legal { LegalBoard self.new }
    {
        let Admitted { ask, used } = self.admit_to_pad(caller, pipe, &job)?;
        reserve_entries(&mut self.log, self.owed, 3)?;
        let place = self.pipes.get_mut(&pipe).unwrap();
        let had_job = place.stage.may_serve();
        make_room(
            &mut self.ready,
            &mut self.used,
            place,
            caller,
            pipe,
            used,
            true,
        )?;
        let number = place.submit(caller, job);
        self.log.push_reserved(BoardEntry::Submit {
            caller,
            pipe,
            number,
            ask,
        });
        self.owed += 2;
        self.ready.set_ready(pipe, place, had_job, true);
        Ok(number)
    }

    /// What the job is asked, and what the caller has used with it. `NoWorker` where the pad's mask is empty, and
    /// otherwise `TooBig` where the caller's allowance has no room for the job. Want of memory comes after these.
    fn admit_to_pad(&self, caller: u32, pipe: u64, job: &W) -> Result<Admitted<W::Ask>, BoardErr>
        requires { IsOpenPad (entries_of pipe self.now) }
        ensures ask { IfOk result (λ admitted. arc_value admitted.ask ≡ W.asked job.now) }
        ensures used { IfOk result (λ admitted. admitted.used ≡ record {
          requests = (used_in W.weight self.now caller).requests + 1;
          bytes = (used_in W.weight self.now caller).bytes + W.weight (W.asked job.now);
        }) }
        ensures allowed { OnOk result (IsAllowed W.weight self.now caller (W.asked job.now)) }
        ensures masked { OnOk result (0 < mask (entries_of pipe self.now)) }
        ensures unmasked { IfErr result (λ e. (e ≡ BoardErr.NoWorker) ↔ (mask (entries_of pipe self.now) ≡ 0)) }
        ensures refused { IfErr result (λ e. (e ≡ BoardErr.TooBig) ↔
            ((0 < mask (entries_of pipe self.now)) × (IsAllowed W.weight self.now caller (W.asked job.now) → ⊥))) }
    {
        let place = &self.pipes[&pipe];
        if place.mask == 0 {
            return Err(BoardErr::NoWorker);
        }
        self.admit(caller, job)
    }

    /// What the job is asked, and what the caller has used with it, where its allowance has room for it: otherwise
    /// `TooBig`. Want of memory comes after that.
    pub(crate) fn admit(&self, caller: u32, job: &W) -> Result<Admitted<W::Ask>, BoardErr>
        ensures ask { IfOk result (λ admitted. arc_value admitted.ask ≡ W.asked job.now) }
        ensures used { IfOk result (λ admitted. admitted.used ≡ record {
          requests = (used_in W.weight self.now caller).requests + 1;
          bytes = (used_in W.weight self.now caller).bytes + W.weight (W.asked job.now);
        }) }
        ensures allowed { OnOk result (IsAllowed W.weight self.now caller (W.asked job.now)) }
        ensures refused { IfErr result (λ e. (e ≡ BoardErr.TooBig) ↔ (IsAllowed W.weight self.now caller (W.asked job.now) → ⊥)) }
        ensures other { IfErr result (λ e. e ≢ BoardErr.NoWorker) }
    {
        let Some(used) = used_with(&self.used, caller, job.size()) else {
            return Err(BoardErr::TooBig);
        };
        let ask = job.ask(self.alloc)?;
        Ok(Admitted { ask, used })
    }
}
