//! What a board does for a request beside its pipeline: it makes room, and tells the run queues what may be done then.

ghost use Rattle.std.specs.Prelude.{◌≡◌, ℕ, ◌<◌, ◌==◌, if◌then◌else◌, OnOk, OnErr};
ghost use Rattle.std.specs.Vec.{vec_len, vec_capacity};
ghost use Rattle.board.specs.Allowance.{used_at};
ghost use Rattle.board.specs.RunQueues.{queue_for, IsMade};
ghost use Rattle.board.specs.Pipelines.{IsSame};
ghost use Rattle.board.specs.RunQueue.{IsMember, IsQueued, HasJob, IsNoQueue, Keeps};
ghost use Rattle.board.specs.Requests.{LearnOfJobs, LearnsOfRequests};
ghost use Rattle.board.specs.Stages.{HasRoom, IsPlaced};

use crate::allowance::{Used, spend};
use crate::pipeline::Pipeline;
use crate::run_queue::RunQueue;
use crate::run_queues::RunQueues;
use std::alloc::AllocError;
use std::collections::BTreeMap;

/// Makes room for one more request of the caller, who may take from the pipeline from now on. Where the request is
/// accepted, it notes what the caller has used with it. Want of memory changes nothing that is seen.
pub(crate) fn make_room<J: Drop, F: Drop>(
    ready: &mut RunQueues,
    used: &mut BTreeMap<u32, Used>,
    place: &mut Pipeline<J, F>,
    caller: u32,
    pipe: u64,
    more: Used,
    accepted: bool,
) -> Result<(), AllocError>
    ensures run_queues { IsMade Keeps ready.old ready.new }
    ensures same { IsSame place.old place.new }
    ensures placed { IsPlaced place.old.stage → IsPlaced place.new.stage }
    ensures room { OnOk result (HasRoom place.new.stage) }
    ensures notes { OnOk result (vec_len place.new.submitters < vec_capacity place.new.submitters) }
    ensures joined { OnOk result (IsNoQueue place.old → IsMember (queue_for caller ready.new.own) pipe) }
    ensures queued { OnOk result (IsNoQueue place.old → HasJob place.old → IsQueued (queue_for caller ready.new.own) pipe) }
    ensures spent { OnOk result ((c : ℕ) →
        used_at used.new c ≡ (if accepted then (if c == caller then more else used_at used.old c) else used_at used.old c)) }
    ensures unspent { OnErr result ((c : ℕ) → used_at used.new c ≡ used_at used.old c) }
{
    ready.admit(caller, pipe, place)?;
    place.reserve()?;
    spend(used, caller, more, accepted)
}

/// Tells the run queues in which a pipeline may stand what may be done with it now, where it had a job before or not.
/// No memory is taken.
pub(crate) fn update_run_queues<J: Drop, F: Drop>(
    ready: &mut RunQueues,
    passing: &mut RunQueue,
    pipe: u64,
    place: &Pipeline<J, F>,
    had_job: bool,
)
    ensures ready { LearnOfJobs pipe place.now had_job ready.old ready.new }
    ensures passing { LearnsOfRequests pipe place.now passing.old passing.new }
{
    ready.set_ready(pipe, place, had_job, place.stage.may_serve());
    passing.set(pipe, place.stage.may_pass());
}
