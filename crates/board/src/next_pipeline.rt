//! Which pipeline a caller serves next.

ghost use Rattle.std.specs.Prelude.{◌≡◌, Some, MatchBool};
ghost use Rattle.board.specs.declared.pipeline.Pipeline.{Pipeline};
ghost use Rattle.board.specs.Places.{places};
ghost use Rattle.board.specs.RunQueue.{HasJobFor, HasRequest, KeepsSuch, IsOne, FindsIn};

use crate::pipeline::Pipeline;
use crate::run_queue::RunQueue;
use std::collections::BTreeMap;

/// Finds a pipeline queued of which the caller may take a job. Those that it finds without one leave the run queue.
pub(crate) fn next_for<J: Drop, F: Drop>(
    pipes: &BTreeMap<u64, Pipeline<J, F>>,
    queue: &mut RunQueue,
    caller: u32,
) -> Option<u64>
    ensures kept { KeepsSuch (HasJobFor caller) (places pipes.now) queue.old queue.new }
    ensures next { FindsIn (HasJobFor caller) (places pipes.now) queue.old result }
{
    while let Some(k) = queue.next() {
        if has_job_at(pipes, k, caller) {
            return Some(k);
        }
        queue.remove(k);
    }
    None
}

/// Finds a chain queued that may pass a request on. Those that it finds without one leave the run queue.
pub(crate) fn next_request<J: Drop, F: Drop>(
    pipes: &BTreeMap<u64, Pipeline<J, F>>,
    passing: &mut RunQueue,
) -> Option<u64>
    ensures kept { KeepsSuch HasRequest (places pipes.now) passing.old passing.new }
    ensures next { FindsIn HasRequest (places pipes.now) passing.old result }
{
    while let Some(k) = passing.next() {
        if has_request_at(pipes, k) {
            return Some(k);
        }
        passing.remove(k);
    }
    None
}

/// Whether there is an open pipeline of this number of which the caller may take a job.
fn has_job_at<J: Drop, F: Drop>(pipes: &BTreeMap<u64, Pipeline<J, F>>, k: u64, caller: u32) -> bool
    ensures { MatchBool result
        (IsOne (HasJobFor caller) (places pipes.now) k)
        ((x : Pipeline J F) → places pipes.now k ≡ Some x → HasJobFor caller x → ⊥) }
{
    match pipes.get(&k) {
        Some(pipe) => pipe.has_job_for(caller),
        None => false,
    }
}

/// Whether there is an open pipeline of this number that may pass a request on.
fn has_request_at<J: Drop, F: Drop>(pipes: &BTreeMap<u64, Pipeline<J, F>>, k: u64) -> bool
    ensures { MatchBool result
        (IsOne HasRequest (places pipes.now) k)
        ((x : Pipeline J F) → places pipes.now k ≡ Some x → HasRequest x → ⊥) }
{
    match pipes.get(&k) {
        Some(pipe) => pipe.stage.may_pass(),
        None => false,
    }
}
