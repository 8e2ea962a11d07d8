//! Jobs run at once.

ghost use Rattle.std.specs.Prelude.{◌≡◌, ◌<◌, ℕ, None, slice_index_or};
ghost use Rattle.std.specs.Option.{option_map};
ghost use Rattle.transforms.specs.Asked.{room_of};
ghost use Rattle.transforms.specs.Drivers.{driver_of};
ghost use Rattle.transforms.specs.Finish.{finished_value};
ghost use Rattle.transforms.specs.RequestValue.{request_value};
ghost use Rattle.transforms.specs.declared.request.Dir.TheVariants.{Enc};
ghost use Rattle.transforms.specs.declared.request.Request.{Request};
ghost use Rattle.jobs_in_step.specs.Lanes.{AreValues, FitsKey, job_value};
ghost use Rattle.jobs_in_step.specs.Steps.{sealed_by, room_by};

use crate::keys::{StepKey, step_key};
use crate::lane_fit::all_fit;
use crate::lanes::answers_of;
use crate::parts::parts_of;
use crate::sealing::seal_by;
use std::alloc::Global;
use transforms::{Finished, Job, Keyed};

/// Runs a lane's job, where there is one.
fn run_one(job: Option<Job>) -> Option<Finished>
    ensures { option_map finished_value result ≡ option_map job_value job }
{
    match job {
        Some(job) => Some(job.run()),
        None => None,
    }
}

/// Runs the jobs one after another.
fn run_each(jobs: [Option<Job>; 8]) -> [Option<Finished>; 8]
    ensures { AreValues result jobs }
{
    let [a, b, c, d, e, f, g, h] = jobs;
    [
        run_one(a),
        run_one(b),
        run_one(c),
        run_one(d),
        run_one(e),
        run_one(f),
        run_one(g),
        run_one(h),
    ]
}

/// Runs sealings of whole blocks under one key, in step.
fn run_in_step(
    alloc: Global,
    keyed: &Keyed,
    key: StepKey<'_>,
    jobs: [Option<Job>; 8],
) -> [Option<Finished>; 8]
    requires values { (n : ℕ) (q : Request) → q.dir ≡ Enc
        → sealed_by key n q ≡ request_value (driver_of keyed.now.0) keyed.now.1 n q }
    requires rooms { (n : ℕ) (q : Request) → q.dir ≡ Enc → room_by key n q ≡ room_of keyed.now.0 n q }
    requires fit { (n : ℕ) → n < 8 → FitsKey keyed.now (slice_index_or jobs n None) }
    ensures { AreValues result jobs }
{
    let (asks, mut texts) = parts_of(alloc, jobs);
    seal_by(key, &asks, &mut texts);
    answers_of(alloc, &asks, &mut texts)
}

/// Runs up to eight jobs, each to the value of its ask. Where all are sealings of whole blocks under `keyed`, whose
/// plan is CBC or authenc over it, and the tags have at most 32 bytes, they run in step, else one after another. No
/// memory is taken.
pub fn run_together(alloc: Global, keyed: &Keyed, jobs: [Option<Job>; 8]) -> [Option<Finished>; 8]
    ensures { AreValues result jobs }
{
    match step_key(keyed) {
        Some(key) => {
            if !all_fit(&jobs, keyed) {
                return run_each(jobs);
            }
            run_in_step(alloc, keyed, key, jobs)
        }
        None => run_each(jobs),
    }
}
