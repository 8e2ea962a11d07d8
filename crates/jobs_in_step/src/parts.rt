//! Jobs taken apart, a lane each.

ghost use Rattle.std.specs.Prelude.{◌≡◌, ◌<◌, ℕ, None, slice_index_or};
ghost use Rattle.jobs_in_step.specs.Lanes.{text_in, IsPart};

use std::alloc::Global;
use std::sync::Arc;
use transforms::{Ask, Job};

/// The ask of a job, and its buffer with what the answer begins with; where there is no job, no bytes.
fn part_of(alloc: Global, job: Option<Job>) -> (Option<Arc<Ask>>, Vec<u8>)
    ensures { IsPart job result.0 result.1.items }
{
    match job {
        Some(job) => {
            let (ask, buffer) = job.into_parts();
            (Some(ask), buffer)
        }
        None => (None, Vec::new(alloc)),
    }
}

/// The asks and the buffers of eight jobs.
pub fn parts_of(alloc: Global, jobs: [Option<Job>; 8]) -> ([Option<Arc<Ask>>; 8], [Vec<u8>; 8])
    ensures { (n : ℕ) → n < 8 → IsPart (slice_index_or jobs n None) (slice_index_or result.0 n None) (text_in result.1 n) }
{
    let [a, b, c, d, e, f, g, h] = jobs;
    let (ask_a, text_a) = part_of(alloc, a);
    let (ask_b, text_b) = part_of(alloc, b);
    let (ask_c, text_c) = part_of(alloc, c);
    let (ask_d, text_d) = part_of(alloc, d);
    let (ask_e, text_e) = part_of(alloc, e);
    let (ask_f, text_f) = part_of(alloc, f);
    let (ask_g, text_g) = part_of(alloc, g);
    let (ask_h, text_h) = part_of(alloc, h);
    (
        [ask_a, ask_b, ask_c, ask_d, ask_e, ask_f, ask_g, ask_h],
        [
            text_a, text_b, text_c, text_d, text_e, text_f, text_g, text_h,
        ],
    )
}
