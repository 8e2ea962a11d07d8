//! The chunks of a job.

ghost use Rattle.std.specs.Prelude.{◌≡◌, ◌≤◌, ◌*◌, MatchOption, IfSome};
ghost use Rattle.mt_jobs.specs.Jobs.{chunk_len, range_of as range_at, HasChunk, CutsAt};

use crate::job::MtJob;
use std::ops::Range;

/// The length of a job's chunks; the last may be shorter.
pub fn chunk_of(job: &MtJob) -> u64
    ensures value { result ≡ chunk_len job.now }
    ensures cuts { CutsAt job.now.align result job.now.size }
{
    let worth = job.min_chunk.max(job.align);
    let threads = u64::from(job.max_threads).min((job.size / worth).max(1));
    if threads == 1 {
        return job.size;
    }
    let share = job.size / (threads * 4);
    share.max(job.min_chunk.max(1)).next_multiple_of(job.align)
}

/// The places of chunk `n`, counted from 0. `None` exactly where there are no more than `n` chunks.
pub fn range_of(job: &MtJob, n: u64) -> Option<Range<u64>>
    ensures none { MatchOption result (job.now.size ≤ n * chunk_len job.now) (λ _. HasChunk job.now n) }
    ensures places { IfSome result (λ range. range ≡ range_at job.now n) }
{
    let chunk = chunk_of(job);
    let from = n.checked_mul(chunk)?;
    if from >= job.size {
        return None;
    }
    Some(job.start + from..job.start + (from + chunk).min(job.size))
}
