//! What holds of every job.

ghost use Rattle.mt_jobs.specs.Jobs.{IsCut};
ghost use Rattle.mt_jobs.specs.declared.job.MtJob.{MtJob};

/// The ranges of a job's chunks are in order, none overlaps another, together they are the job, and each begins at a
/// multiple of `align` from the job's start on.
pub fn chunks_cut_the_job()
    ensures { (job : MtJob) → IsCut job }
{}
