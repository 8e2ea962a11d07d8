//! Which jobs fit in the lanes.

ghost use Rattle.std.specs.Prelude.{◌≡◌, ◌<◌, ℕ, None, IsTrue, slice_index_or};
ghost use Rattle.std.specs.Arc.{arc_value};
ghost use Rattle.jobs_in_step.specs.Lanes.{FitsKey};
ghost use Rattle.jobs_in_step.specs.Steps.{Fits};

use transforms::{Dir, Job, Keyed};

/// Whether a job seals whole blocks under the key, for a tag of at most 32 bytes.
fn fits(job: &Job, key: &Keyed) -> bool
    ensures { IsTrue result → (arc_value (arc_value job.now.ask).keyed ≡ key.now) × Fits (arc_value job.now.ask) }
{
    let request = &job.ask.request;
    job.ask.keyed.is_same(key)
        && request.dir == Dir::Enc
        && request.iv.len() == 16
        && request.text.len() % 16 == 0
        && job.ask.authsize <= 32
}

/// Whether a lane's job, where there is one, fits.
fn lane_fits(job: &Option<Job>, key: &Keyed) -> bool
    ensures { IsTrue result → FitsKey key.now job.now }
{
    match job {
        Some(job) => fits(job, key),
        None => true,
    }
}

/// Whether each job fits.
pub fn all_fit(jobs: &[Option<Job>; 8], key: &Keyed) -> bool
    ensures { IsTrue result → (n : ℕ) → n < 8 → FitsKey key.now (slice_index_or jobs.now n None) }
{
    for n in 0..8usize {
        if !lane_fits(&jobs[n], key) {
            return false;
        }
    }
    true
}
