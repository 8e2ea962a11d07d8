//! The wake-up by which others call a worker.

use crate::wakeups::JobWakeups;
use std::alloc::Global;
use std::sync::Arc;

/// The wake-ups of a board's workers, for one who has something else than a job for them to find. It only calls.
#[derive(Drop)]
pub struct WorkerWakeup {
    wakeups: Arc<JobWakeups, Global>,
}

impl WorkerWakeup {
    /// One that notifies by these wake-ups.
    pub fn new(wakeups: Arc<JobWakeups, Global>) -> WorkerWakeup {
        WorkerWakeup { wakeups }
    }

    /// Counts as a job that came: wakes a worker that sleeps, unless enough stay awake. (`Call`, then `Leave` or
    /// `Notify`.)
    pub fn call(&self) {
        self.wakeups.notify_job();
    }
}
