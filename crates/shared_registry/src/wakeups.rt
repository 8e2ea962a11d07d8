//! What wakes those who wait for the registry. It holds no fact: who is woken looks again.

use crossbeam_utils::sync::EventCount;
use job_wakeups::{WaitToken, WorkerWakeup};
use std::sync::OnceLock;
use std::sync::atomic::{AtomicUsize, Ordering};

/// The wake-ups of a registry.
#[derive(Drop)]
pub(crate) struct Wakeups {
    /// Notified where a larval ends.
    ends: EventCount,
    /// How many larvals began, and how many were claimed: a hint, for those who look before they take a turn.
    begun: AtomicUsize,
    claimed: AtomicUsize,
    /// That of the workers that build, once there are any.
    workers: OnceLock<WorkerWakeup>,
}

impl Wakeups {
    pub(crate) fn new() -> Wakeups {
        Wakeups {
            ends: EventCount::new(),
            begun: AtomicUsize::new(0),
            claimed: AtomicUsize::new(0),
            workers: OnceLock::new(),
        }
    }

    pub(crate) fn prepare_wait_for_end(&self) -> WaitToken<'_> {
        WaitToken::on(&self.ends)
    }

    /// Workers look here before they sleep, and are woken by these wake-ups. The first that are given stay.
    pub(crate) fn note_workers(&self, workers: WorkerWakeup) {
        let _ = self.workers.try_set(workers);
    }

    /// A larval began, at a turn that isn't given back yet.
    pub(crate) fn note_begin(&self) {
        self.begun.fetch_add(1, Ordering::SeqCst);
    }

    /// A larval began, at a turn that is given back. It wakes a worker that sleeps, unless enough stay awake.
    pub(crate) fn notify_begin(&self) {
        if let Some(workers) = self.workers.get() {
            workers.call();
        }
    }

    /// A larval was claimed.
    pub(crate) fn note_claim(&self) {
        self.claimed.fetch_add(1, Ordering::SeqCst);
    }

    /// A larval ended.
    pub(crate) fn notify_end(&self) {
        self.ends.notify_all();
    }

    /// Whether more larvals began than were claimed.
    pub(crate) fn may_build(&self) -> bool {
        let claimed = self.claimed.load(Ordering::SeqCst);
        claimed < self.begun.load(Ordering::SeqCst)
    }
}
