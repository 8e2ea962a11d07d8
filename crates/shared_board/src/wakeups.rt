//! What wakes those who wait for a board. It holds no fact: who is woken looks again.

use crossbeam_utils::CachePadded;
use crossbeam_utils::sync::EventCount;
use job_wakeups::{JobWakeups, WaitToken, WorkerWakeup};
use std::alloc::{AllocError, Global};
use std::array;
use std::sync::Arc;
use std::sync::atomic::{AtomicBool, Ordering};

/// So many event counts wake those who drain. Pipelines whose numbers differ by a multiple of it share one.
const ENDS: usize = 16;

/// The wake-ups of a board.
#[derive(Drop)]
pub(crate) struct Wakeups {
    /// Those of its workers, by which others may notify too.
    jobs: Arc<JobWakeups, Global>,
    /// Each wakes where a job of its pipelines is finished.
    ends: [CachePadded<EventCount>; ENDS],
    /// Whether some chain was made: a hint, for those who look before they take a turn.
    chains: AtomicBool,
}

impl Wakeups {
    pub(crate) fn new(alloc: Global) -> Result<Wakeups, AllocError> {
        Ok(Wakeups {
            jobs: Arc::new(alloc, JobWakeups::new())?,
            ends: array::from_fn(|_| CachePadded::new(EventCount::new())),
            chains: AtomicBool::new(false),
        })
    }

    /// Those of the board's workers.
    pub(crate) fn jobs(&self) -> &JobWakeups {
        &self.jobs
    }

    /// Those of the board's workers, for another who notifies by them.
    pub(crate) fn worker_wakeup(&self) -> Result<WorkerWakeup, AllocError> {
        Ok(WorkerWakeup::new(self.jobs.clone()?))
    }

    /// The event count of those who drain the pipeline.
    fn end_of(&self, pipe: u64) -> &EventCount {
        &self.ends[pipe as usize % ENDS]
    }

    pub(crate) fn prepare_wait_for_end(&self, pipe: u64) -> WaitToken<'_> {
        WaitToken::on(self.end_of(pipe))
    }

    /// A chain of so many lists is made.
    pub(crate) fn note_chain(&self, lists: u32) {
        self.chains.store(true, Ordering::SeqCst);
        self.jobs.note_queue();
        self.jobs.note_lists(lists);
    }

    /// Within a turn: a pad has another mask, where that is so.
    pub(crate) fn note_mask(&self, pad: u64, mask: u16, masked: bool) {
        if masked {
            self.jobs.note_mask(pad, mask);
        }
    }

    /// Whether some chain was made.
    pub(crate) fn has_chains(&self) -> bool {
        self.chains.load(Ordering::SeqCst)
    }

    /// A request was passed on, where that is so: its job came, for workers and for those who drain.
    pub(crate) fn notify_passed(&self, passed: bool) {
        if passed {
            self.jobs.notify_job();
            self.notify_ends();
        }
    }

    /// A job of the pipeline was finished.
    pub(crate) fn notify_end(&self, pipe: u64) {
        self.end_of(pipe).notify_all();
    }

    /// Whoever drains looks again.
    fn notify_ends(&self) {
        for end in self.ends.iter() {
            end.notify_all();
        }
    }

    /// The board is shut.
    pub(crate) fn notify_over(&self) {
        self.jobs.notify_over();
        self.notify_ends();
    }
}
