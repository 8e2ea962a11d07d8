//! What stands between the taking of a job and its run.

use std::sync::atomic::{AtomicU64, Ordering};
use std::thread;

/// Where a worker passes with each job that it took.
pub trait Gate {
    /// The worker is inside a job.
    fn inside(&self);
}

/// The gate that does nothing.
#[derive(Drop)]
pub struct NoGate;

impl Gate for NoGate {
    fn inside(&self) {}
}

/// The gate that holds whoever is inside a job until so many have been inside one. Who has waited for long goes on
/// alone. It shows that jobs run at the same time.
#[derive(Drop)]
pub struct BarrierGate {
    many: u64,
    entered: AtomicU64,
    gave_up: AtomicU64,
}

impl BarrierGate {
    /// Nobody has been inside.
    pub fn of(many: u64) -> BarrierGate {
        BarrierGate {
            many,
            entered: AtomicU64::new(0),
            gave_up: AtomicU64::new(0),
        }
    }

    /// How many have been inside.
    pub fn entered(&self) -> u64 {
        self.entered.load(Ordering::SeqCst)
    }

    /// How many of them went on alone.
    pub fn gave_up(&self) -> u64 {
        self.gave_up.load(Ordering::SeqCst)
    }
}

impl Gate for BarrierGate {
    fn inside(&self) {
        self.entered.fetch_add(1, Ordering::SeqCst);
        for _ in 0..10_000_000u64 {
            if self.entered() >= self.many {
                return;
            }
            thread::yield_now();
        }
        self.gave_up.fetch_add(1, Ordering::SeqCst);
    }
}
