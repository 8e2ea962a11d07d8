//! What wakes the workers of a board. It holds no fact: who is woken looks again.
//!
//! A worker that finds nothing stays awake for a while, since to sleep and to be woken costs more than a short job.
//! While it does, jobs that come are left to it, and nobody is woken for them. It takes no turn at the board until a
//! job came: a turn that finds nothing keeps those waiting who submit.
//!
//! Each access of a word is a step of the machine of `wake_ups`, under the name that its method's comment gives.
#![tactic(auto)]

mod counted;
mod masked;
mod send_sync;
mod wakeups;
mod worker_wakeup;

pub use counted::Seen;
pub use wakeups::{JobWakeups, SpinResult, Tired, WaitToken};
pub use worker_wakeup::WorkerWakeup;

#[cfg(test)]
mod tests;
