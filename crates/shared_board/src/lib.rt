//! The board of many threads: each call is a turn at one lock, so that all they do is one history.
#![tactic(auto)]

mod asks;
mod laws;
mod looks;
mod send_sync;
mod shared;
mod wakeups;

pub use laws::known_holds;
pub use looks::{Drowsy, EndWait, Look, SpinResult, Tired};
pub use shared::{BoardPass, SharedBoard};
