//! A lock that serves its callers in the order of their tickets, round a value that stands for a history.
#![tactic(auto)]

mod calls;
mod lock;
mod send_sync;
mod ticket_steps;
mod told;
mod view;

pub use lock::{Pass, Turn, TurnLock};
pub use told::Told;
pub use view::{Stage, View};

#[cfg(test)]
mod tests;
