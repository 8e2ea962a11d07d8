//! The registry of many callers: each call is a turn at one lock, and what is built for one caller any other may build.
#![tactic(auto)]

mod builds;
mod faithful_registry;
pub mod laws;
mod registry_lock;
mod send_sync;
#[cfg(test)]
mod tests;
mod wakeups;

pub use builds::{build_one, resolve, settle};
pub use faithful_registry::FaithfulRegistry;
pub use registry_lock::{RegPass, SharedRegistry};
