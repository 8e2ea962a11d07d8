//! A whole script, or a whole load, beside workers.
#![tactic(auto)]

mod errors;
mod laws;
mod lines;
mod load;
mod load_session;
mod traced_run;
mod with_workers;

pub use errors::{NO_MEMORY, RunError, USAGE, status_by};
pub use laws::{nothing_is_broken_off, nothing_is_by_lines, nothing_is_front};
pub use lines::MAX_INPUT;
pub use load::run_load;
pub use traced_run::{put_trace, run_traced};
pub use with_workers::{RunResult, first_locks};
