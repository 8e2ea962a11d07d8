//! Several scripts at once, over one registry and one board.
#![tactic(auto)]

mod client;
mod first;
mod part;
mod run;
mod with_workers;

pub use client::{ClientRun, ClientText};
pub use first::{Opened, open_first};
pub use part::answer_part;
pub use run::run_clients;
pub use with_workers::{Output, PartsRun};
