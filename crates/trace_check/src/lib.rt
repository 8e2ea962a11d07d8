//! A checker of the trace of a run.
#![tactic(auto)]

mod event_parser;
mod held;
mod laws;
mod lines;
mod pipe;
mod reason;
mod register;
mod registry_check;
mod registry_judge;
mod table;
mod table_steps;
mod trace_reader;
mod verdict;

pub use laws::{asks_are_lines, board_reasons, one_verdict, registry_reasons};
pub use lines::{AskLine, Event};
pub use reason::Reason;
pub use registry_check::first_wrong_entry;
pub use table::first_wrong_event;
pub use trace_reader::{Events, Reading, read_trace};
pub use verdict::{TraceVerdict, check_trace};
