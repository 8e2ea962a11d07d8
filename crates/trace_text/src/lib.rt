//! The trace of a run: what its registry and its board recorded, an event a line.
#![tactic(auto)]

mod board_text;
mod registry_text;
mod sentence_builder;
mod trace_writer;
mod words;

pub use board_text::{HasScriptLine, board_line};
pub use registry_text::registry_line;
pub use trace_writer::write_trace;
