//! std's readers and writers as a source and a sink.
#![tactic(auto)]

mod sinks;
mod sources;

pub use sinks::StdSink;
pub use sources::StdSource;
