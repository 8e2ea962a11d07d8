//! The trace of a run, of one script or of several, can be read back.
#![tactic(auto)]

mod laws;

pub use laws::{client_traces_can_be_read, traces_can_be_read};
