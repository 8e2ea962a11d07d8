//! What a run is asked for.
#![tactic(auto)]

mod options;

pub use options::{ClientOptions, LoadOptions, Mode, ScriptOptions};
