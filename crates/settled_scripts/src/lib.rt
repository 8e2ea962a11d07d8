//! What settled scripts print: the same beside every number of workers.
#![tactic(auto)]

mod laws;

pub use laws::{passes_follow, settled_scripts_print_plain, turns_are_plain, worked_scripts};
