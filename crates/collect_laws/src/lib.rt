//! What the collects of a pipeline deliver, over a whole history.
#![tactic(auto)]

mod laws;

pub use laws::collects_deliver;
