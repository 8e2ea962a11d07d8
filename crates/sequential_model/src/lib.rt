//! What a script's calls come to where it is alone: with no workers, no locks and no events.
#![tactic(auto)]

mod laws;

pub use laws::{answers_are_plain, replies_are_plain};
