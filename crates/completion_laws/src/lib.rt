//! What the maker of a pipeline is told of its requests, over a whole history.
#![tactic(auto)]

mod laws;

pub use laws::told_in_order;
