//! What several scripts at once print, and what is true of what they share.
#![tactic(auto)]

mod laws;

pub use laws::{one_output, requests_in_order};
