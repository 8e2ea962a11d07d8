//! Work can go on while there is any, and comes to an end.
#![tactic(auto)]

mod laws;

pub use laws::{larvals_wait_in_no_ring, work_goes_on, work_is_bounded};
