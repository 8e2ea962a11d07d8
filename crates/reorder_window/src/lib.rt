//! A window of requests in flight, padata's reorder queue: workers finish them in any order, and they come back in the
//! order in which they were submitted. What came back is kept nowhere.
#![tactic(auto)]

mod batches;
pub mod laws;
mod running;
mod window;

pub use batches::Accepted;
pub use running::Running;
pub use window::{Refusal, Window};
