//! The registry of algorithms: what is listed, looked up, built and referenced.
//!
//! Each call appends the one entry to the registry's history that is right for the entries before it.
#![tactic(auto)]

mod entry;
mod history;
mod ids;
mod larvals;
mod laws;
mod listing;
mod look_answers;
mod mark_counts;
mod registry;
mod row;
mod rows;
mod spec;

pub use entry::{Claimed, EndAnswer, Ended, Enlisted, Looked, RefAnswer, RegEntry, RegErr};
pub use history::RegLog;
pub use ids::Ids;
pub use laws::{all_ended, legal_histories, lifetimes, names_exist, own_calls};
pub use listing::{ListRow, Listing};
pub use registry::Registry;
pub use spec::{Kind, Spec, Wrap};
