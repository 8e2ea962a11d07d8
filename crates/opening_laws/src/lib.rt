//! That each transform opens what it sealed.
#![tactic(auto)]

mod laws;

pub use laws::drivers_open_what_they_sealed;
