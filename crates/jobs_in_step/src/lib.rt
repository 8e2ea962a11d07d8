//! Jobs of one key, or texts in their places, sealed at once under CBC or under authenc over it.
#![tactic(auto)]

mod fronts;
mod keys;
mod lane_fit;
mod lanes;
mod parts;
mod sealing;
mod together;

pub use fronts::seal_fronts;
pub use keys::{StepKey, step_key};
pub use together::run_together;
