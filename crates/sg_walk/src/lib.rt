//! A text that lies in several pieces of memory, and walks over it.
#![tactic(auto)]

mod full_walk;
mod parts;
mod segment_copies;
mod segs;
mod sizes;
mod walker;

pub use segs::Segs;
pub use walker::Walker;
