//! CBC (NIST SP 800-38A 6.2) over any cipher of blocks.
#![tactic(auto)]

mod blocks;
mod cbc;

pub use cbc::Cbc;
