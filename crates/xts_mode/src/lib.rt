//! XTS (IEEE Std 1619) over any cipher of blocks, with ciphertext stealing.
#![tactic(auto)]

mod blocks;
mod direction;
mod tweak;
mod xts;

pub use xts::Xts;
