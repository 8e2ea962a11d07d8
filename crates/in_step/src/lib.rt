//! Eight requests under one key at once: the chains of CBC and of SHA-256 side by side, each in a lane of vectors.
#![tactic(auto)]

mod cbc;
mod digests;
mod macs;
mod packets;
mod padding;
mod sealing;
mod text;

pub use cbc::seal_cbc_in_step;
pub use digests::digests_in_step;
pub use macs::macs_in_step;
pub use packets::fit_in_step;
pub use sealing::seal_authenc_in_step;
pub use text::{Text, bytes_at, write_at};
