//! SHA-256 (FIPS 180-4), with the message schedules of eight blocks computed at a time, in the lanes of vectors. Eight
//! messages can also be hashed in step, a lane each.
#![tactic(auto)]

mod blocks;
mod constants;
mod hasher;
mod hasher_state;
mod in_step;
mod lane_rounds;
mod lanes;
mod one_block;
mod rounds;
mod transposed;

pub use hasher::{Sha256, digest_of};
pub use in_step::compress_in_step;
pub use one_block::compressed;
