//! CTR (NIST SP 800-38A 6.5) over any cipher of blocks, its form of RFC 3686, and the key stream under both.
#![tactic(auto)]

mod counter;
mod ctr;
mod key_stream;
mod rfc3686;
mod text;

pub use ctr::Ctr;
pub use key_stream::{
    CounterBlocks, KeyStream, apply_behind_first, apply_in_two, apply_key_stream, first_ciphers,
};
pub use rfc3686::Rfc3686;
pub use text::CtrText;
