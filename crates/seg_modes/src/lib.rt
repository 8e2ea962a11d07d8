//! CBC and CTR over a text that lies in segments.
#![tactic(auto)]

mod cbc;
mod ctr;
mod seg_cipher;

pub use cbc::{SealingChain, UnsealingChain, seal_on, unseal_on};
pub use ctr::CtrStream;
pub use seg_cipher::SegCipher;
