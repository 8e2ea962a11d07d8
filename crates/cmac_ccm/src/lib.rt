//! CMAC (NIST SP 800-38B) and CCM (NIST SP 800-38C) over any cipher of blocks. No call takes memory.
#![tactic(auto)]

mod ccm;
mod chain;
mod cmac;
mod formatting;
pub mod laws;
mod stream;

pub use ccm::{Ccm, takes_ccm_tag};
pub use cmac::Cmac;
pub use stream::Message;
