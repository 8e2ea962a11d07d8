//! Instructions of processors, each as a function whose contract is its definition. The functions compute what the
//! definition says, slowly and by tables: no key goes through them but where `has_instructions` answers true.
#![tactic(auto)]

mod aes_rounds;
mod carryless;
mod presence;

pub use aes_rounds::{aesdec, aesdeclast, aesenc, aesenclast, aesimc};
pub use carryless::{clmul_high_high, clmul_high_low, clmul_low_high, clmul_low_low};
pub use presence::has_instructions;
