//! GHASH (NIST SP 800-38D): products in its field, keys, and the hash carried on over bytes.
//!
//! Two forms of a key: `LaneGhash` multiplies eight blocks at a time by shuffled rows of products, `BitGhash` one block
//! bit by bit. The source of both has no branch and no address that depends on the hash subkey or on what is hashed. No
//! proof speaks of that. In the built code tools/check-secrets finds none for `LaneGhash`; of `BitGhash` LLVM makes
//! branches for x86-64-v2.
#![tactic(auto)]

mod bit_ghash;
mod block;
mod byte_rows;
mod hash;
mod key;
mod lane_ghash;
mod multiples;
mod product;
mod transposition;
mod wide_sum;

pub use bit_ghash::BitGhash;
pub use hash::{absorb, ghash_of};
pub use key::GhashKey;
pub use lane_ghash::LaneGhash;
pub use product::multiply;
