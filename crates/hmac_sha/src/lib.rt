//! HMAC (FIPS 198-1) with SHA-256.
#![tactic(auto)]

mod key_block;
mod mac;
mod padded_key;
mod stream;

pub use mac::Mac;
pub use stream::Message;
