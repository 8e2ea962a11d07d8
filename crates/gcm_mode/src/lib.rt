//! GCM (NIST SP 800-38D) with IVs of 96 bits, and its form in ESP (RFC 4106).
//!
//! No IV may be used for two texts under a key (8): whoever has both ciphertexts learns the sum of the texts, and can
//! forge tags. IVs that are drawn at random end at 2^32 texts under a key (8.3); a counter has no such limit. A tag of
//! 16 bytes is the one to take: one of 4 or 8 bytes bounds how many texts a key may open (appendix C).
#![tactic(auto)]

mod byte_hash;
mod counter;
mod gcm;
mod guarded;
mod rfc4106;
mod segments;
mod stream;

pub use byte_hash::ByteHash;
pub use gcm::{Gcm, takes_gcm_tag};
pub use guarded::{GcmOpening, GcmSealing, Refusal};
pub use rfc4106::{Rfc4106, authenticated_bytes, takes_rfc4106_associated, takes_rfc4106_tag};
pub use segments::{KeyStream, TextHash};
pub use stream::{GcmBegun, GcmText};
