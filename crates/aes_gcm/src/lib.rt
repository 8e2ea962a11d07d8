//! AES-GCM (NIST SP 800-38D) under one key, for a caller who wants no more: texts are sealed and opened in place, with
//! nonces of 12 bytes and tags of 16.
//!
//! It stands on the forms of AES and GHASH that are written without a branch or an address which depends on a key or a
//! text, and compares tags in full. No proof speaks of that; tools/check-secrets looks at the built code.
//!
//! - **A nonce must never repeat under a key** (8). Whoever has two texts under one nonce learns their sum, and can
//!   forge tags.
//! - Nonces drawn at random end at 2^32 texts under a key (8.3). A counter has no such limit: it is the better choice.
//! - A text and its associated bytes have fewer than 2^32 bytes each. The standard allows a text 2^36 - 32 (5.2.1.1).
//! - Shorter tags, and the form of ESP (RFC 4106), are in the crate `gcm_mode`.
#![tactic(auto)]

mod aead;
mod error;

pub use aead::AesGcm;
pub use error::AesGcmError;
