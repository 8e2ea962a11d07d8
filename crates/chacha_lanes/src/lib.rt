//! ChaCha20 (RFC 8439, 2.3 and 2.4), on eight blocks at a time.
#![tactic(auto)]

mod cipher;
mod lanes;
mod rounds;
mod stream;
mod transposed;

pub use cipher::ChaCha20;
