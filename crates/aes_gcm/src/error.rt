//! What AES-GCM refuses.

use thiserror::Error;

/// Why a key isn't taken, or a text isn't opened.
#[derive(Clone, Copy, Debug, PartialEq, Eq, Drop, Error)]
pub enum AesGcmError {
    /// The key has neither 16, 24 nor 32 bytes.
    #[error("a key of AES has 16, 24 or 32 bytes")]
    KeyLength,
    /// The tag isn't that of the nonce, the associated bytes and the ciphertext under this key.
    #[error("the tag is wrong")]
    WrongTag,
}
