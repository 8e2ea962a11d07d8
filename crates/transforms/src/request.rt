//! What is asked of a transform, and what it answers.

use kc_base::Bytes;
use sg_walk::Segs;

/// The direction of a request.
#[derive(Clone, Copy, Debug, PartialEq, Eq)]
pub enum Dir {
    Enc,
    Dec,
    Mac,
}

/// A request. For a transform with a tag, the text of a decryption is the ciphertext and then the tag. How the text is
/// cut into segments changes nothing of what comes of the request.
#[derive(Debug, Drop)]
pub struct Request {
    pub dir: Dir,
    pub iv: Bytes,
    pub aad: Bytes,
    pub text: Segs,
}

/// What a job gives: bytes, or that the tag is wrong, or that a length isn't taken.
#[derive(Debug, Drop)]
pub enum Finished {
    Bytes(Bytes),
    BadMsg,
    Invalid,
}
