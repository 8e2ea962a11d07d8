//! What one of several encryptions is asked, and what it came to.

/// One of several encryptions. The text is the first `len` bytes of a buffer that stands beside it.
#[repr(C)]
pub struct Encryption<'a> {
    pub iv: &'a [u8],
    pub aad: &'a [u8],
    pub len: usize,
    /// The number of bytes that came of it.
    pub written: usize,
    /// 0, or the negative of Linux's error number.
    pub status: i32,
}
