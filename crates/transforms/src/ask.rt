//! What a job was asked.

use crate::keyed::Keyed;
use crate::request::Request;
use std::sync::Arc;

/// A request, with the key and the tag size that it is for, and the client and the line that it came from.
#[derive(Drop)]
pub struct Ask {
    pub keyed: Arc<Keyed>,
    /// The size of the tag in bytes.
    pub authsize: u32,
    pub request: Request,
    pub client: u32,
    pub line: u32,
}
