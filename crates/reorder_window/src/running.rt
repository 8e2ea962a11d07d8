//! A request that a worker took.

/// A request that a worker took, and whether it is finished.
#[derive(Clone, Copy, Debug)]
pub struct Running<R> {
    pub request: R,
    pub worker: u32,
    pub is_done: bool,
}
