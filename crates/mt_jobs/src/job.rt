//! Jobs.

ghost use Rattle.std.specs.Prelude.{◌<◌, ◌≤◌, ◌^◌};

/// A job over the places from `start` on, which threads can do in chunks beside one another.
#[derive(Clone, Copy, Debug, PartialEq, Eq)]
pub struct MtJob {
    /// Its first place, at most 2^32.
    pub start: u64,
    /// The number of its places, at most 2^32.
    pub size: u64,
    /// Each chunk begins at a multiple of this from `start` on; 1 to 65,536.
    pub align: u64,
    /// The least length that is worth a thread, at most 2^32.
    pub min_chunk: u64,
    /// At most so many threads are counted on, at least 1.
    pub max_threads: u32,
    ghost placed: { (start ≤ 2 ^ 32) × (size ≤ 2 ^ 32) },
    ghost aligned: { (0 < align) × (align ≤ 2 ^ 16) },
    ghost worth: { min_chunk ≤ 2 ^ 32 },
    ghost threaded: { 0 < max_threads },
}
