//! The segments of a text.

ghost use Rattle.std.specs.Prelude.{◌≡◌, ◌+◌, ◌^◌, ◌<◌, ◌≤◌, length, map, take, drop, IfOk};
ghost use Rattle.std.specs.List.{concat};
ghost use Rattle.sg_walk.specs.Segments.{written, cut_sizes};

use kc_base::Bytes;
use std::alloc::{AllocError, Global};
use std::mem;

/// How many bytes the segments have together.
pub fn total_len(parts: &[Bytes]) -> usize
    requires { length (concat parts.now) < 2 ^ 63 }
    ensures { result ≡ length (concat parts.now) }
{
    let mut len = 0;
    for part in parts {
        len += part.len();
    }
    len
}

/// The bytes of all segments, of which there are `len`.
pub fn joined(alloc: Global, parts: &[Bytes], len: usize) -> Result<Bytes, AllocError>
    ensures { IfOk result (λ bytes. bytes ≡ concat parts.now) }
{
    let mut bytes = Bytes::new(alloc);
    bytes.reserve(len)?;
    for part in parts {
        bytes.append(part.as_slice())?;
    }
    Ok(bytes)
}

/// A copy of each segment.
pub fn copies(alloc: Global, parts: &[Bytes]) -> Result<Vec<Bytes>, AllocError>
    ensures { IfOk result (λ copies. copies.items ≡ parts.now) }
{
    let mut copies = Vec::with_capacity(alloc, parts.len())?;
    for part in parts {
        copies.push(Bytes::copy_of(alloc, part.as_slice())?)?;
    }
    Ok(copies)
}

/// Writes the piece over the bytes of the segment from `at` on.
#[tactic(auto, unfolding(crate::specs::Segments::written))]
pub fn overwrite(alloc: Global, part: &mut Bytes, at: usize, piece: &[u8])
    requires { at + length piece.now ≤ length part.old }
    ensures { part.new ≡ written at piece.now part.old }
{
    let mut bytes = mem::replace(part, Bytes::new(alloc)).into_vec();
    bytes[at..at + piece.len()].copy_from_slice(piece);
    *part = Bytes::from_vec(bytes);
}

/// Keeps the first bytes of the segment.
fn shorten(alloc: Global, part: &mut Bytes, len: usize)
    ensures { part.new ≡ take len part.old }
{
    let mut bytes = mem::replace(part, Bytes::new(alloc)).into_vec();
    bytes.truncate(len);
    *part = Bytes::from_vec(bytes);
}

/// Keeps the first `len` bytes of all segments together.
pub fn cut_to(alloc: Global, parts: &mut [Bytes], len: usize)
    ensures text { concat parts.new ≡ take len (concat parts.old) }
    ensures sizes { map length parts.new ≡ cut_sizes len (map length parts.old) }
{
    let mut rest = len;
    for part in parts.iter_mut() {
        let keep = part.len().min(rest);
        shorten(alloc, part, keep);
        rest -= keep;
    }
}
