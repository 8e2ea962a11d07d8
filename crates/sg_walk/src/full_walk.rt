//! A walk over all segments of a text.

ghost use Rattle.std.specs.Prelude.{◌≡◌, ◌+◌, ◌-◌, ◌%◌, ◌<◌, ◌≤◌, min, [], length, map, take, drop, slice_index_or};
ghost use Rattle.std.specs.List.{concat};
ghost use Rattle.sg_walk.specs.Segments.{written};
ghost use Rattle.sg_walk.specs.Stepped.{Stepped};

use crate::segment_copies::{gather, scatter};
use crate::walker::Walker;
use kc_base::Bytes;
use std::alloc::Global;
use std::mem;

/// Goes over `count` bytes of the segment, from `at` on.
#[tactic(auto, unfolding(crate::specs::Segments::written))]
fn step_within<W: Walker>(alloc: Global, part: &mut Bytes, at: usize, count: usize, walker: &mut W)
    requires { at + count ≤ length part.old }
    ensures made { W.makes walker.old (take count (drop at part.old)) (take count (drop at part.new)) walker.new }
    ensures rest { part.new ≡ written at (take count (drop at part.new)) part.old }
    ensures len { length (take count (drop at part.new)) ≡ count }
{
    let mut bytes = mem::replace(part, Bytes::new(alloc)).into_vec();
    walker.step(&mut bytes[at..at + count]);
    *part = Bytes::from_vec(bytes);
}

/// Goes over a piece that begins at the byte `at` of the segment `i`, and may go on in those behind it: eight blocks,
/// which a cipher in lanes seals in the time of one, or what is left of the text. How many bytes it has.
fn step_across<W: Walker>(
    alloc: Global,
    parts: &mut [Bytes],
    i: usize,
    at: usize,
    walker: &mut W,
) -> usize
    requires within { i < length parts.old }
    requires inside { at ≤ length (concat (drop i parts.old)) }
    ensures count { result ≡ min 128 (length (concat (drop i parts.old)) - at) }
    ensures stepped { Stepped W.makes walker.old parts.old parts.new walker.new (length (concat (take i parts.old)) + at) result }
{
    let mut piece = [0u8; 128];
    let count = gather(parts, i, at, &mut piece);
    walker.step(&mut piece[..count]);
    scatter(alloc, parts, i, at, &piece[..count]);
    count
}

/// Goes over the segment `i` from its byte `skip` on: over its whole blocks where they are, and over what is left of it
/// as one piece with what stands behind it. How many bytes of the segments behind it were gone over.
fn walk_part<W: Walker>(
    alloc: Global,
    parts: &mut [Bytes],
    i: usize,
    skip: usize,
    walker: &mut W,
) -> usize
    requires within { i < length parts.old }
    requires inside { skip < length (slice_index_or parts.old i []) }
    ensures stepped { Stepped W.makes walker.old parts.old parts.new walker.new
        (length (concat (take i parts.old)) + skip)
        (length (slice_index_or parts.old i []) + result - skip) }
    ensures whole { length (slice_index_or parts.old i []) + result < length (concat (drop i parts.old))
        → (length (slice_index_or parts.old i []) + result - skip) % 16 ≡ 0 }
{
    let len = parts[i].len();
    let whole = (len - skip) / 16 * 16;
    step_within(alloc, &mut parts[i], skip, whole, walker);
    let at = skip + whole;
    if at == len {
        return 0;
    }
    let count = step_across(alloc, parts, i, at, walker);
    count - (len - at)
}

/// Goes over all segments.
pub fn walk_parts<W: Walker>(alloc: Global, parts: &mut [Bytes], walker: &mut W)
    ensures text { W.makes walker.old (concat parts.old) (concat parts.new) walker.new }
    ensures sizes { map length parts.new ≡ map length parts.old }
    ensures len { length (concat parts.new) ≡ length (concat parts.old) }
{
    let mut skip = 0;
    for i in 0..parts.len() {
        let len = parts[i].len();
        if len <= skip {
            skip -= len;
        } else {
            skip = walk_part(alloc, parts, i, skip, walker);
        }
    }
}
