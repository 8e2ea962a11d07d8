//! A walk over all pieces of a text.

ghost use Rattle.std.specs.Prelude.{◌≡◌, ◌+◌, ◌-◌, ◌%◌, ◌<◌, ◌≤◌, min, [], length, map, take, drop, slice_index_or};
ghost use Rattle.std.specs.List.{concat};
ghost use Rattle.sg_walk.specs.Segments.{written};
ghost use Rattle.sg_walk.specs.Stepped.{Stepped};
ghost use Rattle.piece_modes.specs.Pieces.{parts_of};

use crate::copies::{gather, len_of, scatter};
use crate::piece::PieceMut;
use sg_walk::Walker;

/// Goes over `count` bytes of the piece, from `at` on.
#[tactic(auto, unfolding(sg_walk::specs::Segments::written))]
fn step_within<W: Walker>(piece: &mut [u8], at: usize, count: usize, walker: &mut W)
    requires { at + count ≤ length piece.old }
    ensures made { W.makes walker.old (take count (drop at piece.old)) (take count (drop at piece.new)) walker.new }
    ensures rest { piece.new ≡ written at (take count (drop at piece.new)) piece.old }
    ensures len { length (take count (drop at piece.new)) ≡ count }
{
    walker.step(&mut piece[at..at + count]);
}

/// Goes over bytes that begin at the byte `at` of the piece `i`, and may go on in those behind it: eight blocks, which
/// a cipher in lanes seals in the time of one, or what is left of the text. How many bytes.
fn step_across<W: Walker>(pieces: &mut [PieceMut<'_>], i: usize, at: usize, walker: &mut W) -> usize
    requires within { i < length pieces.old }
    requires inside { at ≤ length (concat (drop i (parts_of pieces.old))) }
    ensures count { result ≡ min 128 (length (concat (drop i (parts_of pieces.old))) - at) }
    ensures stepped { Stepped W.makes walker.old (parts_of pieces.old) (parts_of pieces.new) walker.new
        (length (concat (take i (parts_of pieces.old))) + at) result }
{
    let mut room = [0u8; 128];
    let count = gather(pieces, i, at, &mut room);
    walker.step(&mut room[..count]);
    scatter(pieces, i, at, &room[..count]);
    count
}

/// Goes over the piece `i` from its byte `skip` on: over its whole blocks where they are, and over what is left of it
/// as one with what stands behind it. How many bytes of the pieces behind it were gone over.
fn walk_piece<W: Walker>(
    pieces: &mut [PieceMut<'_>],
    i: usize,
    skip: usize,
    walker: &mut W,
) -> usize
    requires within { i < length pieces.old }
    requires inside { skip < length (slice_index_or (parts_of pieces.old) i []) }
    ensures stepped { Stepped W.makes walker.old (parts_of pieces.old) (parts_of pieces.new) walker.new
        (length (concat (take i (parts_of pieces.old))) + skip) (length (slice_index_or (parts_of pieces.old) i []) + result - skip) }
    ensures whole { length (slice_index_or (parts_of pieces.old) i []) + result < length (concat (drop i (parts_of pieces.old)))
        → (length (slice_index_or (parts_of pieces.old) i []) + result - skip) % 16 ≡ 0 }
{
    let len = len_of(pieces, i);
    let whole = (len - skip) / 16 * 16;
    step_within(pieces[i].bytes, skip, whole, walker);
    let at = skip + whole;
    if at == len {
        return 0;
    }
    let count = step_across(pieces, i, at, walker);
    count - (len - at)
}

/// Goes over all pieces: over the whole blocks of 16 bytes of each where they lie, and, where a piece ends within a
/// block, over a copy of the next 128 bytes, or of what is left of the text, which is written back.
pub fn walk_pieces<W: Walker>(pieces: &mut [PieceMut<'_>], walker: &mut W)
    ensures text { W.makes walker.old (concat (parts_of pieces.old)) (concat (parts_of pieces.new)) walker.new }
    ensures sizes { map length (parts_of pieces.new) ≡ map length (parts_of pieces.old) }
{
    let mut skip = 0;
    for i in 0..pieces.len() {
        let len = len_of(pieces, i);
        if len <= skip {
            skip -= len;
        } else {
            skip = walk_piece(pieces, i, skip, walker);
        }
    }
}
