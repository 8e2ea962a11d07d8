//! Copies of a part of a text, which may lie in several pieces.

ghost use Rattle.std.specs.Prelude.{◌≡◌, ◌+◌, ◌-◌, ◌<◌, ◌≤◌, ◌++◌, min, [], length, map, take, drop, slice_index_or};
ghost use Rattle.std.specs.List.{concat};
ghost use Rattle.sg_walk.specs.Segments.{written};
ghost use Rattle.piece_modes.specs.Pieces.{parts_of, text_over, size_of};

use crate::piece::PieceMut;
use in_step::Text;

/// How many bytes the piece `i` has.
pub fn len_of(pieces: &[PieceMut<'_>], i: usize) -> usize
    requires { i < length pieces.now }
    ensures { result ≡ length (slice_index_or (parts_of pieces.now) i []) }
{
    pieces[i].bytes().len()
}

/// Writes `from` over the bytes of the piece from `at` on.
#[tactic(auto, unfolding(sg_walk::specs::Segments::written))]
fn overwrite(piece: &mut [u8], at: usize, from: &[u8])
    requires { at + length from.now ≤ length piece.old }
    ensures { piece.new ≡ written at from.now piece.old }
{
    piece[at..at + from.len()].copy_from_slice(from);
}

/// Copies the bytes from the byte `at` of the piece `first` on, as many as there are and `into` has room for. How many.
pub fn gather(pieces: &[PieceMut<'_>], first: usize, at: usize, into: &mut [u8]) -> usize
    requires { first ≤ length pieces.now }
    ensures count { result ≡ min (length into.old) (length (concat (drop first (parts_of pieces.now))) - at) }
    ensures copied { take result into.new ≡ take (length into.old) (drop at (concat (drop first (parts_of pieces.now)))) }
    ensures rest { drop result into.new ≡ drop result into.old }
{
    let mut skip = at;
    let mut done = 0;
    for i in first..pieces.len() {
        if done == into.len() {
            return done;
        }
        let piece = pieces[i].bytes();
        let begin = skip.min(piece.len());
        let count = (piece.len() - begin).min(into.len() - done);
        into[done..done + count].copy_from_slice(&piece[begin..begin + count]);
        skip -= begin;
        done += count;
    }
    done
}

/// Writes `from` over the bytes from the byte `at` of the piece `first` on.
pub fn scatter(pieces: &mut [PieceMut<'_>], first: usize, at: usize, from: &[u8])
    requires begin { first ≤ length pieces.old }
    requires within { at + length from.now ≤ length (concat (drop first (parts_of pieces.old))) }
    ensures text { concat (parts_of pieces.new)
        ≡ written (length (concat (take first (parts_of pieces.old))) + at) from.now (concat (parts_of pieces.old)) }
    ensures sizes { map length (parts_of pieces.new) ≡ map length (parts_of pieces.old) }
    ensures len { length (concat (parts_of pieces.new)) ≡ length (concat (parts_of pieces.old)) }
{
    let mut skip = at;
    let mut done = 0;
    for i in first..pieces.len() {
        if done == from.len() {
            return;
        }
        let len = len_of(pieces, i);
        let begin = skip.min(len);
        let count = (len - begin).min(from.len() - done);
        overwrite(pieces[i].bytes, begin, &from[done..done + count]);
        skip -= begin;
        done += count;
    }
}

/// Writes `from` over the bytes of the text from `at` on. Each piece keeps its length.
pub fn write_at(pieces: &mut [PieceMut<'_>], at: usize, from: &[u8])
    requires { at + length from.now ≤ length (text_over pieces.old) }
    ensures text { text_over pieces.new
        ≡ take at (text_over pieces.old) ++ from.now ++ drop (at + length from.now) (text_over pieces.old) }
    ensures sizes { map size_of pieces.new ≡ map size_of pieces.old }
{
    scatter(pieces, 0, at, from);
}

/// Fills `into` with the bytes of the text from `at` on.
pub fn read_at(pieces: &[PieceMut<'_>], at: usize, into: &mut [u8])
    requires { at + length into.old ≤ length (text_over pieces.now) }
    ensures { into.new ≡ take (length into.old) (drop at (text_over pieces.now)) }
{
    gather(pieces, 0, at, into);
}
