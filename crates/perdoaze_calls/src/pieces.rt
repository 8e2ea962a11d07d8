//! Texts in pieces.

ghost use Rattle.std.specs.Prelude.{◌≡◌, ◌≤◌, ◌<◌, ◌^◌, ◌+◌, ◌++◌, length, map, take, drop, IsTrue, IsFalse, MatchOption, IfOk};
ghost use Rattle.perdoaze_calls.specs.Pieces.{text_in, most_on_stack};
ghost use Rattle.piece_modes.specs.Pieces.{text_over, size_of};

use crate::requests::copy_front;
use piece_modes::{PieceMut, ReadPiece};
use std::alloc::{AllocError, Global};

/// A piece of a text, as POSIX's `struct iovec`.
#[repr(C)]
pub struct Piece<'a> {
    pub bytes: &'a [u8],
}

impl ReadPiece for Piece<'_> {
    ghost bytes_of = { λ p. p.bytes.now };

    fn as_bytes(&self) -> &[u8] {
        self.bytes
    }
}

/// How many bytes the pieces have together, where they are fewer than 2^32.
pub fn total_len(pieces: &[Piece<'_>]) -> Option<usize>
    ensures { MatchOption result (2 ^ 32 ≤ length (text_in pieces.now)) (λ n. (n ≡ length (text_in pieces.now)) × (n < 2 ^ 32)) }
{
    let mut total = 0;
    for piece in pieces {
        if piece.bytes.len() >= 0x1_0000_0000 - total {
            return None;
        }
        total += piece.bytes.len();
    }
    Some(total)
}

/// Copies a piece to the place behind the first `done` bytes.
pub(crate) fn put_behind(piece: &[u8], done: usize, into: &mut [u8])
    requires { done + length piece.now ≤ length into.old }
    ensures { into.new ≡ take done into.old ++ piece.now ++ drop (length piece.now) (drop done into.old) }
{
    let (_, behind) = into.split_at_mut(done);
    copy_front(piece, behind);
}

/// Copies `n` bytes of the pieces, from their byte `at` on, to the front of `into`.
pub fn gather(pieces: &[Piece<'_>], at: usize, n: usize, into: &mut [u8])
    requires within { at + n ≤ length (text_in pieces.now) }
    requires room { n ≤ length into.old }
    ensures { into.new ≡ take n (drop at (text_in pieces.now)) ++ drop n into.old }
{
    let mut skip = at;
    let mut done = 0;
    for piece in pieces {
        let begin = skip.min(piece.bytes.len());
        let count = (piece.bytes.len() - begin).min(n - done);
        put_behind(&piece.bytes[begin..begin + count], done, into);
        skip -= begin;
        done += count;
    }
}

/// Several pieces that are changed in their place are copied to the stack where they have no more bytes together.
pub const MOST_ON_STACK: usize = 4160;

/// Whether the pieces have at most 4,160 bytes together.
pub fn are_few(pieces: &[PieceMut<'_>]) -> bool
    ensures few { IsTrue result → length (text_over pieces.now) ≤ most_on_stack }
    ensures many { IsFalse result → most_on_stack < length (text_over pieces.now) }
{
    let mut left = MOST_ON_STACK;
    for piece in pieces {
        if piece.bytes.len() > left {
            return false;
        }
        left -= piece.bytes.len();
    }
    true
}

/// Whether the pieces have `size` bytes together, or more.
pub fn have(pieces: &[PieceMut<'_>], size: usize) -> bool
    ensures { IsTrue result → size ≤ length (text_over pieces.now) }
{
    let mut left = size;
    for piece in pieces {
        if piece.bytes.len() >= left {
            return true;
        }
        left -= piece.bytes.len();
    }
    left == 0
}

/// Copies the bytes of all pieces to the front of `into`. How many there are.
pub fn gather_all(pieces: &[PieceMut<'_>], into: &mut [u8]) -> usize
    requires { length (text_over pieces.now) ≤ length into.old }
    ensures count { result ≡ length (text_over pieces.now) }
    ensures copied { take result into.new ≡ text_over pieces.now }
    ensures len { length into.new ≡ length into.old }
{
    let mut done = 0;
    for piece in pieces {
        put_behind(piece.bytes, done, into);
        done += piece.bytes.len();
    }
    done
}

/// The bytes of all pieces. Only want of memory is an error.
pub fn joined_over(alloc: Global, pieces: &[PieceMut<'_>]) -> Result<Vec<u8>, AllocError>
    ensures { IfOk result (λ whole. whole.items ≡ text_over pieces.now) }
{
    let mut whole = Vec::new(alloc);
    for piece in pieces {
        whole.extend_from_slice(piece.bytes)?;
    }
    Ok(whole)
}

/// Copies as many bytes as `into` has, from the byte `at` on.
fn copy_from(from: &[u8], at: usize, into: &mut [u8])
    requires { at + length into.old ≤ length from.now }
    ensures { into.new ≡ take (length into.old) (drop at from.now) }
{
    into.copy_from_slice(&from[at..at + into.len()]);
}

/// Writes `from`, which has as many bytes as the pieces, over them.
pub fn scatter(from: &[u8], pieces: &mut [PieceMut<'_>])
    requires { length from.now ≡ length (text_over pieces.old) }
    ensures text { text_over pieces.new ≡ from.now }
    ensures sizes { map size_of pieces.new ≡ map size_of pieces.old }
{
    let mut done = 0;
    for piece in pieces.iter_mut() {
        copy_from(from, done, piece.bytes);
        done += piece.bytes.len();
    }
}
