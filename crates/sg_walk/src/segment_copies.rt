//! Copies of a piece that may lie in several segments.

ghost use Rattle.std.specs.Prelude.{◌≡◌, ◌+◌, ◌-◌, ◌<◌, ◌≤◌, min, length, map, take, drop};
ghost use Rattle.std.specs.List.{concat};
ghost use Rattle.sg_walk.specs.Segments.{written};

use crate::parts::overwrite;
use kc_base::Bytes;
use std::alloc::Global;

/// Copies the bytes from the byte `at` of the segment `first` on, as many as there are and `into` has room for. How
/// many.
pub fn gather(parts: &[Bytes], first: usize, at: usize, into: &mut [u8]) -> usize
    requires { first ≤ length parts.now }
    ensures count { result ≡ min (length into.old) (length (concat (drop first parts.now)) - at) }
    ensures copied { take result into.new ≡ take (length into.old) (drop at (concat (drop first parts.now))) }
    ensures rest { drop result into.new ≡ drop result into.old }
{
    let mut skip = at;
    let mut done = 0;
    for i in first..parts.len() {
        if done == into.len() {
            return done;
        }
        let part = parts[i].as_slice();
        let begin = skip.min(part.len());
        let count = (part.len() - begin).min(into.len() - done);
        into[done..done + count].copy_from_slice(&part[begin..begin + count]);
        skip -= begin;
        done += count;
    }
    done
}

/// Writes the piece over the bytes from the byte `at` of the segment `first` on.
pub fn scatter(alloc: Global, parts: &mut [Bytes], first: usize, at: usize, piece: &[u8])
    requires begin { first ≤ length parts.old }
    requires within { at + length piece.now ≤ length (concat (drop first parts.old)) }
    ensures text { concat parts.new ≡ written (length (concat (take first parts.old)) + at) piece.now (concat parts.old) }
    ensures sizes { map length parts.new ≡ map length parts.old }
    ensures len { length (concat parts.new) ≡ length (concat parts.old) }
{
    let mut skip = at;
    let mut done = 0;
    for i in first..parts.len() {
        if done == piece.len() {
            return;
        }
        let len = parts[i].len();
        let begin = skip.min(len);
        let count = (len - begin).min(piece.len() - done);
        overwrite(alloc, &mut parts[i], begin, &piece[done..done + count]);
        skip -= begin;
        done += count;
    }
}
