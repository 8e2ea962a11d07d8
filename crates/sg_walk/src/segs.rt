//! A text in segments.

ghost use Rattle.std.specs.Prelude.{◌≡◌, ◌+◌, ◌^◌, ◌<◌, ◌≤◌, ◌==◌, true, false, [], length, take, drop, IsTrue, ◌↔◌, IfOk, MatchOption};
ghost use Rattle.std.specs.List.{concat, sum};
ghost use Rattle.sg_walk.specs.Segments.{segmented, written, cut_sizes};

use crate::full_walk::walk_parts;
use crate::parts::{copies, cut_to, joined, total_len};
use crate::segment_copies::{gather, scatter};
use crate::sizes;
use crate::sizes::Sizes;
use crate::walker::Walker;
use kc_base::Bytes;
use std::alloc::{AllocError, Global};
use std::marker::Model;

/// A text that lies in segments, as a scatterlist has it: each in a piece of memory of its own, or all one behind the
/// other in a single piece, as entries of a scatterlist may share a page. Contracts see the text, which is the segments
/// one after another, and how many bytes each segment has. A segment may be empty. Only `cut_from`, `join` and `copy`
/// take memory.
#[derive(Debug, Drop)]
pub struct Segs {
    parts: Vec<Bytes>,
    // The sizes of the segments, where they lie in a single piece.
    within: Option<Sizes>,
    len: usize,
}

impl Model for Segs {
    ghost use Rattle.std.specs.Prelude.{◌≡◌, length, map};
    ghost use Rattle.std.specs.List.{concat};
    ghost use Rattle.sg_walk.specs.Segments.{Segmented};
    ghost use Rattle.sg_walk.specs.Layout.{sizes_in, LieIn};

    ghost Value = { Segmented };

    ghost view = { λ segs. record { text = concat segs.parts.items; sizes = sizes_in (map length segs.parts.items) segs.within } };

    ghost invariant = { λ segs. (segs.len ≡ length (concat segs.parts.items)) × LieIn (map length segs.parts.items) segs.within };
}

impl Segs {
    /// The text of these segments, each a piece of its own. Together they have fewer than 2^63 bytes.
    pub fn from_parts(parts: Vec<Bytes>) -> Segs
        requires { length (concat parts.items) < 2 ^ 63 }
        ensures { result ≡ segmented parts.items }
    {
        let len = total_len(&parts);
        Segs {
            parts,
            within: None,
            len,
        }
    }

    /// The text of these bytes, which stay one piece, in segments of these sizes, whose sum is the number of bytes.
    pub fn cut_from(alloc: Global, bytes: Bytes, sizes: Vec<usize>) -> Result<Segs, AllocError>
        requires { sum sizes.items ≡ length bytes }
        ensures { IfOk result (λ segs. segs ≡ record { text = bytes; sizes = sizes.items }) }
    {
        let len = bytes.len();
        let mut parts = Vec::with_capacity(alloc, 1)?;
        parts.push(bytes)?;
        Ok(Segs {
            parts,
            within: Some(Sizes::from_vec(sizes)),
            len,
        })
    }

    /// How many bytes the text has.
    pub fn len(&self) -> usize
        ensures { result ≡ length self.now.text }
    {
        self.len
    }

    pub fn is_empty(&self) -> bool
        ensures { IsTrue result ↔ (self.now.text ≡ []) }
    {
        self.len == 0
    }

    /// How many segments the text has.
    pub fn count(&self) -> usize
        ensures { result ≡ length self.now.sizes }
    {
        match &self.within {
            Some(sizes) => sizes.count(),
            None => self.parts.len(),
        }
    }

    /// The pieces of memory that the text lies in, in their order. Segments may share one.
    pub fn parts(&self) -> &[Bytes]
        ensures { concat result.now ≡ self.now.text }
    {
        &self.parts
    }

    /// The text, where it is one segment.
    pub fn single(&self) -> Option<&[u8]>
        ensures { MatchOption result
            ((length self.now.sizes == 1) ≡ false)
            (λ bytes. ((length self.now.sizes == 1) ≡ true) × (bytes.now ≡ self.now.text)) }
    {
        if self.count() != 1 {
            return None;
        }
        match self.parts.as_slice() {
            [part] => Some(part.as_slice()),
            _ => None,
        }
    }

    /// Fills `into` with the bytes of the text from `at` on. The text has as many there.
    pub fn copy_out(&self, at: usize, into: &mut [u8])
        requires { at + length into.old ≤ length self.now.text }
        ensures { into.new ≡ take (length into.old) (drop at self.now.text) }
    {
        gather(&self.parts, 0, at, into);
    }

    /// Writes the piece over the bytes of the text from `at` on, within the text. Each segment keeps its length.
    pub fn copy_in(&mut self, at: usize, piece: &[u8])
        requires { at + length piece.now ≤ length self.old.text }
        ensures text { self.new.text ≡ written at piece.now self.old.text }
        ensures sizes { self.new.sizes ≡ self.old.sizes }
        ensures len { length self.new.text ≡ length self.old.text }
    {
        let alloc = *self.parts.allocator();
        scatter(alloc, &mut self.parts, 0, at, piece);
    }

    /// The text in one piece. What lies in one already is handed over as it is.
    pub fn join(self, alloc: Global) -> Result<Bytes, AllocError>
        ensures { IfOk result (λ bytes. bytes ≡ self.text) }
    {
        let Segs { mut parts, len, .. } = self;
        if parts.len() == 1 {
            return Ok(parts.remove(0));
        }
        joined(alloc, &parts, len)
    }

    /// A copy, in as many segments of the same lengths.
    pub fn copy(&self, alloc: Global) -> Result<Segs, AllocError>
        ensures { IfOk result (λ copy. copy ≡ self.now) }
    {
        let parts = copies(alloc, &self.parts)?;
        let within = sizes::copy_of(alloc, &self.within)?;
        Ok(Segs {
            parts,
            within,
            len: self.len,
        })
    }

    /// Keeps the first `len` bytes of the text, which has as many: each segment keeps its front, and those behind are
    /// empty then.
    pub fn cut(&mut self, len: usize)
        requires { len ≤ length self.old.text }
        ensures text { self.new.text ≡ take len self.old.text }
        ensures sizes { self.new.sizes ≡ cut_sizes len self.old.sizes }
    {
        let alloc = *self.parts.allocator();
        cut_to(alloc, &mut self.parts, len);
        sizes::cut_to(&mut self.within, len);
        self.len = len;
    }

    /// Has the walker go over the text from its front: over a segment's whole blocks of 16 bytes where they lie, and,
    /// where a segment ends within a block, over a copy of the next 128 bytes, or of what is left of the text, which is
    /// written back; then on from there. Each segment keeps its length.
    pub fn walk<W: Walker>(&mut self, walker: &mut W)
        ensures text { W.makes walker.old self.old.text self.new.text walker.new }
        ensures sizes { self.new.sizes ≡ self.old.sizes }
        ensures len { length self.new.text ≡ length self.old.text }
    {
        let alloc = *self.parts.allocator();
        walk_parts(alloc, &mut self.parts, walker);
    }
}
