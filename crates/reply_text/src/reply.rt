//! A reply, and the room for more of it.

ghost use Rattle.std.specs.Prelude.{◌≡◌, ◌+◌, ◌*◌, ◌^◌, ◌<◌, ◌≤◌, [], ◌++◌, length, take, IsOk, OnOk, OnErr};
ghost use Rattle.hex.specs.Hex.{encode_lower};

use crate::hexadecimal::write_digits;
use std::alloc::{AllocError, Global};
use std::marker::Model;

/// The text of a reply. Contracts see it, and the number `spare` of bytes more that it takes without memory.
#[derive(Debug, Drop)]
pub struct Reply {
    text: Vec<u8>,
    spare: usize,
}

impl Model for Reply {
    ghost use Rattle.std.specs.Prelude.{◌+◌, ◌≤◌};
    ghost use Rattle.std.specs.Vec.{vec_len, vec_capacity};
    ghost use Rattle.reply_text.specs.Written.{Written};

    ghost Value = { Written };

    ghost view = { λ r. record { text = r.text.items; spare = r.spare } };

    ghost invariant = { λ r. vec_len r.text + r.spare ≤ vec_capacity r.text };
}

impl Reply {
    /// A reply of no text, and no room for any. No memory is taken.
    pub fn new(alloc: Global) -> Reply
        ensures { result ≡ record { text = []; spare = 0 } }
    {
        Reply {
            text: Vec::new(alloc),
            spare: 0,
        }
    }

    /// The text.
    pub fn as_slice(&self) -> &[u8]
        ensures { result.now ≡ self.now.text }
    {
        &self.text
    }

    /// How many bytes the text has.
    pub fn len(&self) -> usize
        ensures { result ≡ length self.now.text }
    {
        self.text.len()
    }

    /// Keeps the first `len` bytes of the text, all where it has no more. The room for further bytes gets no smaller.
    pub fn truncate(&mut self, len: usize)
        ensures text { self.new.text ≡ take len self.old.text }
        ensures room { self.old.spare ≤ self.new.spare }
    {
        self.text.truncate(len);
    }

    /// Takes the room for `more` further bytes at least, where it isn't there; the text stays. Want of memory comes
    /// only where it isn't there, always where it would be 2^63 bytes or more, and leaves all as it was.
    pub fn reserve(&mut self, more: usize) -> Result<(), AllocError>
        ensures text { self.new.text ≡ self.old.text }
        ensures room { OnOk result (more ≤ self.new.spare) }
        ensures kept { self.old.spare ≤ self.new.spare }
        ensures most { OnOk result (more < 2 ^ 63) }
        ensures enough { more ≤ self.old.spare → IsOk result }
        ensures refused { OnErr result (self.new ≡ self.old) }
    {
        self.text.reserve(more)?;
        self.spare = self.spare.max(more);
        Ok(())
    }

    /// Adds a part, for which there is room. No memory is taken.
    pub(crate) fn append(&mut self, part: &[u8])
        requires { length part.now ≤ self.old.spare }
        ensures text { self.new.text ≡ self.old.text ++ part.now }
        ensures spare { self.new.spare + length part.now ≡ self.old.spare }
    {
        self.spare -= part.len();
        let _ = self.text.extend_from_slice(part);
    }

    /// Adds the hexadecimal digits of bytes, for which there is room. No memory is taken.
    pub(crate) fn append_digits(&mut self, bytes: &[u8])
        requires { 2 * length bytes.now ≤ self.old.spare }
        ensures text { self.new.text ≡ self.old.text ++ encode_lower bytes.now }
        ensures spare { self.new.spare + 2 * length bytes.now ≡ self.old.spare }
    {
        let start = self.text.len();
        let more = 2 * bytes.len();
        self.spare -= more;
        let _ = self.text.resize(start + more, 0);
        write_digits(bytes, &mut self.text[start..]);
    }
}
