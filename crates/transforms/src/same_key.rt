//! Whether two keys are one.

ghost use Rattle.std.specs.Prelude.{◌≡◌, ◌↔◌, IsTrue};

use crate::keyed::Keyed;
use aes_block::tags_differ;

/// Whether the bytes are the same. Where there are as many, every byte is looked at, wherever the first difference is.
fn same_bytes(a: &[u8], b: &[u8]) -> bool
    ensures { IsTrue result ↔ (a.now ≡ b.now) }
{
    if a.len() != b.len() {
        return false;
    }
    !tags_differ(a, b)
}

impl Keyed {
    /// Whether the other has the same plan and the same key. Every byte of keys of one length is looked at, wherever
    /// the first difference is.
    pub fn is_same(&self, other: &Keyed) -> bool
        ensures { IsTrue result ↔ (self.now ≡ other.now) }
    {
        self.plan == other.plan && same_bytes(self.key.as_slice(), other.key.as_slice())
    }
}
