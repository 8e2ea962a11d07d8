//! What is known of a mode that goes over segments.

ghost use Rattle.std.specs.Prelude.{◌≡◌, length};
ghost use Rattle.aes_block.specs.Outcome.{Becomes};

use aes_block::Skcipher;
use kc_base::Errno;
use sg_walk::Segs;

/// A mode that changes a text in segments as it changes the same text in one piece. No call takes memory.
pub trait SegCipher: Skcipher {
    /// Seals the text in place, under an IV of `iv_len` bytes. `EINVAL` exactly where the mode doesn't take a text of
    /// that length, and the text is then unchanged. Each segment keeps its length.
    fn seal_segs(&self, iv: &[u8], b: &mut Segs) -> Result<(), Errno>
        requires { length iv.now ≡ Self.iv_size self.now }
        ensures text { Becomes result (Self.seals self.now iv.now b.old.text) b.old.text b.new.text }
        ensures sizes { b.new.sizes ≡ b.old.sizes }
        ensures len { length b.new.text ≡ length b.old.text };

    /// Unseals the text in place, under an IV of `iv_len` bytes. `EINVAL` exactly where the mode doesn't take a text of
    /// that length, and the text is then unchanged. Each segment keeps its length.
    fn unseal_segs(&self, iv: &[u8], b: &mut Segs) -> Result<(), Errno>
        requires { length iv.now ≡ Self.iv_size self.now }
        ensures text { Becomes result (Self.unseals self.now iv.now b.old.text) b.old.text b.new.text }
        ensures sizes { b.new.sizes ≡ b.old.sizes }
        ensures len { length b.new.text ≡ length b.old.text };
}
