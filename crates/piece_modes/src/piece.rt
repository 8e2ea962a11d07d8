//! The pieces of a text.

ghost use Rattle.std.specs.Prelude.{◌≡◌, ℕ, List};

use in_step::Text;

/// A piece of a text that is read where it lies.
pub trait ReadPiece {
    /// The bytes of the piece.
    ghost bytes_of: { Self → List ℕ };

    /// The bytes of the piece.
    fn as_bytes(&self) -> &[u8]
        ensures { result.now ≡ bytes_of self.now };
}

/// A piece of a text that is changed in its place, as POSIX's `struct iovec`.
#[repr(C)]
pub struct PieceMut<'a> {
    pub bytes: &'a mut [u8],
}

impl Text for PieceMut<'_> {
    ghost bytes_of = { λ p. p.bytes.now };

    fn bytes(&self) -> &[u8] {
        self.bytes
    }

    fn write(&mut self, at: usize, from: &[u8]) {
        self.bytes[at..at + from.len()].copy_from_slice(from);
    }
}

impl ReadPiece for PieceMut<'_> {
    ghost bytes_of = { λ p. p.bytes.now };

    fn as_bytes(&self) -> &[u8] {
        self.bytes
    }
}
