//! What is known of a mode that goes over pieces.

ghost use Rattle.std.specs.Prelude.{◌≡◌, ◌≤◌, length, map, take, drop};
ghost use Rattle.aes_block.specs.Outcome.{Becomes};
ghost use Rattle.piece_modes.specs.Pieces.{text_over, size_of};

use crate::piece::PieceMut;
use aes_block::Skcipher;
use kc_base::Errno;

/// A mode that changes the first bytes of a text in pieces as it changes the same text in one. No call takes memory.
pub trait PieceCipher: Skcipher {
    /// Seals the first `n` bytes in their place, under an IV of `iv_len` bytes. `EINVAL` exactly where the mode doesn't
    /// take a text of that length: nothing is changed then. What stands behind them stays, and each piece keeps its
    /// length.
    fn seal_pieces(&self, iv: &[u8], pieces: &mut [PieceMut<'_>], n: usize) -> Result<(), Errno>
        requires iv_fits { length iv.now ≡ Self.iv_size self.now }
        requires within { n ≤ length (text_over pieces.old) }
        ensures text { Becomes result (Self.seals self.now iv.now (take n (text_over pieces.old))) (take n (text_over pieces.old))
            (take n (text_over pieces.new)) }
        ensures rest { drop n (text_over pieces.new) ≡ drop n (text_over pieces.old) }
        ensures sizes { map size_of pieces.new ≡ map size_of pieces.old };

    /// Unseals the first `n` bytes in their place, under an IV of `iv_len` bytes. `EINVAL` exactly where the mode
    /// doesn't take a text of that length: nothing is changed then. What stands behind them stays, and each piece keeps
    /// its length.
    fn unseal_pieces(&self, iv: &[u8], pieces: &mut [PieceMut<'_>], n: usize) -> Result<(), Errno>
        requires iv_fits { length iv.now ≡ Self.iv_size self.now }
        requires within { n ≤ length (text_over pieces.old) }
        ensures text { Becomes result (Self.unseals self.now iv.now (take n (text_over pieces.old))) (take n (text_over pieces.old))
            (take n (text_over pieces.new)) }
        ensures rest { drop n (text_over pieces.new) ≡ drop n (text_over pieces.old) }
        ensures sizes { map size_of pieces.new ≡ map size_of pieces.old };
}
