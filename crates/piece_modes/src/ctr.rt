//! CTR over pieces, and its form of RFC 3686.

ghost use Rattle.std.specs.Prelude.{◌≡◌, ◌≤◌, length, map, take, drop};
ghost use Rattle.std_defs.specs.Modes.{ctr};
ghost use Rattle.piece_modes.specs.Pieces.{text_over, size_of};

use crate::front::walk_front;
use crate::piece::PieceMut;
use crate::piece_cipher::PieceCipher;
use aes_block::BlockCipher;
use ctr_mode::{Ctr, Rfc3686};
use kc_base::Errno;
use seg_modes::CtrStream;

/// Goes over the first `n` bytes by CTR, from a counter block on.
fn count_over<C: BlockCipher + Drop>(
    mode: &Ctr<C>,
    counter: [u8; 16],
    pieces: &mut [PieceMut<'_>],
    n: usize,
)
    requires { n ≤ length (text_over pieces.old) }
    ensures text { take n (text_over pieces.new) ≡ ctr (C.sealed mode.now) counter (take n (text_over pieces.old)) }
    ensures rest { drop n (text_over pieces.new) ≡ drop n (text_over pieces.old) }
    ensures sizes { map size_of pieces.new ≡ map size_of pieces.old }
{
    walk_front(pieces, n, CtrStream::new(mode, counter));
}

impl<C: BlockCipher + Drop> PieceCipher for Ctr<C> {
    fn seal_pieces(&self, iv: &[u8], pieces: &mut [PieceMut<'_>], n: usize) -> Result<(), Errno> {
        let mut counter = [0u8; 16];
        counter.copy_from_slice(iv);
        count_over(self, counter, pieces, n);
        Ok(())
    }

    fn unseal_pieces(&self, iv: &[u8], pieces: &mut [PieceMut<'_>], n: usize) -> Result<(), Errno> {
        self.seal_pieces(iv, pieces, n)
    }
}

impl<C: BlockCipher + Drop> PieceCipher for Rfc3686<C> {
    fn seal_pieces(&self, iv: &[u8], pieces: &mut [PieceMut<'_>], n: usize) -> Result<(), Errno> {
        count_over(self.ctr(), self.first_counter(iv), pieces, n);
        Ok(())
    }

    fn unseal_pieces(&self, iv: &[u8], pieces: &mut [PieceMut<'_>], n: usize) -> Result<(), Errno> {
        self.seal_pieces(iv, pieces, n)
    }
}
