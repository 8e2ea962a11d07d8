//! CBC over pieces.

use crate::front::walk_front;
use crate::piece::PieceMut;
use crate::piece_cipher::PieceCipher;
use aes_block::BlockCipher;
use cbc_mode::Cbc;
use kc_base::Errno;
use seg_modes::{SealingChain, UnsealingChain};

impl<C: BlockCipher + Drop> PieceCipher for Cbc<C> {
    fn seal_pieces(&self, iv: &[u8], pieces: &mut [PieceMut<'_>], n: usize) -> Result<(), Errno> {
        if n % 16 != 0 {
            return Err(Errno::EINVAL);
        }
        let mut first = [0u8; 16];
        first.copy_from_slice(iv);
        walk_front(pieces, n, SealingChain::new(self, first));
        Ok(())
    }

    fn unseal_pieces(&self, iv: &[u8], pieces: &mut [PieceMut<'_>], n: usize) -> Result<(), Errno> {
        if n % 16 != 0 {
            return Err(Errno::EINVAL);
        }
        let mut first = [0u8; 16];
        first.copy_from_slice(iv);
        walk_front(pieces, n, UnsealingChain::new(self, first));
        Ok(())
    }
}
