//! CTR over segments, and its form of RFC 3686.

ghost use Rattle.std.specs.Prelude.{◌≡◌, length};
ghost use Rattle.std_defs.specs.Modes.{ctr};
ghost use Rattle.seg_modes.specs.Ctr.{Counts, counts_none, counts_on};

use crate::seg_cipher::SegCipher;
use aes_block::{BlockCipher, Skcipher};
use ctr_mode::{Ctr, Rfc3686};
use kc_base::Errno;
use sg_walk::{Segs, Walker};
use std::marker::Model;
use std_defs::{block_bytes, block_number};

/// The key stream of CTR on its way over a text: contracts see the cipher and the counter block of what comes next.
#[derive(Drop)]
pub struct CtrStream<'a, C: BlockCipher + Drop> {
    mode: &'a Ctr<C>,
    counter: [u8; 16],
}

impl<'a, C: BlockCipher + Drop> Model for CtrStream<'a, C> {
    ghost use Rattle.std.specs.Prelude.{ℕ, List};

    ghost Value = { C × List ℕ };

    ghost view = { λ at. (at.mode.now, at.counter) };
}

impl<'a, C: BlockCipher + Drop> CtrStream<'a, C> {
    /// The key stream from a counter block on. Under a key no counter block may serve twice.
    pub fn new(mode: &'a Ctr<C>, counter: [u8; 16]) -> CtrStream<'a, C>
        ensures { result ≡ (mode.now, counter) }
    {
        CtrStream { mode, counter }
    }
}

impl<'a, C: BlockCipher + Drop> Walker for CtrStream<'a, C> {
    ghost makes = { λ u text made v. Counts C.sealed u text made v };

    ghost stays = { λ walker. counts_none C.sealed walker };

    ghost joins = { λ u v w a b made_a made_b whole first second. counts_on C.sealed u v w a b made_a made_b whole first second };

    fn step(&mut self, piece: &mut [u8]) {
        // a text of any length is taken
        let _ = self.mode.seal(&self.counter, piece);
        let blocks = (piece.len() / 16) as u128;
        self.counter = block_bytes(block_number(self.counter).wrapping_add(blocks));
    }
}

/// Goes over the text by CTR, from a counter block on.
fn count_over<C: BlockCipher + Drop>(mode: &Ctr<C>, counter: [u8; 16], b: &mut Segs)
    ensures text { b.new.text ≡ ctr (C.sealed mode.now) counter b.old.text }
    ensures sizes { b.new.sizes ≡ b.old.sizes }
    ensures len { length b.new.text ≡ length b.old.text }
{
    let mut stream = CtrStream::new(mode, counter);
    b.walk(&mut stream);
}

impl<C: BlockCipher + Drop> SegCipher for Ctr<C> {
    fn seal_segs(&self, iv: &[u8], b: &mut Segs) -> Result<(), Errno> {
        let mut counter = [0u8; 16];
        counter.copy_from_slice(iv);
        count_over(self, counter, b);
        Ok(())
    }

    fn unseal_segs(&self, iv: &[u8], b: &mut Segs) -> Result<(), Errno> {
        self.seal_segs(iv, b)
    }
}

impl<C: BlockCipher + Drop> SegCipher for Rfc3686<C> {
    fn seal_segs(&self, iv: &[u8], b: &mut Segs) -> Result<(), Errno> {
        count_over(self.ctr(), self.first_counter(iv), b);
        Ok(())
    }

    fn unseal_segs(&self, iv: &[u8], b: &mut Segs) -> Result<(), Errno> {
        self.seal_segs(iv, b)
    }
}
