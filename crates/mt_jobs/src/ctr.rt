//! CTR in chunks.

ghost use Rattle.std.specs.Prelude.{◌≡◌, ◌%◌, length};
ghost use Rattle.std_defs.specs.Modes.{ctr};
ghost use Rattle.mt_jobs.specs.Jobs.{CutsAt};
ghost use Rattle.mt_jobs.specs.Pieces.{IsSealedAt};

use crate::counter::BlocksFrom;
use aes_block::BlockCipher;
use ctr_mode::apply_key_stream;
use std::thread;
use std::thread::Threads;
use std_defs::block_number;

/// Seals the text in place by CTR, or unseals it, under the first counter block `iv`. It is cut into chunks of `chunk`
/// bytes, a multiple of 16 above 0 or no fewer than the text has, each of which may have a thread of its own, and
/// becomes what one thread makes of it. It takes no memory.
pub fn ctr_chunked<R: Threads + Sync, C: BlockCipher + Sync>(
    rt: &R,
    cipher: &C,
    iv: &[u8; 16],
    text: &mut [u8],
    chunk: usize,
)
    requires { CutsAt 16 chunk (length text.old) }
    ensures { text.new ≡ ctr (C.sealed cipher.now) iv.now text.old }
{
    if chunk >= text.len() {
        return seal_piece(cipher, iv, 0, text);
    }
    let seal = |start: usize, piece: &mut [u8]|
        requires { start % 16 ≡ 0 }
        ensures { IsSealedAt (C.sealed cipher.entry.now) iv.entry.now start piece.entry.now piece.exit.now }
    { seal_piece(cipher, iv, start, piece) };
    thread::for_each_chunk_mut(rt, text, chunk, &seal);
}

/// Seals the piece that begins at byte `start` of a text.
fn seal_piece<C: BlockCipher>(cipher: &C, iv: &[u8; 16], start: usize, piece: &mut [u8])
    requires { start % 16 ≡ 0 }
    ensures { IsSealedAt (C.sealed cipher.now) iv.now start piece.old piece.new }
{
    let first = block_number(*iv).wrapping_add((start / 16) as u128);
    apply_key_stream(cipher, BlocksFrom(first), piece);
}
