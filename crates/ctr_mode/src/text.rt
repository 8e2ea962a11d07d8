//! CTR over a text that comes in pieces of any length.

ghost use Rattle.std.specs.Prelude.{◌≡◌, ◌+◌, ◌/◌, ◌%◌, ◌^◌, ◌<◌, ◌++◌, ℕ, List, [], length};
ghost use Rattle.std_defs.specs.Blocks.{block_number as number_of, block_bytes as bytes_of};
ghost use Rattle.std_defs.specs.Modes.{ctr};
ghost use Rattle.ctr_mode.specs.Texts.{Holds};

use crate::counter::Counter;
use crate::key_stream::{CounterBlocks, KeyStream};
use aes_block::BlockCipher;

/// A text on its way. Under a key no counter block may serve twice, and each call is to be under the same key.
#[derive(Drop)]
pub struct CtrText {
    stream: KeyStream<Counter>,
}

impl CtrText {
    /// No bytes yet, behind a first counter block.
    pub fn new(first: [u8; 16]) -> CtrText
        ensures { (sealed : List ℕ → List ℕ) → Holds sealed first [] [] result }
    {
        CtrText {
            stream: KeyStream::new(Counter::from_block(first)),
        }
    }

    /// A text that goes on behind `used` bytes from a first counter block on.
    pub fn behind(first: [u8; 16], used: u64) -> CtrText
        ensures { (sealed : List ℕ → List ℕ) (t : List ℕ) → length t ≡ used → Holds sealed first t (ctr sealed first t) result }
    {
        CtrText {
            stream: KeyStream::at(Counter::from_block(first), used),
        }
    }

    /// Seals or unseals more of the text in its place.
    pub fn apply<C: BlockCipher>(&mut self, cipher: &C, piece: &mut [u8])
        ensures { let sealed = C.sealed cipher.now in (first t made : List ℕ) → Holds sealed first t made self.old
            → Holds sealed first (t ++ piece.old) (made ++ piece.new) self.new }
    {
        self.stream.apply(cipher, piece);
    }

    /// The counter block in which the next byte stands, and how many of that block's bytes are used, 0 to 15.
    pub fn place(&self) -> ([u8; 16], usize)
        ensures block { (sealed : List ℕ → List ℕ) (first t made : List ℕ) → Holds sealed first t made self.now
            → result.0 ≡ bytes_of ((number_of first + length t / 16) % 2 ^ 128) }
        ensures used { (sealed : List ℕ → List ℕ) (first t made : List ℕ) → Holds sealed first t made self.now → result.1 ≡ length t % 16 }
        ensures within { result.1 < 16 }
    {
        (self.stream.counters().first(), self.stream.used())
    }

    /// A second text that has come as far.
    pub fn copy(&self) -> CtrText
        ensures { result ≡ self.now }
    {
        CtrText {
            stream: KeyStream::resume(
                Counter {
                    next: self.stream.counters().next,
                },
                self.stream.used(),
            ),
        }
    }
}
