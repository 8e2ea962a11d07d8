//! The MAC of a message that comes in pieces of any length.

ghost use Rattle.std.specs.Prelude.{◌≡◌, ◌+◌, ◌≤◌, ◌++◌, ℕ, List, [], length, take};
ghost use Rattle.std_defs.specs.Cmac.{cmac};

use crate::chain::{chain_block, chain_blocks};
use crate::cmac::Cmac;
use aes_block::BlockCipher;

/// A message on its way to its MAC: the chain over the blocks before the last, the bytes of the last, and how many
/// these are. Each call is to be under the same key.
#[derive(Drop)]
pub struct Message {
    chain: [u8; 16],
    rest: [u8; 16],
    used: usize,
    ghost within: { used ≤ 16 },
}

/// Writes bytes into the block from `used` on.
fn place(rest: &mut [u8; 16], used: usize, bytes: &[u8])
    requires { used + length bytes.now ≤ 16 }
    ensures placed { take (used + length bytes.now) rest.new ≡ take used rest.old ++ bytes.now }
    ensures long { length rest.new ≡ 16 }
{
    rest[used..used + bytes.len()].copy_from_slice(bytes);
}

impl Message {
    ghost use Rattle.cmac_ccm.specs.Streams.{Takes};

    /// No bytes yet.
    pub fn new() -> Message
        ensures { (f : List ℕ → List ℕ) → Takes f [] result }
    {
        Message {
            chain: [0; 16],
            rest: [0; 16],
            used: 0,
        }
    }

    /// Takes more bytes. A message may have any number.
    pub fn add<C: BlockCipher>(&mut self, cipher: &C, bytes: &[u8])
        ensures { let f = C.sealed cipher.now in (m : List ℕ) → Takes f m self.old → Takes f (m ++ bytes.now) self.new }
    {
        let front = bytes.len().min(16 - self.used);
        self.fill(&bytes[..front]);
        if front == bytes.len() {
            return;
        }
        self.pass(cipher, &bytes[front..]);
    }

    /// Takes bytes for which the last block has room.
    fn fill(&mut self, bytes: &[u8])
        requires room { self.old.used + length bytes.now ≤ 16 }
        ensures more { (f : List ℕ → List ℕ) (m : List ℕ) → Takes f m self.old → Takes f (m ++ bytes.now) self.new }
        ensures used { self.new.used ≡ self.old.used + length bytes.now }
    {
        place(&mut self.rest, self.used, bytes);
        self.used += bytes.len();
    }

    /// Takes bytes behind a full block, of which there is one at least.
    fn pass<C: BlockCipher>(&mut self, cipher: &C, bytes: &[u8])
        requires full { self.old.used ≡ 16 }
        requires some { 1 ≤ length bytes.now }
        ensures { let f = C.sealed cipher.now in (m : List ℕ) → Takes f m self.old → Takes f (m ++ bytes.now) self.new }
    {
        chain_block(cipher, &mut self.chain, &self.rest);
        let before = (bytes.len() - 1) / 16;
        chain_blocks(cipher, &mut self.chain, bytes, before);
        place(&mut self.rest, 0, &bytes[16 * before..]);
        self.used = bytes.len() - 16 * before;
    }

    /// A second message that has come as far.
    pub fn copy(&self) -> Message
        ensures { result ≡ self.now }
    {
        Message {
            chain: self.chain,
            rest: self.rest,
            used: self.used,
        }
    }
}

impl<C: BlockCipher + Drop> Cmac<C> {
    ghost use Rattle.cmac_ccm.specs.Streams.{Takes};

    /// The MAC of a message that came under this cipher.
    pub fn end(&self, message: &Message) -> [u8; 16]
        ensures { let f = C.sealed self.now in (m : List ℕ) → Takes f m message.now → result ≡ cmac f m }
    {
        let last = self.last_block(&message.rest[..message.used]);
        let mut chain = message.chain;
        chain_block(self.cipher(), &mut chain, &last);
        chain
    }
}
