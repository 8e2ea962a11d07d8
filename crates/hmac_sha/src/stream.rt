//! The MAC of a message that comes in pieces of any length.

ghost use Rattle.std.specs.Prelude.{◌≡◌, ◌++◌, ℕ, List, []};
ghost use Rattle.std_defs.specs.Hmac.{hmac_under};
ghost use Rattle.hmac_sha.specs.Streams.{Takes};

use crate::mac::{Mac, outer_digest};
use sha_lanes::Sha256;
use sha2::Digest;

/// A message on its way to its MAC. It has all that it needs of the key.
#[derive(Drop)]
pub struct Message {
    inner: Sha256,
    outer: Sha256,
}

impl Message {
    /// Takes more bytes.
    pub fn add(&mut self, bytes: &[u8])
        ensures { (key m : List ℕ) → Takes key m self.old → Takes key (m ++ bytes.now) self.new }
    {
        self.inner.update(bytes);
    }

    /// The whole MAC, of 32 bytes, of what came.
    pub fn mac(&self) -> [u8; 32]
        ensures { (key m : List ℕ) → Takes key m self.now → result ≡ hmac_under key m }
    {
        outer_digest(&self.outer, self.inner.clone().unwrap())
    }

    /// A second message that has come as far.
    pub fn copy(&self) -> Message
        ensures { (key m : List ℕ) → Takes key m self.now → Takes key m result }
    {
        Message {
            inner: self.inner.clone().unwrap(),
            outer: self.outer.clone().unwrap(),
        }
    }
}

impl Mac {
    /// No bytes of a message yet.
    pub fn begin(&self) -> Message
        ensures { Takes self.now [] result }
    {
        Message {
            inner: self.inner.clone().unwrap(),
            outer: self.outer.clone().unwrap(),
        }
    }
}
