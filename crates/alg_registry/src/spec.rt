//! What an entry of the registry is.

ghost use Rattle.std.specs.Prelude.{◌≡◌, IfOk};

use crate::ids::Ids;
use kc_base::Bytes;
use std::alloc::{AllocError, Global};

/// What an algorithm computes.
#[derive(Clone, Copy, Debug, PartialEq, Eq)]
pub enum Kind {
    /// A cipher of one block.
    Cipher,
    /// A hash without a key.
    Hash,
    /// The hash of GCM.
    Ghash,
    /// A text in place, without a tag.
    Skcipher,
    /// A text in place, and a tag over it and over associated bytes.
    Aead,
    /// A tag alone.
    Mac,
}

/// How its requests are run: at once, by padata's workers, or from a queue.
#[derive(Clone, Copy, Debug, PartialEq, Eq)]
pub enum Wrap {
    /// At once, by who makes the request.
    Plain,
    /// By the workers of a pad.
    Pcrypt,
    /// From a queue, one at a time.
    Cryptd,
}

/// An algorithm: the name that it implements, the name of its driver, and the ids of the entries on which it stands.
#[derive(Debug, Drop)]
pub struct Spec {
    /// Its name in terms of algorithms, as `cbc(aes)`.
    pub name: Bytes,
    /// Its name in terms of implementations, as `cbc(aes-lanes)`: no two listed entries have the same.
    pub driver: Bytes,
    pub kind: Kind,
    pub wrap: Wrap,
    /// Of the entries that answer to a name, the one of greatest priority is found.
    pub priority: u32,
    /// The ids of the entries on which it stands. Each is held while this entry is.
    pub below: Ids,
}

impl Spec {
    /// A copy. An error where memory is wanting for it.
    pub fn copy(&self, alloc: Global) -> Result<Spec, AllocError>
        ensures { IfOk result (λ copy. copy ≡ self.now) }
    {
        let name = Bytes::copy_of(alloc, self.name.as_slice())?;
        let driver = Bytes::copy_of(alloc, self.driver.as_slice())?;
        let below = Ids::copy_of(alloc, self.below.as_slice())?;
        Ok(Spec {
            name,
            driver,
            kind: self.kind,
            wrap: self.wrap,
            priority: self.priority,
            below,
        })
    }
}
