//! A list of ids that contracts see as a list of numbers.

ghost use Rattle.std.specs.Prelude.{◌≡◌, [], ◌∷◌, ◌++◌, length, IsTrue, ◌↔◌, IfOk, OnOk, OnErr};

use std::alloc::{AllocError, Global};
use std::marker::Model;

/// A list of ids of entries on the heap.
#[derive(Debug, Drop)]
pub struct Ids {
    inner: Vec<u64>,
}

impl Model for Ids {
    ghost use Rattle.std.specs.Prelude.{List, ℕ};

    ghost Value = { List ℕ };

    ghost view = { λ ids. ids.inner.items };
}

impl Ids {
    /// No ids. No memory is taken.
    pub fn new(alloc: Global) -> Ids
        ensures { result ≡ [] }
    {
        Ids {
            inner: Vec::new(alloc),
        }
    }

    /// The ids of a vector. No memory is taken.
    pub fn from_vec(ids: Vec<u64>) -> Ids
        ensures { result ≡ ids.items }
    {
        Ids { inner: ids }
    }

    /// The ids as a vector. No memory is taken.
    pub fn into_vec(self) -> Vec<u64>
        ensures { result.items ≡ self }
    {
        self.inner
    }

    /// A copy of the part.
    pub fn copy_of(alloc: Global, part: &[u64]) -> Result<Ids, AllocError>
        ensures { IfOk result (λ ids. ids ≡ part.now) }
    {
        Ok(Ids {
            inner: part.to_vec(alloc)?,
        })
    }

    /// Adds one id at the end. Want of memory leaves the ids as they were.
    pub fn push(&mut self, id: u64) -> Result<(), AllocError>
        ensures ok { OnOk result (self.new ≡ self.old ++ id ∷ []) }
        ensures err { OnErr result (self.new ≡ self.old) }
    {
        self.inner.push(id)?;
        Ok(())
    }

    /// The ids, in the order in which they came.
    pub fn as_slice(&self) -> &[u64]
        ensures { result.now ≡ self.now }
    {
        &self.inner
    }

    /// How many ids there are.
    pub fn len(&self) -> usize
        ensures { result ≡ length self.now }
    {
        self.inner.len()
    }

    /// Whether there is no id.
    pub fn is_empty(&self) -> bool
        ensures { IsTrue result ↔ (self.now ≡ []) }
    {
        self.inner.is_empty()
    }
}
