//! Lists of texts.

ghost use Rattle.std.specs.Prelude.{◌≡◌, ◌∷◌, ◌++◌, [], OnOk, OnErr};

use kc_base::Bytes;
use std::alloc::{AllocError, Global};
use std::marker::Model;

/// Texts, one after another. Contracts see them as a list of lists of bytes.
#[derive(Debug, Drop)]
pub struct Texts {
    inner: Vec<Bytes>,
}

impl Model for Texts {
    ghost use Rattle.std.specs.Prelude.{List, ℕ};

    ghost Value = { List (List ℕ) };

    ghost view = { λ texts. texts.inner.items };
}

impl Texts {
    /// No texts. No memory is taken.
    pub fn new(alloc: Global) -> Texts
        ensures { result ≡ [] }
    {
        Texts {
            inner: Vec::new(alloc),
        }
    }

    /// Adds a text at the end. Want of memory leaves the texts as they were.
    pub fn push(&mut self, text: Bytes) -> Result<(), AllocError>
        ensures ok { OnOk result (self.new ≡ self.old ++ text ∷ []) }
        ensures err { OnErr result (self.new ≡ self.old) }
    {
        self.inner.push(text)?;
        Ok(())
    }

    /// The texts.
    pub fn as_slice(&self) -> &[Bytes]
        ensures { result.now ≡ self.now }
    {
        self.inner.as_slice()
    }
}
