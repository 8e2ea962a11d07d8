//! What a pipeline tells of its requests, and the list of it that a caller is handed.

ghost use Rattle.std.specs.Prelude.{◌≡◌, ℕ, ◌+◌, ◌<◌, ◌≤◌, [], ◌∷◌, ◌++◌, OnOk, OnErr};

use std::alloc::{AllocError, Global};
use std::marker::Model;

/// What a pipeline tells of a request, by the request's number.
#[derive(Debug, Drop)]
pub enum Callback<F> {
    /// A backlogged request is now among those that the queue has room for.
    Started(u64),
    /// A request is complete, with its outcome.
    Done(u64, F),
}

/// A list of callbacks, with room for more. Contracts see the list, and the number `spare` of callbacks that it takes
/// without memory.
#[derive(Debug, Drop)]
pub struct Callbacks<F> {
    callbacks: Vec<Callback<F>>,
    spare: usize,
}

impl<F> Model for Callbacks<F> {
    ghost use Rattle.std.specs.Prelude.{◌+◌, ◌≤◌};
    ghost use Rattle.std.specs.Vec.{vec_len, vec_capacity};
    ghost use Rattle.kc_base.specs.Handed.{Handed};

    ghost Value = { Handed F };

    ghost view = { λ c. record { list = c.callbacks.items; spare = c.spare } };

    ghost invariant = { λ c. vec_len c.callbacks + c.spare ≤ vec_capacity c.callbacks };
}

impl<F> Callbacks<F> {
    /// No callbacks, and room for none. No memory is taken.
    pub fn new(alloc: Global) -> Callbacks<F>
        ensures { result ≡ record { list = []; spare = 0 } }
    {
        Callbacks {
            callbacks: Vec::new(alloc),
            spare: 0,
        }
    }

    /// The callbacks, in the order in which they came.
    pub fn as_slice(&self) -> &[Callback<F>]
        ensures { result.now ≡ self.now.list }
    {
        self.callbacks.as_slice()
    }

    /// The callbacks themselves, in the order in which they came. No memory is taken.
    pub fn into_vec(self) -> Vec<Callback<F>>
        ensures { result.items ≡ self.list }
    {
        let Callbacks {
            callbacks,
            spare: _,
        } = self;
        callbacks
    }

    /// Makes room for `n` more callbacks at least. Want of memory leaves all as it was.
    pub fn reserve(&mut self, n: usize) -> Result<(), AllocError>
        ensures list { self.new.list ≡ self.old.list }
        ensures room { OnOk result (n ≤ self.new.spare) }
        ensures kept { self.old.spare ≤ self.new.spare }
        ensures refused { OnErr result (self.new ≡ self.old) }
    {
        self.callbacks.reserve(n)?;
        self.spare = self.spare.max(n);
        Ok(())
    }
}

impl<F: Drop> Callbacks<F> {
    /// Appends a callback to the list, where there is room for one. No memory is taken.
    pub fn push(&mut self, callback: Callback<F>)
        requires { 0 < self.old.spare }
        ensures list { self.new.list ≡ self.old.list ++ callback ∷ [] }
        ensures spare { self.new.spare + 1 ≡ self.old.spare }
    {
        self.spare -= 1;
        let _ = self.callbacks.push(callback);
    }
}
