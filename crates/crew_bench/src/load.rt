//! Jobs that take a while.

ghost use Rattle.std.specs.Prelude.{◌≡◌, ℕ, IfOk};
ghost use Rattle.std.specs.Arc.{arc_value};

use board::Work;
use kc_base::{Callback, Callbacks};
use std::alloc::{AllocError, Global};
use std::marker::Model;
use std::sync::Arc;

/// A job of so many turns.
#[derive(Drop)]
pub(crate) struct Load {
    pub(crate) turns: u64,
}

/// What came of a job. Contracts see nothing of it.
#[derive(Drop)]
pub(crate) struct Spun {
    last: u64,
}

impl Model for Spun {
    ghost Value = { Unit {0} };

    ghost view = { λ s. tt };
}

impl Spun {
    fn last(&self) -> u64 {
        self.last
    }
}

fn spin(turns: u64) -> u64 {
    let mut x = turns;
    for i in 0..turns {
        x = x.wrapping_mul(6364136223846793005).wrapping_add(i);
    }
    x
}

impl Work for Load {
    type Ask = u64;

    type Out = Spun;

    ghost asked = { λ l. l.turns };

    ghost meaning = { λ n. tt };

    ghost weight = { λ n. 0 };

    fn ask(&self, alloc: Global) -> Result<Arc<u64, Global>, AllocError> {
        Ok(Arc::new(alloc, self.turns)?)
    }

    fn size(&self) -> u64 {
        0
    }

    fn run(self) -> Spun {
        Spun {
            last: spin(self.turns),
        }
    }
}

/// One number of all that came out, so that no job can be left out.
pub(crate) fn folded(into: &Callbacks<Spun>) -> u64 {
    let mut all = 0u64;
    for callback in into.as_slice() {
        if let Callback::Done(_, spun) = callback {
            all ^= spun.last();
        }
    }
    all
}
