//! Why a text is no name.
ghost use Rattle.std.specs.Prelude.{◌≡◌};
ghost use Rattle.alg_names.specs.declared.name_errors.NameErr.TheVariants.{Memory};

use std::alloc::{AllocError, AllocFailed};
use thiserror::Error;

/// Why a text wasn't read as a name within the limits. Where several hold, the first in this order is reported;
/// `Memory` may come in place of any.
#[derive(Clone, Copy, Debug, PartialEq, Eq, Error)]
pub enum NameErr {
    /// The text has more than 127 bytes.
    #[error("a name has at most 127 bytes")]
    TooLong,
    /// The text is no name of the grammar, whatever the limits; so many of its bytes begin one.
    #[error("no name goes on behind the first {0} bytes")]
    Bad(usize),
    /// The name has more than 8 levels.
    #[error("a name has at most 8 levels")]
    TooDeep,
    /// A template of the name has more than 4 arguments.
    #[error("a template has at most 4 arguments")]
    TooMany,
    /// Memory ran out.
    #[error("out of memory")]
    Memory,
}

impl From<AllocError> for NameErr {
    ghost from_gives = { λ _ e. e ≡ Memory };

    fn from(_: AllocError) -> NameErr {
        NameErr::Memory
    }
}

impl<T: Drop> From<AllocFailed<T>> for NameErr {
    ghost from_gives = { λ _ e. e ≡ Memory };

    fn from(_: AllocFailed<T>) -> NameErr {
        NameErr::Memory
    }
}
