//! Why no instance came of a name.
ghost use Rattle.std.specs.Prelude.{◌≡◌};
ghost use Rattle.templates.specs.declared.build_errors.BuildErr.TheVariants.{Memory};

use kc_base::Errno;
use std::alloc::{AllocError, AllocFailed};
use thiserror::Error;

/// Why no instance came of a name.
#[derive(Clone, Copy, Debug, PartialEq, Eq, Error)]
pub enum BuildErr {
    /// The name has no instance, for the reason that the error number gives.
    #[error("no instance: {}", .0.name())]
    Fault(Errno),
    /// Memory ran out.
    #[error("out of memory")]
    Memory,
}

impl From<AllocError> for BuildErr {
    ghost from_gives = { λ _ e. e ≡ Memory };

    fn from(_: AllocError) -> BuildErr {
        BuildErr::Memory
    }
}

impl<T: Drop> From<AllocFailed<T>> for BuildErr {
    ghost from_gives = { λ _ e. e ≡ Memory };

    fn from(_: AllocFailed<T>) -> BuildErr {
        BuildErr::Memory
    }
}
