//! Why a key or a request isn't taken.

use kc_base::Errno;
use std::alloc::{AllocError, AllocFailed};
use thiserror::Error;

/// Why a key or a request isn't taken.
#[derive(Clone, Copy, Debug, PartialEq, Eq, Error)]
pub enum TfmErr {
    /// The plan doesn't take it.
    #[error("the plan doesn't take it")]
    Inval,
    /// Memory was refused.
    #[error("out of memory")]
    Memory,
}

impl From<AllocError> for TfmErr {
    ghost use Rattle.std.specs.Prelude.{◌≡◌};
    ghost use Rattle.transforms.specs.declared.tfm_err.TfmErr.{TfmErr};

    ghost from_gives = { λ _ e. e ≡ TfmErr.Memory };

    fn from(_: AllocError) -> TfmErr {
        TfmErr::Memory
    }
}

impl<T: Drop> From<AllocFailed<T>> for TfmErr {
    ghost use Rattle.std.specs.Prelude.{◌≡◌};
    ghost use Rattle.transforms.specs.declared.tfm_err.TfmErr.{TfmErr};

    ghost from_gives = { λ _ e. e ≡ TfmErr.Memory };

    fn from(_: AllocFailed<T>) -> TfmErr {
        TfmErr::Memory
    }
}

impl From<Errno> for TfmErr {
    ghost use Rattle.std.specs.Prelude.{◌≡◌};
    ghost use Rattle.transforms.specs.declared.tfm_err.TfmErr.{TfmErr};

    ghost from_gives = { λ _ e. e ≡ TfmErr.Inval };

    fn from(_: Errno) -> TfmErr {
        TfmErr::Inval
    }
}
