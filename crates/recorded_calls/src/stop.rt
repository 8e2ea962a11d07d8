//! Why a session goes no further.

use board::BoardErr;
use std::alloc::{AllocError, AllocFailed};
use thiserror::Error;

/// Why a session goes no further. It takes no line after this.
#[derive(Clone, Copy, Debug, PartialEq, Eq, Error)]
pub enum Stop {
    /// Memory is wanting.
    #[error("out of memory")]
    Memory,
}

impl From<AllocError> for Stop {
    ghost from_gives = { λ _ _. Unit {0} };

    fn from(_: AllocError) -> Stop {
        Stop::Memory
    }
}

impl From<BoardErr> for Stop {
    ghost from_gives = { λ _ _. Unit {0} };

    fn from(_: BoardErr) -> Stop {
        Stop::Memory
    }
}

impl<T: Drop> From<AllocFailed<T>> for Stop {
    ghost from_gives = { λ _ _. Unit {0} };

    fn from(_: AllocFailed<T>) -> Stop {
        Stop::Memory
    }
}
