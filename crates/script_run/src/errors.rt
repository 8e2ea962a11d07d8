//! Why a run did not reach the end.

ghost use Rattle.std.specs.Prelude.{◌≡◌};
ghost use Rattle.script_run.specs.Statuses.{of_input, of_output, status_of};
ghost use Rattle.script_run.specs.declared.errors.RunError.TheVariants.{NoMemory as MemoryWants};

use kc_base::{InputError, SinkError};
use std::alloc::AllocError;
use thiserror::Error;

/// The status where the words are no command.
pub const USAGE: u8 = 2;

/// The status where memory is wanting.
pub const NO_MEMORY: u8 = 5;

/// Why a run did not reach the end.
#[derive(Clone, Copy, Debug, PartialEq, Eq, Error)]
pub enum RunError {
    /// The words are no command.
    #[error("the words are no command")]
    Usage,
    /// A read of the source failed.
    #[error("a read failed")]
    ReadFault,
    /// A write to the sink failed.
    #[error("a write failed")]
    WriteFault,
    /// Memory is wanting.
    #[error("out of memory")]
    NoMemory,
    /// The source has more bytes than may come.
    #[error("the input is too long")]
    TooLong,
}

impl From<AllocError> for RunError {
    ghost from_gives = { λ _ e. e ≡ MemoryWants };

    fn from(_: AllocError) -> Self {
        RunError::NoMemory
    }
}

impl From<InputError> for RunError {
    ghost from_gives = { λ e r. r ≡ of_input e };

    fn from(error: InputError) -> Self {
        match error {
            InputError::Failed => RunError::ReadFault,
            InputError::NoMemory => RunError::NoMemory,
            InputError::TooLong => RunError::TooLong,
        }
    }
}

impl From<SinkError> for RunError {
    ghost from_gives = { λ e r. r ≡ of_output e };

    fn from(error: SinkError) -> Self {
        match error {
            SinkError::Failed => RunError::WriteFault,
            SinkError::NoMemory => RunError::NoMemory,
        }
    }
}

/// The program's status: 0 where no line is malformed, 1 where one is; and where the run did not reach the end, 2 for
/// `Usage`, 3 for `ReadFault`, 4 for `WriteFault`, 5 for `NoMemory` and 6 for `TooLong`.
pub fn status_by(answer: Result<bool, RunError>) -> u8
    ensures { result ≡ status_of answer }
{
    match answer {
        Ok(false) => 0,
        Ok(true) => 1,
        Err(RunError::Usage) => USAGE,
        Err(RunError::ReadFault) => 3,
        Err(RunError::WriteFault) => 4,
        Err(RunError::NoMemory) => NO_MEMORY,
        Err(RunError::TooLong) => 6,
    }
}
