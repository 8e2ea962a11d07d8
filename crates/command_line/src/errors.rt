//! Why words are no command.
ghost use Rattle.std.specs.Prelude.{◌≡◌};
ghost use Rattle.command_line.specs.declared.errors.CommandLineError.TheVariants.{NoMemory};

use std::alloc::AllocError;
use thiserror::Error;

/// Why words are no command. Where several hold, the first in this order is reported; `NoMemory` may come in place of
/// any.
#[derive(Clone, Copy, Debug, PartialEq, Eq, Error)]
pub enum CommandLineError {
    /// An unknown option or word, an option that stands twice or lacks its value, or a flag with a value.
    #[error("usage: crypto_script [--workers N] [--trace] [--clients N] [--load SEED] [--count N]")]
    Syntax,
    /// `--count` without `--load`.
    #[error("--count stands only beside --load")]
    CountWithoutLoad,
    /// `--load` beside `--trace`.
    #[error("--load does not stand beside --trace")]
    LoadWithTrace,
    /// `--load` beside `--clients`.
    #[error("--load does not stand beside --clients")]
    LoadWithClients,
    /// A value that is no number in decimal digits, that has a sign or a leading zero, or that is above its limit.
    #[error("--workers is at most 16, --clients 1 to 8, --load below 2^64, --count at most 100000, without signs and leading zeros")]
    InvalidNumber,
    /// Memory ran out.
    #[error("out of memory")]
    NoMemory,
}

impl From<AllocError> for CommandLineError {
    ghost from_gives = { λ _ e. e ≡ NoMemory };

    fn from(_: AllocError) -> CommandLineError {
        CommandLineError::NoMemory
    }
}
