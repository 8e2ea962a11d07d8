//! From words to a mode.

ghost use Rattle.std.specs.Prelude.{◌≡◌, ◌≢◌, IfErr, IfOk, Ok, Err, map, string_bytes};
ghost use Rattle.clap.specs.Words.{found_of, rows_of};
ghost use Rattle.command_line.specs.CommandLine.{IsWithinLimits, mode_of};
ghost use Rattle.command_line.specs.Steps.{rows_of_words};
ghost use Rattle.command_line.specs.declared.errors.CommandLineError.TheVariants.{NoMemory};

use crate::CommandLineError;
use crate::options::mode_found;
use crate::syntax::script_command;
use clap::ArgMatches;
use clap::error::ErrorKind;
use run_options::Mode;
use std::alloc::Global;

// What `clap` finds in the words.
fn matches_in<'a>(alloc: Global, words: &'a [String]) -> Result<ArgMatches<'a>, CommandLineError>
    ensures found { IfOk result (λ m. rows_of_words (map string_bytes words.now) ≡ Ok (rows_of (found_of m))) }
    ensures refused { IfErr result (λ e. e ≢ NoMemory → rows_of_words (map string_bytes words.now) ≡ Err e) }
{
    let command = script_command(alloc)?;
    match command.try_get_matches_from(words) {
        Ok(matches) => Ok(matches),
        Err(error) => {
            if error.kind() == ErrorKind::OutOfMemory {
                return Err(CommandLineError::NoMemory);
            }
            Err(CommandLineError::Syntax)
        }
    }
}

/// What the program's words ask for, its name not among them. Reads and writes nothing.
///
/// In this order: `Syntax` where `clap` does not accept the words, `CountWithoutLoad`, `LoadWithTrace`,
/// `LoadWithClients`, and `InvalidNumber` where the value of `--workers`, `--clients`, `--load` or `--count` is no
/// number within its limit. `NoMemory` may come in place of any answer.
pub fn parse_words(alloc: Global, words: &[String]) -> Result<Mode, CommandLineError>
    ensures mode { IfOk result (λ mode. mode_of (map string_bytes words.now) ≡ Ok mode) }
    ensures refused { IfErr result (λ e. e ≢ NoMemory → mode_of (map string_bytes words.now) ≡ Err e) }
    ensures bounds { IfOk result IsWithinLimits }
{
    let matches = matches_in(alloc, words)?;
    mode_found(&matches)
}
