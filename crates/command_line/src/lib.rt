//! The command line of `crypto_script`: `[--workers N] [--trace] [--clients N] [--load SEED] [--count N]`, read by
//! `clap`.
//!
//! Without `--load` a script is asked for, which the program reads from its input, or with `--clients` several at once;
//! `--load` asks for a load of requests that the program makes by itself from a seed. Reading takes no input and writes
//! nothing.
#![tactic(auto)]

mod errors;
mod number;
mod options;
mod parser;
mod syntax;

pub use errors::CommandLineError;
pub use parser::parse_words;
