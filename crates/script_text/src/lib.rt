//! The reading of a script: its lines, their tokens, and the commands that these spell.
#![tactic(auto)]

mod arguments;
mod commands;
mod cutter;
mod hexadecimal;
mod line_parser;
mod line_reader;
mod parts;
mod rows;
mod split;
mod texts;
mod tokens;

pub use commands::{Command, Line};
pub use cutter::LineCutter;
pub use line_parser::{MAX_LINE, read_line};
pub use line_reader::{LineReader, MAX_PIECE};
pub use parts::{Part, cut_parts};
pub use split::{split_line, whole_lines_stay};
pub use texts::Texts;
