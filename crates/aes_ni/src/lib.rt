//! AES by the processor's instructions, one block and eight at a time. The functions of `instructions` are the
//! instructions only in a build that puts these there: a caller asks `has_instructions` first.
#![tactic(auto)]

mod eight_blocks;
mod instruction_words;
mod key_schedule;
mod ni_aes;
mod one_block;
mod round_keys;

pub use ni_aes::NiAes;
