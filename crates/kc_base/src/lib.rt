//! The base of all crates: error numbers, lists of bytes, lists of callbacks, and sources and sinks of bytes.
#![tactic(auto)]

mod byte_list;
mod callback_list;
mod error_numbers;
mod in_memory;
mod streams;
mod transfer;

pub use byte_list::Bytes;
pub use callback_list::{Callback, Callbacks};
pub use error_numbers::Errno;
pub use in_memory::{MemSink, MemSource, RepeatSource, SureSink, SureSource};
pub use streams::{ReadAnswer, Sink, Source, WriteAnswer};
pub use transfer::{InputError, SinkError, read_input, write_and_flush, write_piece};
