//! Pipes as C calls them: requests in the caller's own memory, which run under the caller's threads and come back in
//! the order of submission. `perdoaze_c` exports the calls.
#![tactic(auto)]

pub mod calls;
mod laws;
mod op;
mod op_work;
mod pipe;
mod pipe_error;
mod pipe_handle;
mod pipe_place;

pub use op::Op;
pub use op_work::run_each;
pub use pipe::{Pipe, PipeKind};
pub use pipe_error::{PipeErr, count_code, flag_code, unit_code};
pub use pipe_place::PipePlace;
