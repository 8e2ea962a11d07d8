//! A script's calls on its registry and its board, which others call too.
#![tactic(auto)]

mod board_caller;
mod look;
mod pipe;
mod registry_caller;
mod shared_calls;
mod stop;

pub use board_caller::BoardCaller;
pub use look::Look;
pub use pipe::{PipelineView, RequestLines};
pub use registry_caller::RegistryCaller;
pub use shared_calls::{gathered_hand_out_all, shared_is_known, sharing_laws};
pub use stop::Stop;
