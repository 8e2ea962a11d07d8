//! The transforms as C calls them: places for a transform, and what each call does to one. `perdoaze_c` exports the
//! calls.
#![tactic(auto)]

pub mod calls;
mod comparison;
mod direct;
mod duplicate;
mod encryption;
mod handle;
mod info;
mod key_settings;
pub mod laws;
mod loose;
mod macs;
mod many;
mod named_transforms;
mod over_pieces;
mod pieces;
mod plan_info;
mod requests;
mod slot;
mod status;
mod transform;
mod vectored;

pub use comparison::compare;
pub use encryption::Encryption;
pub use info::Info;
pub use loose::Loose;
pub use named_transforms::init;
pub use piece_modes::PieceMut;
pub use pieces::Piece;
pub use plan_info::{list, tell};
pub use slot::Slot;
pub use status::Status;
pub use transform::Transform;
