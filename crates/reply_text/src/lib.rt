//! The text of answers.
#![tactic(auto)]

mod answers;
mod hexadecimal;
mod origin;
mod replies;
mod reply;
mod sentences;

pub use answers::Answer;
pub use origin::Origin;
pub use reply::Reply;
