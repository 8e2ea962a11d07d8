//! authenc: a cipher under a MAC (encrypt, then MAC), and the blob of its two keys.
#![tactic(auto)]

mod blob;
mod laws;
mod sealed;

pub use blob::{Blob, read_blob};
pub use laws::authenc_opens_what_it_sealed;
pub use sealed::Authenc;
