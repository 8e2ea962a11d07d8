//! Transforms: a plan under a key, requests to it, and the jobs that answer them.
#![tactic(auto)]

mod admission;
mod aead;
mod any_aead;
mod any_aes;
mod any_cipher;
mod any_mac;
mod ask;
mod in_place;
mod inner;
mod job;
mod keyed;
pub mod laws;
mod mode_requests;
mod request;
mod room;
mod same_key;
mod tags;
mod tfm_err;
mod work;

pub use any_aead::AnyAead;
pub use any_aes::AnyAes;
pub use any_cipher::AnyCipher;
pub use any_mac::AnyMac;
pub use ask::Ask;
pub use inner::Inner;
pub use job::{Job, prepare};
pub use keyed::Keyed;
pub use request::{Dir, Finished, Request};
pub use tags::{largest_tag_size, tag_size};
pub use tfm_err::TfmErr;
