//! Poly1305 (RFC 8439, 2.5): the tag of a message under a one-time key.
//!
//! A one-time key serves for one message: whoever has the tags of two can forge others (RFC 8439, 2.5).
#![tactic(auto)]

mod blocks;
mod lanes;
mod limbs;
mod parts;
mod powers;
mod sums;
mod tag;

pub use tag::{Poly1305, message_tag};
