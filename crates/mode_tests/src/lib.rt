//! Tests of SHA-256, of texts in segments, of authenc's keys and of the transforms, over what these make public.
//!
//! They stand apart, since a crate that has tests is proved a second time for them.
#![tactic(auto)]

#[cfg(test)]
mod blobs;
#[cfg(test)]
mod digests;
#[cfg(test)]
mod eight_packets;
#[cfg(test)]
mod segments;
#[cfg(test)]
mod vectors;
