//! Tests of AES, of GHASH's product and of jobs in chunks, over what these make public. The modes' vectors stand in
//! mode_tests.
//!
//! They stand apart, since a crate that has tests is proved a second time for them.
#![tactic(auto)]

#[cfg(test)]
mod aes;
#[cfg(test)]
mod chunks;
#[cfg(test)]
mod forms;
#[cfg(test)]
mod ghash;
#[cfg(test)]
mod given;
