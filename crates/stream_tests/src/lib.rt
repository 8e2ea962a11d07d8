//! Tests of texts and messages in pieces: every two cuts give what the standards' vectors give of the whole.
//!
//! They stand apart, since a crate that has tests is proved a second time for them. Each function makes one call with a
//! long contract at most.
#![tactic(auto)]

#[cfg(test)]
mod messages;
#[cfg(test)]
mod texts;
