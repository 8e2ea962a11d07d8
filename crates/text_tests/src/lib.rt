//! Tests of the crates of text, over what these make public.
//!
//! They stand apart, since a crate that has tests is proved a second time for them.
#![tactic(auto)]

#[cfg(test)]
mod checked_traces;
#[cfg(test)]
mod digits;
#[cfg(test)]
mod parts;
#[cfg(test)]
mod replies;
#[cfg(test)]
mod script_lines;
#[cfg(test)]
mod words;
#[cfg(test)]
mod written_traces;
