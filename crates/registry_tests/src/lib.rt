//! Tests of the crates of names, of the registry and of templates, over what these make public.
//!
//! They stand apart, since a crate that has tests is proved a second time for them.
#![tactic(auto)]

#[cfg(test)]
mod base;
#[cfg(test)]
mod given;
#[cfg(test)]
mod names;
#[cfg(test)]
mod registry;
#[cfg(test)]
mod template_instances;
