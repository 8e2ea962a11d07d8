//! Numbers and bytes drawn from a seed, the same on every machine: for loads, `bulk`, tests and measurements, and for
//! no secret.
#![tactic(auto)]

mod generator;
#[cfg(test)]
mod tests;

pub use generator::Generator;
