//! The templates: what each asks for, what it makes of what it gets, the plan of what was made, and building by them.
#![tactic(auto)]

mod build_errors;
mod driver_plans;
mod instances;
pub mod laws;
mod nested_names;
mod requirements;
mod resolution;
mod template_words;

pub use build_errors::BuildErr;
pub use driver_plans::{AesForm, GhashForm, Plan, plan_of};
pub use instances::derive;
pub use nested_names::nesting;
pub use requirements::children;
pub use resolution::{resolve_alone, resolve_outright};
