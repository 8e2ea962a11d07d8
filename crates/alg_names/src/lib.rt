//! Names of algorithms, as `gcm(aes)`: their grammar, the tree that a text spells, the limits on a name, and the one
//! spelling of a tree.
#![tactic(auto)]

mod draft;
mod grammar;
pub mod laws;
pub mod limits;
mod name_errors;
mod name_tree;
mod parser;
mod printer;

pub use name_errors::NameErr;
pub use name_tree::Name;
pub use parser::{parse_name, reread};
pub use printer::print_name;
