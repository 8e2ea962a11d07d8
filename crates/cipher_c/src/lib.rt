//! The ciphers as a C program calls them, for tools/check-secrets, which marks keys and texts and looks for branches
//! and addresses that depend on them. It is no interface for other uses: what a call requires is not looked at.
#![tactic(auto)]

mod arrays;
mod authenticated;
mod streams;
