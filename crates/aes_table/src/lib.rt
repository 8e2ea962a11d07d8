//! AES by look-ups in tables of 32-bit words: one table of 1,024 words for sealing and four of 256 for unsealing. Which
//! entries are read depends on the key and the text, so this form isn't for where others can time the processor's
//! caches.
#![tactic(auto)]

mod columns;
mod schedule;
mod state;
mod table_aes;
mod tables;

pub use table_aes::TableAes;
