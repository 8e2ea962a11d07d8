//! AES by vectors: eight blocks by their rows in four vectors of 32 bytes; two side by side in one of them. One block
//! is sealed in a vector of 16 bytes, and unsealed in one of 32 that has it twice.
#![tactic(auto)]

mod columns;
mod lane_aes;
mod lane_schedule;
mod lane_words;
mod lookup;
mod one_block;
mod pair_keys;
mod pairs;
mod round_keys;
mod row_keys;
mod rows;
mod sealing;
mod sealing_pair;
mod sealing_rows;
mod sealing_tower;
mod tower;
mod tower_keys;
mod unsealing;

pub use lane_aes::LaneAes;
