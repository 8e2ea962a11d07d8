//! What a script's lines mean: each is a dialogue with the registry and the board.
#![tactic(auto)]

mod laws;

pub use laws::{
    board_calls_go_on, calls_at_once, calls_in_turn, first_calls, further_calls, lines_lead,
    one_text, references_follow, registry_calls_go_on, turns_follow,
};
