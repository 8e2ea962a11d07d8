//! Load mode: requests that are drawn from a seed, and the line that says what they came to.
#![tactic(auto)]

mod drawn_requests;
mod laws;
mod load_answer;

pub use drawn_requests::{draw_request, opening_line};
pub use laws::loads_come_to;
pub use load_answer::{hash_completions, load_text};
