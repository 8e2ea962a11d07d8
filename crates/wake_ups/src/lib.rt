//! That no wake-up of a board's workers is lost: a law of a machine whose steps are those of the wake-ups and of their
//! callers.
#![tactic(auto)]

mod laws;

pub use laws::{
    a_worker_is_woken, no_wake_up_is_lost, no_wake_up_is_lost_with_queues,
    the_number_alone_loses_one, words_lead_on,
};
