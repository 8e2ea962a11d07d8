//! The law of loads.

ghost use Rattle.load_mode.specs.Turns.{LoadsComeTo};

use board::{completions_in_order, histories_go_on, only_collects_hand_out, pads_and_queues_tell};
use settled_scripts::{passes_follow, turns_are_plain};
use transforms::Ask;

/// A load comes to the hash of its requests' values, and loads both pads with them, beside any number of workers and
/// whatever they do.
pub fn loads_come_to()
    ensures { LoadsComeTo }
{
    turns_are_plain();
    passes_follow();
    histories_go_on::<Ask>();
    completions_in_order::<Ask>();
    only_collects_hand_out::<Ask>();
    pads_and_queues_tell::<Ask>();
}
