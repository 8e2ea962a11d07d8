//! What a script's calls come to beside workers.

ghost use Rattle.sequential_model.specs.Laws.{AnswersArePlain, RepliesArePlain};

use alg_names::laws::{computed_tree, named_arguments};
use board::{
    collects_hand_out_all, completions_in_order, entries_join, entries_leave, fronts_tell_all,
    histories_go_on, numbers_in_order, only_collects_hand_out, pads_and_queues_tell, queues_hold,
    starts_of_the_backlog,
};
use templates::laws::names_in_the_table;
use transforms::Ask;

/// Calls of the registry, each made when the one before had come to something, come to what they come to where the
/// script is alone, whoever builds.
pub fn answers_are_plain()
    ensures { AnswersArePlain }
{
    computed_tree();
    named_arguments();
    names_in_the_table();
}

/// Calls of the board come to what they come to where the script is alone, as far as they don't depend on time.
pub fn replies_are_plain()
    ensures { RepliesArePlain }
{
    histories_go_on::<Ask>();
    entries_leave::<Ask>();
    entries_join::<Ask>();
    only_collects_hand_out::<Ask>();
    queues_hold::<Ask>();
    pads_and_queues_tell::<Ask>();
    completions_in_order::<Ask>();
    starts_of_the_backlog::<Ask>();
    collects_hand_out_all::<Ask>();
    fronts_tell_all::<Ask>();
    numbers_in_order::<Ask>();
}
