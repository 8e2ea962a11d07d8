//! The law of settled scripts, and worked ones.

ghost use Rattle.std.specs.Prelude.{◌≡◌};
ghost use Rattle.settled_scripts.specs.Examples.{answers_of, kinds_of, sharing, sharing_answers, unregistering, unregistering_answers, held_first, held_first_kinds, two_at_a_time, three_at_once, held_late, polling, held_chain, held_chain_kinds, backlog_of_chain, masked, masked_kinds, masked_to_second};
ghost use Rattle.settled_scripts.specs.PlainRuns.{PassesFollow, PostsFollow, TurnsArePlain};
ghost use Rattle.settled_scripts.specs.PrintedText.{PrintsPlain};
ghost use Rattle.settled_scripts.specs.Settled.{IsSettled};

use dialogues::calls_at_once;
use sequential_model::{answers_are_plain, replies_are_plain};

/// A settled script prints its plain text, beside any number of workers and whatever they do.
pub fn settled_scripts_print_plain()
    ensures { PrintsPlain }
{
    answers_are_plain();
    replies_are_plain();
    calls_at_once();
}

/// A whole turn whose answers don't depend on time says, and asks of the board, what passes where the script is alone.
pub fn turns_are_plain()
    ensures { TurnsArePlain }
{
    answers_are_plain();
    replies_are_plain();
    calls_at_once();
}

/// Where one dialogue follows another, what passes follows too, and so does what is asked of the board.
pub fn passes_follow()
    ensures passes { PassesFollow }
    ensures posts { PostsFollow }
{}

/// What worked scripts are answered, by the definition itself. A queue that is held before its first request may be
/// filled; one that isn't held may take what it has room for whatever was done. A chain that is held so may be filled
/// too, but for its backlog. Under an empty mask a pad takes nothing, and a mask of the second worker alone isn't
/// settled.
pub fn worked_scripts()
    ensures sharing { answers_of sharing ≡ sharing_answers }
    ensures unregistering { answers_of unregistering ≡ unregistering_answers }
    ensures held_first { IsSettled held_first }
    ensures held_first_answers { kinds_of held_first ≡ held_first_kinds }
    ensures two_at_a_time { IsSettled two_at_a_time }
    ensures three_at_once { ¬ IsSettled three_at_once }
    ensures held_late { ¬ IsSettled held_late }
    ensures polling { ¬ IsSettled polling }
    ensures held_chain { IsSettled held_chain }
    ensures held_chain_answers { kinds_of held_chain ≡ held_chain_kinds }
    ensures backlog_of_chain { ¬ IsSettled backlog_of_chain }
    ensures masked { IsSettled masked }
    ensures masked_answers { kinds_of masked ≡ masked_kinds }
    ensures masked_to_second { ¬ IsSettled masked_to_second }
{}
