//! The laws of the requests and of the output of several scripts at once.

ghost use Rattle.client_texts.specs.Laws.{ClientsInOrder, FirstInOrder, OneOutput};

use dialogues::turns_follow;

/// In each pipeline's one list of requests those of a client stand in the order of its lines, at most one of each line,
/// whatever other clients submit in between.
pub fn requests_in_order()
    ensures client { ClientsInOrder }
    ensures first { FirstInOrder }
{}

/// An input for several clients has one output over two histories.
pub fn one_output()
    ensures { OneOutput }
{
    turns_follow();
}
