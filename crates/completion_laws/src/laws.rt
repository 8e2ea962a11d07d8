//! The law of what a script is told.

ghost use Rattle.std.specs.Prelude.{ℕ, List};
ghost use Rattle.board.specs.declared.entry.BoardEntry.{BoardEntry};
ghost use Rattle.transforms.specs.declared.ask.Ask.{Ask};
ghost use Rattle.completion_laws.specs.Told.{TellsTheFirst, TellsAllFinished, TellsAll, TellsWhatWasTold};

/// In every legal history, the completions that the maker of a pipeline was told are those of its first requests, in
/// the order of their submission, each once, with the line and the value of its own ask: after a collect those of all
/// up to the first that is not finished, and after a drain those of all. Besides completions it was told that requests
/// have started: all its notices are what the pipeline told up to its last collect.
pub fn told_in_order()
    ensures first { (h : List (BoardEntry Ask)) (caller p : ℕ) → TellsTheFirst h caller p }
    ensures finished { (h : List (BoardEntry Ask)) (caller p to : ℕ) → TellsAllFinished h caller p to }
    ensures notices { (h : List (BoardEntry Ask)) (caller p : ℕ) → TellsWhatWasTold h caller p }
    ensures all { (h : List (BoardEntry Ask)) (caller p to : ℕ) → TellsAll h caller p to }
{}
