//! What holds of each history that a window stands for.

ghost use Rattle.std.specs.Prelude.{ℕ, List};
ghost use Rattle.reorder_window.specs.Windows.{Kind};
ghost use Rattle.reorder_window.specs.History.{Event};
ghost use Rattle.reorder_window.specs.Laws.{PollsInOrder, WaitsForEach, IsBounded, TakesInOrder, RunsOneAtATime, Begins};

/// What polls handed out is a front of what was submitted, each once, with its number, and was finished before. At most
/// as many as there is room for are in flight. Numbers are taken in order, each once. In a serial window one runs at a
/// time.
pub fn polls_hand_out_in_order<R: Copy>()
    ensures begins { (kind : Kind) (first : ℕ) → Begins R kind first }
    ensures in_order { (kind : Kind) (first : ℕ) (h : List (Event R)) → PollsInOrder kind first h }
    ensures bounded { (kind : Kind) (first : ℕ) (h : List (Event R)) → IsBounded kind first h }
    ensures waits { (kind : Kind) (first : ℕ) (h : List (Event R)) (n : ℕ) → WaitsForEach kind first h n }
    ensures taken { (kind : Kind) (first : ℕ) (h : List (Event R)) → TakesInOrder kind first h }
    ensures one { (kind : Kind) (first : ℕ) (h : List (Event R)) (n : ℕ) → RunsOneAtATime kind first h n }
{}
