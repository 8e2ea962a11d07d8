//! What one more entry is to a history, what it leaves, and how a pipeline's requests are numbered.

ghost use Rattle.std.specs.Prelude.{ℕ, List};
ghost use Rattle.board.specs.declared.entry.BoardEntry.{BoardEntry};
ghost use Rattle.board.specs.NextEntry.{GoesOn, EndsRight, IsRightAlone, AreRightAlone, IsOfOne, LeavesBirth, LeavesClosed, LeavesShared, LeavesCollected, LeavesSubmissions, LeavesFinished, LeavesFront, LeavesTakers, LeavesShut, LeaveInOrder, FinishesPassed, FrontIsPassed, RunsOneByOne};

/// A legal history goes on by an entry that is right, and ends with one. An entry is of one pipeline at most, and is
/// right there by that pipeline's own entries alone.
pub fn histories_go_on<A>()
    ensures more { (h : List (BoardEntry A)) (e : BoardEntry A) → GoesOn h e }
    ensures last { (h : List (BoardEntry A)) (e : BoardEntry A) → EndsRight h e }
    ensures alone { (h : List (BoardEntry A)) (e : BoardEntry A) (p : ℕ) → IsRightAlone h e p }
    ensures each { (h : List (BoardEntry A)) (p : ℕ) → AreRightAlone h p }
    ensures one { (e : BoardEntry A) (p q : ℕ) → IsOfOne e p q }
{}

/// What an entry leaves of those before it: who made the pipeline, once that is known; and all of which it is no entry.
pub fn entries_leave<A>()
    ensures birth { (es : List (BoardEntry A)) (e : BoardEntry A) → LeavesBirth es e }
    ensures closed { (es : List (BoardEntry A)) (e : BoardEntry A) → LeavesClosed es e }
    ensures shared { (es : List (BoardEntry A)) (e : BoardEntry A) → LeavesShared es e }
    ensures collected { (es : List (BoardEntry A)) (e : BoardEntry A) → LeavesCollected es e }
    ensures submissions { (es : List (BoardEntry A)) (e : BoardEntry A) → LeavesSubmissions es e }
    ensures finished { (es : List (BoardEntry A)) (e : BoardEntry A) → LeavesFinished es e }
    ensures front { (es : List (BoardEntry A)) (e : BoardEntry A) → LeavesFront es e }
    ensures takers { (es : List (BoardEntry A)) (e : BoardEntry A) (n : ℕ) → LeavesTakers es e n }
    ensures shut { (h : List (BoardEntry A)) (e : BoardEntry A) → LeavesShut h e }
{}

/// In every legal history requests leave a queue in the order in which they were accepted, only what is past the queue
/// is finished, and a queue runs one job at a time.
pub fn numbers_in_order<A>()
    ensures leave { (h : List (BoardEntry A)) (p : ℕ) → LeaveInOrder h p }
    ensures finished { (h : List (BoardEntry A)) (p n : ℕ) → FinishesPassed h p n }
    ensures front { (h : List (BoardEntry A)) (p : ℕ) → FrontIsPassed h p }
    ensures serial { (h : List (BoardEntry A)) (q : ℕ) → RunsOneByOne h q }
{}
