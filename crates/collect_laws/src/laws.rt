//! The law of what collects deliver.

ghost use Rattle.std.specs.Prelude.{ℕ, List};
ghost use Rattle.board.specs.declared.entry.BoardEntry.{BoardEntry};
ghost use Rattle.collect_laws.specs.Delivered.{DeliversTold, DeliversTheFirst, DeliversAllFinished, DeliversAll};

/// In every legal history, what the collects of a pipeline deliver, one after another, is what it told up to the last
/// of them. The completions among it are those of its first requests, in the order of their submission, each once, with
/// what its own ask means: after a collect those of all up to the first that is not finished.
pub fn collects_deliver<A, O>()
    ensures told { (meaning : A → O) (h : List (BoardEntry A)) (p : ℕ) → DeliversTold meaning h p }
    ensures first { (meaning : A → O) (h : List (BoardEntry A)) (p : ℕ) → DeliversTheFirst meaning h p }
    ensures finished { (meaning : A → O) (h : List (BoardEntry A)) (caller p to : ℕ) → DeliversAllFinished meaning h caller p to }
    ensures all { (meaning : A → O) (h : List (BoardEntry A)) (caller p to : ℕ) → DeliversAll meaning h caller p to }
{}
