//! Work can go on while there is any, and comes to an end.

ghost use Rattle.std.specs.Prelude.{ℕ, List};
ghost use Rattle.board.specs.declared.entry.BoardEntry.{BoardEntry};
ghost use Rattle.alg_registry.specs.declared.entry.RegEntry.{RegEntry};
ghost use Rattle.progress_laws.specs.Builders.{NoRing};
ghost use Rattle.progress_laws.specs.Progress.{WorkGoesOn, SomeServes, WorkStopsDone, WorkIsWanted, WorksFew, BoardWorksFew, BoardIsShort, WorkAloneEnds};

use alg_names::laws::{computed_tree, named_arguments};

/// In every legal history each pipeline with a request that isn't finished, and isn't kept in its queue by a hold, can
/// go on: who took its front request may finish it, or each caller that may serve the pipeline may take that request or
/// pass one on; and somebody may serve it. So where no work is right any more, all that isn't held is finished. And no
/// work is right on a pipeline that has none.
pub fn work_goes_on<A>()
    ensures goes_on { (h : List (BoardEntry A)) (p : ℕ) → WorkGoesOn h p }
    ensures some { (h : List (BoardEntry A)) (p : ℕ) → SomeServes h p }
    ensures done { (h : List (BoardEntry A)) (p : ℕ) → WorkStopsDone h p }
    ensures wanted { (h : List (BoardEntry A)) (e : BoardEntry A) (p : ℕ) → WorkIsWanted h e p }
{}

/// No legal history has more than three entries of work for each request that was accepted, and besides it has the
/// calls that aren't work. So work alone, in whatever order it comes, ends.
pub fn work_is_bounded<A>()
    ensures each { (h : List (BoardEntry A)) (p : ℕ) → WorksFew h p }
    ensures all { (h : List (BoardEntry A)) → BoardWorksFew h }
    ensures entries { (h : List (BoardEntry A)) → BoardIsShort h }
    ensures ends { (h es : List (BoardEntry A)) → WorkAloneEnds h es }
{}

/// In every legal history of faithful builds no larval waits for itself, through whatever others: a look for a child is
/// for a name that has fewer words, or is `ctr(X)` for a `gcm(X)`.
pub fn larvals_wait_in_no_ring()
    ensures { (h : List RegEntry) → NoRing h }
{
    computed_tree();
    named_arguments();
}
