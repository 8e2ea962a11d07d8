//! What stays of a board's history while it goes on.

ghost use Rattle.std.specs.Prelude.{ℕ, Bool, List};
ghost use Rattle.board.specs.declared.entry.Shape.{Shape};
ghost use Rattle.board.specs.declared.entry.BoardEntry.{BoardEntry};
ghost use Rattle.board.specs.PipelineHistory.{Joins, LeavesOthers, BeginsAlone, Opens, StaysOpen, StaysManaged, StaysSubmitting, BornServed, Holds, StaysHeld, BornMasked, Masks, StaysMasked, SlipStays, CollectDrains, WorkLeaves, TakingIsWork, FinishingIsWork, PassingIsWork};
ghost use Rattle.board.specs.HandedOut.{HandsNothing, HandsOutAtMost, CollectHandsOut, AllHandedOutIsDrained};
ghost use Rattle.board.specs.Others.{OthersAlone, WorkLeavesKnown, WorkLeavesDrained, WorkLeavesOwn, OthersLeaveOpen, OthersLeaveSlips};
ghost use Rattle.board.specs.Ends.{AllIsFinished, NoWorkIsRight, ShutIsLast};

/// Each entry joins the entries of its own pipeline and leaves those of the others; a pipeline's birth comes before
/// them.
pub fn entries_join<A>()
    ensures joins { (h : List (BoardEntry A)) (e : BoardEntry A) (p : ℕ) → Joins h e p }
    ensures leaves { (h : List (BoardEntry A)) (e : BoardEntry A) (p : ℕ) → LeavesOthers h e p }
    ensures alone { (h : List (BoardEntry A)) (caller p : ℕ) (shape : Shape) → BeginsAlone h caller p shape }
{}

/// What stays of a pipeline while a history goes on: it is open until it is closed, who may manage it or submit to it
/// may do so later, and work accepts nothing, hands nothing out, shares nothing and masks nothing. A pipeline of which
/// all is finished may be closed after a collect. What `take`, `finish` and `pass_on` add is work of their caller's.
pub fn pipelines_stay<A>()
    ensures born { (such : Shape → Bool) (h : List (BoardEntry A)) (caller p : ℕ) (shape : Shape) → Opens such h caller p shape }
    ensures stays_open { (such : Shape → Bool) (h : List (BoardEntry A)) (e : BoardEntry A) (p : ℕ) → StaysOpen such h e p }
    ensures managed { (h : List (BoardEntry A)) (e : BoardEntry A) (p caller : ℕ) → StaysManaged h e p caller }
    ensures submitting { (h : List (BoardEntry A)) (e : BoardEntry A) (p caller : ℕ) → StaysSubmitting h e p caller }
    ensures work { (h : List (BoardEntry A)) (e : BoardEntry A) (p : ℕ) → WorkLeaves h e p }
    ensures drained { (h : List (BoardEntry A)) (caller p to : ℕ) → CollectDrains h caller p to }
    ensures taking { (h : List (BoardEntry A)) (caller p n : ℕ) → TakingIsWork h caller p n }
    ensures finishing { (h : List (BoardEntry A)) (caller p n : ℕ) → FinishingIsWork h caller p n }
    ensures passing { (h : List (BoardEntry A)) (caller p : ℕ) → PassingIsWork h caller p }
{}

/// A queue or chain is held from its `hold` to its `go`.
pub fn queues_hold<A>()
    ensures born { (h : List (BoardEntry A)) (caller p : ℕ) (shape : Shape) → BornServed h caller p shape }
    ensures held { (h : List (BoardEntry A)) (caller p : ℕ) → Holds h caller p }
    ensures stays { (h : List (BoardEntry A)) (e : BoardEntry A) (p : ℕ) → StaysHeld h e p }
{}

/// A pipeline's mask is full until its first `mask`, and from then on that of its last.
pub fn masks_stay<A>()
    ensures born { (h : List (BoardEntry A)) (caller p : ℕ) (shape : Shape) → BornMasked h caller p shape }
    ensures masked { (h : List (BoardEntry A)) (caller p bits : ℕ) → Masks h caller p bits }
    ensures stays { (h : List (BoardEntry A)) (e : BoardEntry A) (p : ℕ) → StaysMasked h e p }
{}

/// Only a collect hands anything out, and no more completions than requests were accepted. A pipeline that handed out
/// as many may be closed.
pub fn only_collects_hand_out<A>()
    ensures nothing { (h : List (BoardEntry A)) (e : BoardEntry A) (p : ℕ) → HandsNothing h e p }
    ensures most { (h : List (BoardEntry A)) (p : ℕ) → HandsOutAtMost h p }
    ensures drained { (h : List (BoardEntry A)) (p : ℕ) → AllHandedOutIsDrained h p }
{}

/// A collect hands out as many completions as are among the callbacks that it delivers.
pub fn collects_hand_out<A, O>()
    ensures { (meaning : A → O) (h : List (BoardEntry A)) (caller p to : ℕ) → CollectHandsOut meaning h caller p to }
{}

/// Who took a job may finish it, with the value of the same ask, whatever others do meanwhile.
pub fn slips_stay<A, O>()
    ensures { (meaning : A → O) (h : List (BoardEntry A)) (e : BoardEntry A) (p caller n : ℕ) (out : O)
        → SlipStays meaning h e p caller n out }
{}

/// Entries of others, and work of a caller's own, leave what it knows: of the pipelines that it made who manages them,
/// whether they are open, held and shared, their masks, what was collected from them and, where they aren't shared,
/// what they accepted and that they are drained; and what was accepted from it. For caller 0 that the board isn't shut.
/// Entries of others alone leave that it may submit, and the jobs that it took.
pub fn others_leave<A, O>()
    ensures alone { (h es : List (BoardEntry A)) (caller : ℕ) → OthersAlone h es caller }
    ensures mine { (h es : List (BoardEntry A)) (p caller : ℕ) → WorkLeavesKnown h es p caller }
    ensures drained { (h es : List (BoardEntry A)) (p caller : ℕ) → WorkLeavesDrained h es p caller }
    ensures own { (h es : List (BoardEntry A)) (caller : ℕ) → WorkLeavesOwn h es caller }
    ensures submitting { (h es : List (BoardEntry A)) (p caller : ℕ) → OthersLeaveOpen h es p caller }
    ensures slips { (meaning : A → O) (h es : List (BoardEntry A)) (p caller n : ℕ) (out : O)
        → OthersLeaveSlips meaning h es p caller n out }
{}

/// Over every legal history: where each request of each pipeline is finished, no take, no finish and no passing on of a
/// job is right any more, so that a shut beside workers is the last entry. Where one caller alone made pipelines,
/// closed ones are finished.
pub fn work_ends<A>()
    ensures all_finished { (h : List (BoardEntry A)) (caller : ℕ) → AllIsFinished h caller }
    ensures nothing_left { (h : List (BoardEntry A)) (e : BoardEntry A) → NoWorkIsRight h e }
    ensures shut_last { (h : List (BoardEntry A)) (caller : ℕ) (es : List (BoardEntry A)) → ShutIsLast h caller es }
{}
