//! What stays of a board where several callers go on, and what workers leave once they are alone.

ghost use Rattle.std.specs.Prelude.{ℕ, Bool, List};
ghost use Rattle.turn_lock.specs.Turns.{Known};
ghost use Rattle.board.specs.declared.entry.Shape.{Shape};
ghost use Rattle.board.specs.declared.entry.BoardEntry.{BoardEntry};
ghost use Rattle.board.specs.SharedPipelines.{SharedStays, MakersFinish};
ghost use Rattle.board.specs.Alone.{PeersAreGone, PeersStayGone, WorkersAreLeft, WorkAlone, WorkAccepts, WorkFinishes};

/// Over every legal history: nobody closes or masks a pipeline that is shared, and who might submit to it still may.
/// All is finished where each maker has finished or closed what it made.
pub fn shared_pipelines_stay<A>()
    ensures stays { (such : Shape → Bool) (h es : List (BoardEntry A)) (p : ℕ) → SharedStays such h es p }
    ensures finished { (h : List (BoardEntry A)) → MakersFinish h }
{}

/// Where all callers above the workers were joined into the first one's pass, it has seen all that they made once it
/// takes a turn. From then on what others add is work alone, and so is all that is added while the first one works too.
pub fn workers_are_left<A>()
    ensures gone { (k : Known (BoardEntry A)) (h : List (BoardEntry A)) → PeersAreGone k h }
    ensures stay { (k : Known (BoardEntry A)) (h : List (BoardEntry A)) (e : BoardEntry A) → PeersStayGone k h e }
    ensures left { (k : Known (BoardEntry A)) (h : List (BoardEntry A)) → WorkersAreLeft k h }
    ensures alone { (k m : Known (BoardEntry A)) (h es : List (BoardEntry A)) → WorkAlone k m h es }
{}

/// Work accepts nothing on any pipeline, shared or not, and what is finished stays so.
pub fn workers_finish<A>()
    ensures accepts { (h es : List (BoardEntry A)) (p : ℕ) → WorkAccepts h es p }
    ensures finishes { (h es : List (BoardEntry A)) (p : ℕ) → WorkFinishes h es p }
{}
