//! What is known at the end of a crew.

ghost use Rattle.std.specs.Prelude.{ℕ, Bool, List};
ghost use Rattle.turn_lock.specs.Turns.{Known};
ghost use Rattle.crew.specs.Crews.{CrewsEnd, CrewWorks};

/// What a lock's history has beyond what the caller's own pass had seen, before the workers' were joined into it, are
/// entries of others.
pub fn crews_end<E>()
    ensures { (by : E → ℕ) (is_work : E → Bool) (from count : ℕ) (k l : Known E) (log : List E) → CrewsEnd by is_work from count k l log }
{}

/// Where the first caller gave the numbers from 1 on to a crew and joined its passes again, each entry of the lock's
/// history has a number of the crew or 0, and those of the crew are work.
pub fn crew_works<E>()
    ensures { (by : E → ℕ) (is_work : E → Bool) (workers : ℕ) (k l : Known E) (log : List E) → CrewWorks by is_work workers k l log }
{}
