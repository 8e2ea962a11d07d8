//! One pipeline of a board.

ghost use Rattle.std.specs.Prelude.{◌≡◌, MatchBool};
ghost use Rattle.board.specs.Entries.{has};
ghost use Rattle.board.specs.RunQueue.{Admits, HasJobFor};

use crate::mask::is_masked;
use crate::stage::Stage;

/// An open pipeline: who made it, whether it is shared, which workers may take from it, who else submitted to it where
/// it is no queue, how many of its callbacks were collected, and what stands behind it.
#[derive(Drop)]
pub(crate) struct Pipeline<J, F> {
    pub(crate) maker: u32,
    pub(crate) shared: bool,
    pub(crate) mask: u16,
    pub(crate) submitters: Vec<u32>,
    pub(crate) collected: u64,
    pub(crate) stage: Stage<J, F>,
}

impl<J: Drop, F: Drop> Pipeline<J, F> {
    /// Whether there is a job that this caller may take.
    pub(crate) fn has_job_for(&self, caller: u32) -> bool
        ensures { MatchBool result (HasJobFor caller self.now) (HasJobFor caller self.now → ⊥) }
    {
        self.stage.may_serve() && self.admits(caller)
    }

    /// Whether this caller may take its jobs.
    pub(crate) fn admits(&self, caller: u32) -> bool
        ensures { MatchBool result (Admits self.now caller) (Admits self.now caller → ⊥) }
    {
        if self.stage.is_queue() {
            return true;
        }
        if self.maker == caller {
            return true;
        }
        if has_submitted(&self.submitters, caller) {
            return true;
        }
        is_masked(self.mask, caller)
    }
}

/// Whether this caller is among those who submitted.
fn has_submitted(submitters: &[u32], caller: u32) -> bool
    ensures { result ≡ has caller submitters.now }
{
    submitters.iter().any(|submitter| *submitter == caller)
}
