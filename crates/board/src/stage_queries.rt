//! What a stage says before a request comes, and how its reorder lists change.

ghost use Rattle.std.specs.Prelude.{◌≡◌, ◌≤◌, true, OnOk, OnErr};
ghost use Rattle.board.specs.Stages.{is_pad};
ghost use Rattle.board.specs.Kept.{lists_in};
ghost use Rattle.board.specs.Pipelines.{accepts, work_after, with_lists};

use crate::entry::Entered;
use crate::intake::is_accepted;
use crate::stage::Stage;
use std::alloc::AllocError;

impl<J: Drop, F: Drop> Stage<J, F> {
    /// Whether a queue or chain would accept a request that came now. A pad would not.
    pub(crate) fn accepts(&self, backlog: bool) -> bool
        ensures { result ≡ accepts self.now backlog }
    {
        match self {
            Stage::Pad(_) => false,
            Stage::Queue(server) => server.accepts(backlog),
            Stage::Chain(chain) => chain.server.accepts(backlog),
        }
    }

    /// How many entries of work follow on an answer to a request: on a chain it is passed on, taken and finished, and
    /// otherwise taken and finished.
    pub(crate) fn work_entries(&self, answer: Entered) -> usize
        ensures { result ≡ work_after self.now answer }
    {
        if !is_accepted(answer) {
            return 0;
        }
        match self {
            Stage::Pad(_) | Stage::Queue(_) => 2,
            Stage::Chain(_) => 3,
        }
    }

    /// How many reorder lists there are; a queue has none.
    pub(crate) fn lists(&self) -> u32
        ensures { result ≡ lists_in self.now }
    {
        match self {
            Stage::Pad(pad) => pad.lists(),
            Stage::Queue(_) => 0,
            Stage::Chain(chain) => chain.pad.lists(),
        }
    }

    /// From now on a pad has so many reorder lists. Want of memory changes nothing.
    pub(crate) fn remask(&mut self, lists: u32) -> Result<(), AllocError>
        requires pad { is_pad self.old ≡ true }
        requires lists { 1 ≤ lists }
        ensures ok { OnOk result (self.new ≡ with_lists self.old lists) }
        ensures err { OnErr result (self.new ≡ self.old) }
    {
        match self {
            Stage::Pad(pad) => pad.remask(lists),
            Stage::Queue(_) => unreachable!(),
            Stage::Chain(_) => unreachable!(),
        }
    }
}
