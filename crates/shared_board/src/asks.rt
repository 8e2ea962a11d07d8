//! What a pipeline was asked.

ghost use Rattle.std.specs.Prelude.{◌≡◌, map, IfOk};
ghost use Rattle.std.specs.Arc.{arc_value};
ghost use Rattle.turn_lock.specs.Passes.{knows};
ghost use Rattle.board.specs.Entries.{entries_of, submissions};
ghost use Rattle.shared_board.specs.Passes.{IsPassOn};
ghost use Rattle.shared_board.specs.Records.{RecordsNothing};

use crate::shared::{BoardPass, SharedBoard};
use board::Work;
use std::alloc::{AllocError, Global};
use std::sync::{Arc, Wait};

impl<W: Work> SharedBoard<W> {
    /// What the pipeline accepted up to the pass's turn, in order, whoever asked. It looks at each entry of the
    /// history, and records nothing.
    pub fn asks<R: Wait>(
        &self,
        rt: &R,
        pass: BoardPass<W>,
        pipe: u64,
    ) -> (BoardPass<W>, Result<Vec<Arc<W::Ask, Global>>, AllocError>)
        requires { IsPassOn self.now pass }
        ensures lock { IsPassOn self.now result.0 }
        ensures asks { IfOk result.1 (λ asks. map arc_value asks.items ≡ submissions (entries_of pipe (knows result.0).seen)) }
        ensures turn { RecordsNothing (knows pass) (knows result.0) }
    {
        let mut turn = self.turn(rt, pass);
        let answer = turn.get().asks(pipe);
        (turn.give(false), answer)
    }
}
