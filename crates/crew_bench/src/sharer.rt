//! A caller submits to a pad that another has shared.

ghost use Rattle.std.specs.Prelude.{◌≡◌, true, IfOk};
ghost use Rattle.turn_lock.specs.Passes.{knows};
ghost use Rattle.board.specs.Entries.{entries_of, is_shared};
ghost use Rattle.shared_board.specs.Passes.{IsPassOn};
ghost use Rattle.crew_bench.specs.Ready.{Ready};

use crate::calls::make;
use crate::laws::board_laws;
use crate::load::{Load, Spun};
use board::BoardErr;
use shared_board::{BoardPass, SharedBoard};
use std::alloc::Global;
use std::sync::Wait;

fn share_one<R: Wait>(
    rt: &R,
    board: &SharedBoard<Load>,
    pass: BoardPass<Load>,
    pipe: u64,
) -> (BoardPass<Load>, Result<(), BoardErr>)
    requires lock { IsPassOn board.now pass }
    requires ready { Ready pipe (knows pass) }
    ensures lock { IsPassOn board.now result.0 }
    ensures ready { Ready pipe (knows result.0) }
    ensures shared { IfOk result.1 (λ _. is_shared (entries_of pipe (knows result.0).seen) ≡ true) }
{
    board_laws::<u64, Spun>();
    board.share(rt, pass, pipe)
}

/// A pass with the number 17, split off after the share, submits to the pad.
fn submit_as_another<R: Wait>(
    rt: &R,
    board: &SharedBoard<Load>,
    pass: BoardPass<Load>,
    pipe: u64,
) -> Result<u64, BoardErr>
    requires lock { IsPassOn board.now pass }
    requires ready { Ready pipe (knows pass) }
    requires shared { is_shared (entries_of pipe (knows pass).seen) ≡ true }
{
    if pass.next() > 17 {
        return Err(BoardErr::Memory);
    }
    let (_, other) = board.split(pass, 17);
    board.submit(rt, other, pipe, Load { turns: 1 }).1
}

/// The number of the other's job.
pub(crate) fn shared_number<R: Wait>(rt: &R, alloc: Global) -> Option<u64> {
    let (board, pass) = SharedBoard::new(alloc).ok()?;
    let (pass, made) = make(rt, &board, pass);
    let pipe = made.ok()?;
    let (pass, shared) = share_one(rt, &board, pass, pipe);
    shared.ok()?;
    submit_as_another(rt, &board, pass, pipe).ok()
}
