//! The first script's transforms are shared with others.

ghost use Rattle.std.specs.Prelude.{◌≡◌, Some, IsSome, OnOk, MatchResult};
ghost use Rattle.std.specs.Arc.{arc_value};
ghost use Rattle.board.specs.Entries.{caller_of};
ghost use Rattle.board.specs.Legal.{LegalBoard};
ghost use Rattle.turn_lock.specs.PassLaws.{IsOwn};
ghost use Rattle.turn_lock.specs.Passes.{knows};
ghost use Rattle.recorded_calls.specs.Passes.{known, lock_of, CallsBoard};
ghost use Rattle.script_session.specs.EndOfInput.{PipelinesMatchState};
ghost use Rattle.script_session.specs.PerformedDialogue.{SeesOn};
ghost use Rattle.script_session.specs.Loans.{SharesOne, SharesAll};
ghost use Rattle.script_session.specs.States.{HasPipe, PipelinesMatch};

use crate::scripts::Session;
use crate::shared_transforms::Shared;
use crate::transform::Transform;
use recorded_calls::{BoardCaller, Stop};
use shared_board::{BoardPass, SharedBoard};
use shared_registry::RegPass;
use std::alloc::Global;
use std::sync::{Arc, Wait};
use transforms::Job;

// Lets others submit to the pipeline of a transform, if it has one.
fn share_live<R: Wait>(
    rt: &R,
    board: &SharedBoard<Job>,
    caller: &mut BoardCaller,
    live: &Transform,
) -> Result<(), Stop>
    requires at { CallsBoard board.now caller.old }
    requires legal { LegalBoard (known caller.old).seen }
    requires pipe { HasPipe (known caller.old) live.now.pipe }
    ensures lock { lock_of caller.new ≡ lock_of caller.old }
    ensures shared { MatchResult result
        (λ _. SharesOne live.now (known caller.old) (known caller.new))
        (λ _. SeesOn (known caller.old) (known caller.new)) }
{
    let Some(pipe) = live.pipe() else {
        return Ok(());
    };
    caller.share(rt, board, pipe)?;
    Ok(())
}

// Lets others submit to each of these pipelines, in order of allocation.
fn share_each<R: Wait>(
    rt: &R,
    board: &SharedBoard<Job>,
    caller: &mut BoardCaller,
    lives: &[Transform],
) -> Result<(), Stop>
    requires at { CallsBoard board.now caller.old }
    requires posted { PipelinesMatchState lives.now (known caller.old) }
    ensures lock { lock_of caller.new ≡ lock_of caller.old }
    ensures shared { MatchResult result
        (λ _. SharesAll lives.now (known caller.old) (known caller.new))
        (λ _. SeesOn (known caller.old) (known caller.new)) }
{
    for live in lives {
        share_live(rt, board, caller, live)?;
    }
    Ok(())
}

// Shares these transforms, and takes a turn at which the caller has seen all that it did.
fn share_lives<R: Wait>(
    rt: &R,
    alloc: Global,
    board: &SharedBoard<Job>,
    caller: &mut BoardCaller,
    lives: Vec<Transform>,
) -> Result<Arc<Shared, Global>, Stop>
    requires at { CallsBoard board.now caller.old }
    requires posted { PipelinesMatchState lives.items (known caller.old) }
    ensures lock { lock_of caller.new ≡ lock_of caller.old }
    ensures shared { MatchResult result
        (λ shared. (arc_value shared ≡ lives.items) × SharesAll lives.items (known caller.old) (known caller.new))
        (λ _. SeesOn (known caller.old) (known caller.new)) }
    ensures own { OnOk result (IsOwn caller_of (known caller.new)) }
{
    share_each(rt, board, caller, lives.as_slice())?;
    let shared = Arc::new(alloc, Shared { transforms: lives })?;
    caller.meet(rt, board);
    Ok(shared)
}

impl Session {
    /// Lets others submit to each pipeline of a script whose lines are done, in order of allocation. Gives its passes,
    /// and its transforms to be shared. Only want of memory refuses.
    pub fn share<R: Wait>(
        self,
        rt: &R,
        board: &SharedBoard<Job>,
    ) -> (RegPass, BoardPass<Job>, Result<Arc<Shared, Global>, Stop>)
        requires registry { IsSome self.registry }
        requires at { CallsBoard board.now self.board }
        requires posted { PipelinesMatch self.script_state (known self.board) }
        ensures registry { self.registry ≡ Some result.0 }
        ensures lock { lock_of (Some result.1) ≡ lock_of self.board }
        ensures shared { MatchResult result.2
            (λ shared. (arc_value shared ≡ self.script_state.lives) × SharesAll self.script_state.lives (known self.board) (knows result.1))
            (λ _. SeesOn (known self.board) (knows result.1)) }
        ensures own { OnOk result.2 (IsOwn caller_of (knows result.1)) }
    {
        let Session {
            alloc,
            lives,
            registry,
            board: caller,
            ..
        } = self;
        let mut lives = lives;
        let mut caller = caller;
        let shared = match lives.take_all(alloc) {
            Ok(lives) => share_lives(rt, alloc, board, &mut caller, lives),
            Err(_) => Err(Stop::Memory),
        };
        (registry.into_pass(), caller.into_pass(), shared)
    }
}
