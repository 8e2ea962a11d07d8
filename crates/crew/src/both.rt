//! What a worker does on a board and a registry.

ghost use Rattle.std.specs.Prelude.{◌≡◌, true, IfNone};
ghost use Rattle.turn_lock.specs.Passes.{knows};
ghost use Rattle.board.specs.Legal.{is_shut};
ghost use Rattle.shared_registry.specs.Passes.{IsPassOn as IsRegPassOn};
ghost use Rattle.shared_registry.specs.Builds.{Works};
ghost use Rattle.crew.specs.Both.{ArePassesOn, WorkedOnBoth};

use crate::board_work::{sleep, work_in_turn};
use crate::gate::Gate;
use crate::passes::Passes;
use board::Work;
use shared_board::{Drowsy, Look, SharedBoard, SpinResult};
use shared_registry::laws::building_goes_on;
use shared_registry::{RegPass, SharedRegistry, build_one};
use std::alloc::Global;
use std::sync::Wait;

/// What one look of a worker came to.
#[derive(Clone, Copy)]
struct Looked {
    found: bool,
    /// It looks again, whatever the hints say.
    again: bool,
}

/// Claims and builds one larval, where one may wait, and ends an announced wait before. False where none does. Where
/// memory runs out the larval that was claimed is ended with that, and it pauses for a millisecond.
fn build_if_any<W: Work, R: Wait>(
    rt: &R,
    alloc: Global,
    board: &SharedBoard<W>,
    registry: &SharedRegistry,
    pass: RegPass,
    drowsy: &mut Option<Drowsy<'_>>,
) -> (RegPass, bool)
    requires { IsRegPassOn registry.now pass }
    ensures lock { IsRegPassOn registry.now result.0 }
    ensures works { Works (knows pass) (knows result.0) }
{
    building_goes_on();
    if !registry.may_build() {
        return (pass, false);
    }
    drop(drowsy.take());
    let (pass, built) = build_one(rt, alloc, registry, pass);
    if built.is_err() {
        board.pause(rt);
    }
    (pass, true)
}

/// Does what jobs wait for this caller, some sixty at most, passes a request on where a chain has one, and builds one
/// larval where one waits. Where it finds nothing after it has announced a wait, it may sleep. Where memory runs out
/// while it builds, a larval that was claimed is ended with `NoMemory`.
fn work_or_build<'a, W: Work, G: Gate, R: Wait>(
    rt: &R,
    alloc: Global,
    board: &SharedBoard<W>,
    registry: &SharedRegistry,
    passes: Passes<W::Ask>,
    gate: &G,
    look: Look<'a>,
) -> (Passes<W::Ask>, Looked, Option<Drowsy<'a>>)
    requires { ArePassesOn board.now registry.now passes }
    ensures lock { ArePassesOn board.now registry.now result.0 }
    ensures worked { WorkedOnBoth passes result.0 }
{
    building_goes_on();
    let Passes {
        board: on_board,
        registry: on_registry,
    } = passes;
    let (on_board, worked, more, mut drowsy) = work_in_turn(rt, board, on_board, gate, look);
    let (on_registry, built) = build_if_any(rt, alloc, board, registry, on_registry, &mut drowsy);
    let passes = Passes {
        board: on_board,
        registry: on_registry,
    };
    let looked = Looked {
        found: worked || built,
        again: more || built,
    };
    (passes, looked, drowsy)
}

/// The next look of a worker that found something, where it may find more: a hint that takes no turn.
fn next_look<'a, W: Work>(
    board: &'a SharedBoard<W>,
    registry: &SharedRegistry,
    looked: Looked,
) -> Option<Look<'a>> {
    if !looked.found || board.may_be_shut() {
        return None;
    }
    if looked.again || registry.may_build() {
        return Some(Look::new());
    }
    board.may_have_job()
}

/// Works until nothing is found, or nothing more is expected. It begins with the look that is due.
fn work_both_while<W: Work, G: Gate, R: Wait>(
    rt: &R,
    alloc: Global,
    board: &SharedBoard<W>,
    registry: &SharedRegistry,
    passes: Passes<W::Ask>,
    gate: &G,
    look: Look<'_>,
) -> Passes<W::Ask>
    requires { ArePassesOn board.now registry.now passes }
    ensures lock { ArePassesOn board.now registry.now result }
    ensures worked { WorkedOnBoth passes result }
{
    building_goes_on();
    let mut mine = passes;
    let mut next = look;
    for _ in rt.forever() {
        let (worked, looked, _) = work_or_build(rt, alloc, board, registry, mine, gate, next);
        let Some(due) = next_look(board, registry, looked) else {
            return worked;
        };
        mine = worked;
        next = due;
    }
    unreachable!()
}

/// From now on a look that begins a larval wakes a worker of this board.
fn meet<W: Work>(board: &SharedBoard<W>, registry: &SharedRegistry) {
    if let Ok(wakeup) = board.worker_wakeup() {
        registry.note_workers(wakeup);
    }
}

/// The look that is still due, unless the board is shut, with both passes kept together.
fn look_at_end<'a, W: Work, R: Wait>(
    rt: &R,
    board: &SharedBoard<W>,
    registry: &SharedRegistry,
    passes: Passes<W::Ask>,
    look: Look<'a>,
) -> (Passes<W::Ask>, Option<Look<'a>>)
    requires { ArePassesOn board.now registry.now passes }
    ensures lock { ArePassesOn board.now registry.now result.0 }
    ensures worked { WorkedOnBoth passes result.0 }
    ensures shut { IfNone result.1 (is_shut (knows result.0.board).seen ≡ true) }
{
    building_goes_on();
    let Passes {
        board: on_board,
        registry: on_registry,
    } = passes;
    let (on_board, due) = board.look_at_end(rt, on_board, look);
    let passes = Passes {
        board: on_board,
        registry: on_registry,
    };
    (passes, due)
}

/// Works until the board is shut: does what jobs wait, passes requests on, and builds larvals. After some sixty jobs
/// the other two have their turn. A worker that finds nothing stays awake for a while, and then sleeps until a job
/// comes, a larval begins or it is called.
pub fn work_on<W: Work, G: Gate, R: Wait>(
    rt: &R,
    alloc: Global,
    board: &SharedBoard<W>,
    registry: &SharedRegistry,
    passes: Passes<W::Ask>,
    gate: &G,
) -> Passes<W::Ask>
    requires { ArePassesOn board.now registry.now passes }
    ensures lock { ArePassesOn board.now registry.now result }
    ensures worked { WorkedOnBoth passes result }
    ensures shut { is_shut (knows result.board).seen ≡ true }
{
    building_goes_on();
    meet(board, registry);
    let mut mine = passes;
    let mut look = Look::new();
    for _ in rt.forever() {
        let worked = work_both_while(rt, alloc, board, registry, mine, gate, look);
        let tired = match board.spin_for_job() {
            SpinResult::Tired(tired) => tired,
            SpinResult::JobCame(due) => {
                mine = worked;
                look = due;
                continue;
            }
        };
        let last = board.prepare_wait_for_job(tired);
        if board.may_be_shut() {
            let (seen, due) = look_at_end(rt, board, registry, worked, last);
            let Some(due) = due else {
                return seen;
            };
            mine = seen;
            look = due;
            continue;
        }
        let (tried, _, drowsy) = work_or_build(rt, alloc, board, registry, worked, gate, last);
        mine = tried;
        look = sleep(rt, drowsy);
    }
    unreachable!()
}
