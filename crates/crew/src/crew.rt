//! A caller's part beside workers.

ghost use Rattle.std.specs.Prelude.{◌≡◌, ◌<◌, true};
ghost use Rattle.std.specs.Thread.{IsSync};
ghost use Rattle.turn_lock.specs.Passes.{knows};
ghost use Rattle.board.specs.Legal.{is_shut};
ghost use Rattle.crew.specs.Both.{ArePassesOn, WorkedOnBoth, AreFirst, HaveRoom, HaveNext, AreSplit, AreJoined, CrewedOnBoth};

use crate::both::work_on;
use crate::gate::Gate;
use crate::passes::Passes;
use board::Work;
use shared_board::SharedBoard;
use shared_registry::SharedRegistry;
use std::alloc::Global;
use std::sync::Wait;
use std::thread::{Threads, join};

/// What runs beside the workers, once, with a pass.
trait MainTask<P> {
    type Out;

    ghost can_run: { Self → P → Type 0 };

    ghost gives: { Self → P → P → Self.Out → Type 0 };

    fn run(self, pass: P) -> (P, Self::Out)
        requires { can_run self pass }
        ensures { gives self pass result.0 result.1 };
}

/// Passes with the next numbers on both locks, split off from a caller's.
fn split_both<W: Work>(
    board: &SharedBoard<W>,
    registry: &SharedRegistry,
    passes: Passes<W::Ask>,
) -> (Passes<W::Ask>, Passes<W::Ask>)
    requires lock { ArePassesOn board.now registry.now passes }
    requires room { HaveRoom 1 passes }
    ensures lock { ArePassesOn board.now registry.now result.0 × ArePassesOn board.now registry.now result.1 }
    ensures split { AreSplit passes result.0 result.1 }
{
    let number = passes.board.next();
    let (own_board, other_board) = board.split(passes.board, number);
    let number = passes.registry.next();
    let (own_registry, other_registry) = registry.split(passes.registry, number);
    let own = Passes {
        board: own_board,
        registry: own_registry,
    };
    let other = Passes {
        board: other_board,
        registry: other_registry,
    };
    (own, other)
}

/// A worker's passes, joined into a caller's on both locks.
pub(crate) fn join_both<W: Work>(
    board: &SharedBoard<W>,
    registry: &SharedRegistry,
    a: Passes<W::Ask>,
    b: Passes<W::Ask>,
) -> Passes<W::Ask>
    requires { ArePassesOn board.now registry.now a × ArePassesOn board.now registry.now b }
    ensures lock { ArePassesOn board.now registry.now result }
    ensures joined { AreJoined a b result }
{
    Passes {
        board: board.join(a.board, b.board),
        registry: registry.join(a.registry, b.registry),
    }
}

/// Starts the workers that are left, each beside the rest, and at last runs the caller's part.
fn add_workers<
    W: Work,
    G: Gate + Sync,
    X,
    S: MainTask<Passes<W::Ask>, Out = X> + Drop,
    R: Threads + Wait + Sync,
>(
    rt: &R,
    alloc: Global,
    left: u32,
    board: &SharedBoard<W>,
    registry: &SharedRegistry,
    passes: Passes<W::Ask>,
    gate: &G,
    main: S,
) -> (Passes<W::Ask>, X)
    requires lock { ArePassesOn board.now registry.now passes }
    requires room { HaveRoom left passes }
    requires main { (p : _) → ArePassesOn board.now registry.now p → HaveNext left passes p → S.can_run main p }
    requires gives_back { (p q : _) (x : _) → ArePassesOn board.now registry.now p → S.gives main p q x
        → ArePassesOn board.now registry.now q }
    ensures lock { ArePassesOn board.now registry.now result.0 }
    ensures main { (p q : _) × ArePassesOn board.now registry.now p × HaveNext left passes p
        × S.gives main p q result.1 × CrewedOnBoth left passes q result.0 }
{
    if left == 0 {
        return main.run(passes);
    }
    let (own, other) = split_both(board, registry, passes);
    let rest = left - 1;
    let (other, (mine, answer)) = join(
        rt,
        move || -> Passes<W::Ask>
            requires { ArePassesOn board.now registry.now other }
            ensures lock { ArePassesOn board.entry.now registry.entry.now result }
            ensures worked { WorkedOnBoth other result }
            ensures shut { is_shut (knows result.board).seen ≡ true }
        { work_on(rt, alloc, board, registry, other, gate) },
        move || -> (Passes<W::Ask>, X)
            requires lock { ArePassesOn board.now registry.now own }
            requires shared { IsSync R.row }
            requires room { HaveRoom rest own }
            requires main { (p : _) → ArePassesOn board.now registry.now p → HaveNext rest own p → S.can_run main p }
            requires gives_back { (p q : _) (x : _) → ArePassesOn board.now registry.now p → S.gives main p q x
                → ArePassesOn board.now registry.now q }
            ensures lock { ArePassesOn board.entry.now registry.entry.now result.0 }
            ensures main { (p q : _) × ArePassesOn board.entry.now registry.entry.now p × HaveNext rest own p
                × S.gives main p q result.1 × CrewedOnBoth rest own q result.0 }
        { add_workers(rt, alloc, rest, board, registry, own, gate, main) },
    );
    (join_both(board, registry, mine, other), answer)
}

// A part that is lent, so that its caller learns what it leaves in its captures.
#[derive(Drop)]
struct BorrowedMain<'a, M> {
    main: &'a mut M,
}

impl<'a, P, X, M: FnMut(P) -> (P, X)> MainTask<P> for BorrowedMain<'a, M> {
    type Out = (&'a mut M, X);

    ghost can_run = { λ t p. M.pre t.main.now p };

    ghost gives = { λ t p q r. (r.0.ghost_name ≡ t.main.ghost_name) × M.step t.main.now p (q, r.1) r.0.now };

    fn run(self, pass: P) -> (P, (&'a mut M, X)) {
        let BorrowedMain { main } = self;
        let (pass, answer) = main(pass);
        (pass, (main, answer))
    }
}

fn take_back<T>(x: &mut T)
    ensures { x.new ≡ x.old }
{}

/// Calls `main` once, beside at most 16 workers that work until the board is shut. The passes are the first of both
/// locks, with the number 0, none given and none joined. Worker i, counted from 1, has the number i on both
/// locks; `main` gets the passes, whose next numbers are then `workers + 1`. The passes that come back are those that
/// `main` gave back, with the workers' joined into them.
pub fn run_crew<
    W: Work,
    G: Gate + Sync,
    M: FnMut(Passes<W::Ask>) -> (Passes<W::Ask>, X),
    X,
    R: Threads + Wait + Sync,
>(
    rt: &R,
    alloc: Global,
    workers: u32,
    board: &SharedBoard<W>,
    registry: &SharedRegistry,
    passes: Passes<W::Ask>,
    gate: &G,
    main: &mut M,
) -> (Passes<W::Ask>, X)
    requires lock { ArePassesOn board.now registry.now passes }
    requires few { workers < 17 }
    requires first { AreFirst passes }
    requires main { (p : _) → ArePassesOn board.now registry.now p → HaveNext workers passes p → M.pre main.old p }
    requires gives_back { (g : _) (p q : _) (x : _) → ArePassesOn board.now registry.now p → M.step main.old p (q, x) g
        → ArePassesOn board.now registry.now q }
    ensures lock { ArePassesOn board.now registry.now result.0 }
    ensures main { (p q : _) × ArePassesOn board.now registry.now p × HaveNext workers passes p
        × M.step main.old p (q, result.1) main.new × CrewedOnBoth workers passes q result.0 }
{
    let (passes, (main, answer)) = add_workers(
        rt,
        alloc,
        workers,
        board,
        registry,
        passes,
        gate,
        BorrowedMain { main },
    );
    take_back(main);
    (passes, answer)
}
