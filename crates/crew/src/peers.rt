//! Callers beside a first one, each with passes of its own.

ghost use Rattle.std.specs.Prelude.{◌≡◌, ◌<◌, ◌≤◌, ◌+◌, ◌^◌, ◌++◌, ◌∷◌, [], ℕ, List, IfOk, IsOk};
ghost use Rattle.std.specs.Thread.{IsSync};
ghost use Rattle.turn_lock.specs.Passes.{knows};
ghost use Rattle.turn_lock.specs.Turns.{gives_number, gets_number};
ghost use Rattle.crew.specs.Both.{ArePassesOn};
ghost use Rattle.crew.specs.declared.passes.Passes.{Passes as PassesOf};
ghost use Rattle.crew.specs.Peers.{KeepNumbers, AreFreshFrom, AreOuts, RanBeside};

use crate::crew::join_both;
use crate::passes::Passes;
use board::Work;
use shared_board::SharedBoard;
use shared_registry::SharedRegistry;
use std::alloc::{AllocError, Global};
use std::sync::Wait;
use std::thread::{Threads, join};

/// What a caller does beside others, once, with passes of its own.
pub trait Peer<P> {
    type Out;

    ghost can_run: { Self → ℕ → P → Type 0 };

    ghost gives: { Self → ℕ → P → P → Self.Out → Type 0 };

    fn run(&self, number: u32, passes: P) -> (P, Self::Out)
        requires { can_run self.now number passes }
        ensures { gives self.now number passes result.0 result.1 };
}

// What later callers gave, and what this one gave behind it.
fn with_out<X: Drop>(later: Result<Vec<X>, AllocError>, out: X) -> Result<Vec<X>, AllocError>
    ensures { IfOk result (λ outs. IsOk later × IfOk later (λ before. outs.items ≡ before.items ++ out ∷ [])) }
{
    let mut outs = later?;
    outs.push(out)?;
    Ok(outs)
}

// Passes with this number on both locks, split off from a caller's.
fn split_at<W: Work>(
    board: &SharedBoard<W>,
    registry: &SharedRegistry,
    passes: Passes<W::Ask>,
    number: u32,
) -> (Passes<W::Ask>, Passes<W::Ask>)
    requires lock { ArePassesOn board.now registry.now passes }
    requires next { ((knows passes.board).next ≤ number) × ((knows passes.registry).next ≤ number) }
    requires room { number + 1 < 2 ^ 32 }
    ensures lock { ArePassesOn board.now registry.now result.0 × ArePassesOn board.now registry.now result.1 }
    ensures board_gives { knows result.0.board ≡ gives_number number (knows passes.board) }
    ensures registry_gives { knows result.0.registry ≡ gives_number number (knows passes.registry) }
    ensures board_gets { knows result.1.board ≡ gets_number number (knows passes.board) }
    ensures registry_gets { knows result.1.registry ≡ gets_number number (knows passes.registry) }
{
    let (own_board, other_board) = board.split(passes.board, number);
    let (own_registry, other_registry) = registry.split(passes.registry, number);
    let own = Passes {
        board: own_board,
        registry: own_registry,
    };
    let other = Passes {
        board: other_board,
        registry: other_registry,
    };
    (own, other)
}

// Runs one of the callers.
fn run_peer<W: Work, P: Peer<Passes<W::Ask>>>(
    _board: &SharedBoard<W>,
    _registry: &SharedRegistry,
    number: u32,
    passes: Passes<W::Ask>,
    peer: &P,
) -> (Passes<W::Ask>, P::Out)
    requires lock { ArePassesOn _board.now _registry.now passes }
    requires can_run { P.can_run peer.now number passes }
    requires gives_back { (n : ℕ) (p q : PassesOf W.Ask) (x : P.Out) → ArePassesOn _board.now _registry.now p
        → P.gives peer.now n p q x → ArePassesOn _board.now _registry.now q × KeepNumbers p q }
    ensures lock { ArePassesOn _board.now _registry.now result.0 }
    ensures numbers { KeepNumbers passes result.0 }
    ensures gives { P.gives peer.now number passes result.0 result.1 }
{
    peer.run(number, passes)
}

/// Runs so many callers, each beside the others and with passes of its own, whose numbers begin at `number` on both
/// locks; then joins their passes into the first caller's. Want of memory loses what they gave, and nothing else: each
/// has ended.
pub fn run_peers<
    W: Work,
    X: Drop + Send,
    P: Peer<Passes<W::Ask>, Out = X> + Sync,
    R: Threads + Wait + Sync,
>(
    rt: &R,
    alloc: Global,
    board: &SharedBoard<W>,
    registry: &SharedRegistry,
    passes: Passes<W::Ask>,
    number: u32,
    left: u32,
    peer: &P,
) -> (Passes<W::Ask>, Result<Vec<X>, AllocError>)
    requires lock { ArePassesOn board.now registry.now passes }
    requires next { ((knows passes.board).next ≤ number) × ((knows passes.registry).next ≤ number) }
    requires room { number + left + 1 < 2 ^ 32 }
    requires peer { (n : ℕ) (p : PassesOf W.Ask) → ArePassesOn board.now registry.now p → AreFreshFrom n passes p → P.can_run peer.now n p }
    requires gives_back { (n : ℕ) (p q : PassesOf W.Ask) (x : X) → ArePassesOn board.now registry.now p
        → P.gives peer.now n p q x → ArePassesOn board.now registry.now q × KeepNumbers p q }
    ensures lock { ArePassesOn board.now registry.now result.0 }
    ensures ran { (rs : List (PassesOf W.Ask × X)) × IfOk result.1 (λ outs. AreOuts outs.items rs)
        × RanBeside (P.gives peer.now) number left passes rs result.0 }
{
    if left == 0 {
        return (passes, Ok(Vec::new(alloc)));
    }
    let (own, other) = split_at(board, registry, passes, number);
    let rest = left - 1;
    let next = number + 1;
    let ((other, out), (mine, later)) = join(
        rt,
        move || -> (Passes<W::Ask>, X)
            requires lock { ArePassesOn board.now registry.now other }
            requires can_run { P.can_run peer.now number other }
            requires gives_back { (n : ℕ) (p q : PassesOf W.Ask) (x : X) → ArePassesOn board.now registry.now p
                → P.gives peer.now n p q x → ArePassesOn board.now registry.now q × KeepNumbers p q }
            ensures lock { ArePassesOn board.entry.now registry.entry.now result.0 }
            ensures numbers { KeepNumbers other result.0 }
            ensures gives { P.gives peer.entry.now number other result.0 result.1 }
        { run_peer(board, registry, number, other, peer) },
        move || -> (Passes<W::Ask>, Result<Vec<X>, AllocError>)
            requires lock { ArePassesOn board.now registry.now own }
            requires shared { IsSync R.row }
            requires next { ((knows own.board).next ≤ next) × ((knows own.registry).next ≤ next) }
            requires room { next + rest + 1 < 2 ^ 32 }
            requires peer { (n : ℕ) (p : PassesOf W.Ask) → ArePassesOn board.now registry.now p → AreFreshFrom n own p
                → P.can_run peer.now n p }
            requires gives_back { (n : ℕ) (p q : PassesOf W.Ask) (x : X) → ArePassesOn board.now registry.now p
                → P.gives peer.now n p q x → ArePassesOn board.now registry.now q × KeepNumbers p q }
            ensures lock { ArePassesOn board.entry.now registry.entry.now result.0 }
            ensures ran { (rs : List (PassesOf W.Ask × X)) × IfOk result.1 (λ outs. AreOuts outs.items rs)
                × RanBeside (P.gives peer.entry.now) next rest own rs result.0 }
        { run_peers(rt, alloc, board, registry, own, next, rest, peer) },
    );
    (
        join_both(board, registry, mine, other),
        with_out(later, out),
    )
}
