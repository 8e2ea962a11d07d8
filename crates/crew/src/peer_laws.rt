//! What is known at the end of callers that ran beside a first one.

ghost use Rattle.std.specs.Prelude.{ℕ, List};
ghost use Rattle.turn_lock.specs.Turns.{Known};
ghost use Rattle.crew.specs.Peers.{PeersLeave, PeersTakeNumbers, PeersHaveEnded, EndedStays, EndedAreAlone, FirstIsAlone, CallersAre};

/// Passes that were split off from a first one and joined into it again leave it its number and its entries, and end in
/// it; at the end of the lock others alone follow on what each of them, and the first, had seen.
pub fn peers_end<E>()
    ensures leave { (from : ℕ) (ws : List (Known E)) (k l : Known E) → PeersLeave from ws k l }
    ensures numbers { (from : ℕ) (w : Known E) (ws : List (Known E)) (k l : Known E) → PeersTakeNumbers from w ws k l }
    ensures ended { (from : ℕ) (ws : List (Known E)) (k l : Known E) → PeersHaveEnded from ws k l }
    ensures stays { (w l m : Known E) → EndedStays w l m }
    ensures alone { (by : E → ℕ) (w l : Known E) (log : List E) → EndedAreAlone by w l log }
    ensures first { (by : E → ℕ) (k l : Known E) (log : List E) → FirstIsAlone by k l log }
    ensures callers { (by : E → ℕ) (workers count : ℕ) (l : Known E) (log : List E) → CallersAre by workers count l log }
{}
