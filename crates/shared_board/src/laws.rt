//! What holds of every pass at its turn.

ghost use Rattle.std.specs.Prelude.{List};
ghost use Rattle.turn_lock.specs.Turns.{Known};
ghost use Rattle.board.specs.declared.entry.BoardEntry.{BoardEntry};
ghost use Rattle.shared_board.specs.Knowledge.{WhatIsKnownHolds};

use board::others_leave;

/// What a pass knows of its pipelines, of its jobs and of the board holds of the history that it meets at its turn,
/// whatever others did since.
pub fn known_holds<A, O>()
    ensures { (meaning : A → O) (k : Known (BoardEntry A)) (h : List (BoardEntry A)) → WhatIsKnownHolds meaning k h }
{
    others_leave::<A, O>();
}
