//! The laws of a board that a caller with one pad rests on.

ghost use Rattle.crew_bench.specs.Learned.{BoardLaws};

use board::{entries_join, others_leave, pipelines_stay};
use shared_board::known_holds;

pub(crate) fn board_laws<A, O>()
    ensures { (meaning : A → O) → BoardLaws meaning }
{
    known_holds::<A, O>();
    others_leave::<A, O>();
    pipelines_stay::<A>();
    entries_join::<A>();
}
