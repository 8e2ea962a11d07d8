//! What stands on which reorder list.

ghost use Rattle.std.specs.Prelude.{◌≡◌, [], ◌∷◌};
ghost use Rattle.padata_core.specs.Examples.{five_taken};
ghost use Rattle.padata_core.specs.Pad.{on_list};

/// Of five numbers that were taken 1, 3 and 4 are finished. On three lists 3 stands on the first, 1 and 4 on the second
/// and none on the third. On two lists 4 stands on the first, 1 and 3 on the second.
pub fn worked_lists()
    ensures three { (on_list (five_taken 3) 0 ≡ (3, 13) ∷ []) × (on_list (five_taken 3) 1 ≡ (1, 11) ∷ (4, 14) ∷ [])
        × (on_list (five_taken 3) 2 ≡ []) }
    ensures two { (on_list (five_taken 2) 0 ≡ (4, 14) ∷ []) × (on_list (five_taken 2) 1 ≡ (1, 11) ∷ (3, 13) ∷ []) }
{}
