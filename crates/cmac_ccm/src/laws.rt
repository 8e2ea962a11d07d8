//! Laws of the definitions.

ghost use Rattle.std.specs.Prelude.{◌≡◌, ◌≤◌, ℕ, List, Some};
ghost use Rattle.std_defs.specs.Gcm.{BlockFunction};
ghost use Rattle.std_defs.specs.Ccm.{ccm_seal, ccm_open};
ghost use Rattle.std_defs.specs.Value.Value.{bytes};

/// What CCM sealed opens again, whichever the cipher.
pub fn ccm_opens_what_it_sealed()
    ensures { (cipher : BlockFunction) (t : ℕ) (iv aad text made tag : List ℕ) → t ≤ 16
        → ccm_seal cipher t iv aad text ≡ Some (made, tag) → ccm_open cipher iv aad made tag ≡ bytes text }
{}
