//! Which workers may take from a pad.

ghost use Rattle.std.specs.Prelude.{◌≡◌, ◌-◌, ◌≤◌, ◌^◌, MatchBool};
ghost use Rattle.board.specs.Entries.{IsMasked};

/// Whether the caller is a worker whose bit is set.
pub(crate) fn is_masked(mask: u16, caller: u32) -> bool
    ensures { MatchBool result (IsMasked mask caller) (IsMasked mask caller → ⊥) }
{
    if caller < 1 || caller > 16 {
        return false;
    }
    (u32::from(mask) >> (caller - 1)) & 1 == 1
}

/// The bits of so many workers.
pub(crate) fn full_mask(lists: u32) -> u16
    requires { lists ≤ 16 }
    ensures { result ≡ 2 ^ lists - 1 }
{
    ((1u32 << lists) - 1) as u16
}
