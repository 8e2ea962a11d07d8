//! What holds of every history that a shared registry can have.
ghost use Rattle.shared_registry.specs.Faithful.{IsFaithful};
ghost use Rattle.shared_registry.specs.Trial.{side_by_side};
ghost use Rattle.shared_registry.specs.Laws.{FoundStays, NothingIsLeft, WorksStill, WorksOn};
ghost use Rattle.shared_registry.specs.Learned.{RegistryLaws};

use alg_registry::{all_ended, names_exist, own_calls};

/// What a look came to stays, and where each look that was asked for has come to something, nothing is left to build.
pub fn builds_end()
    ensures found { FoundStays }
    ensures nothing_left { NothingIsLeft }
{
    all_ended();
    registry_laws();
}

/// What a pass went through while it built and waited, in several calls together.
pub fn building_goes_on()
    ensures still { WorksStill }
    ensures on { WorksOn }
{}

/// Two callers build side by side: one waits for what the other ends, one end joins another's entry, and one fails.
pub fn builds_interleave()
    ensures { IsFaithful side_by_side }
{}

/// The registry's own laws, together.
pub(crate) fn registry_laws()
    ensures { RegistryLaws }
{
    own_calls();
    names_exist();
}
