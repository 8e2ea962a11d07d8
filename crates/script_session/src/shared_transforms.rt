//! Live transforms that several scripts share.

ghost use Rattle.std.specs.Prelude.{◌≡◌, find, is_some};
ghost use Rattle.std.specs.Option.{option_copied};
ghost use Rattle.dialogues.specs.Dialogues.{missing};
ghost use Rattle.dialogues.specs.ScriptState.{is_of, shared_of, either_of};
ghost use Rattle.script_session.specs.SharedTransforms.{shared_in};

use crate::scripts::Session;
use crate::transform::Transform;
use kc_base::Errno;
use std::alloc::Global;
use std::marker::Model;
use std::sync::Arc;

/// Live transforms that several scripts share, in order of allocation. No script changes any of them.
#[derive(Drop)]
pub struct Shared {
    pub(crate) transforms: Vec<Transform>,
}

impl Model for Shared {
    ghost use Rattle.std.specs.Prelude.{List};
    ghost use Rattle.dialogues.specs.ScriptState.{Live};

    ghost Value = { List Live };

    ghost view = { λ shared. shared.transforms.items };
}

impl Shared {
    /// The transform of a label.
    pub fn get(&self, label: &[u8]) -> Option<&Transform>
        ensures { option_copied result ≡ find (is_of label.now) self.now }
    {
        self.transforms.iter().find(|live| live.label() == label)
    }
}

/// The shared transform of a label, where anything is shared.
pub fn find_shared<'a>(
    shared: &'a Option<Arc<Shared, Global>>,
    label: &[u8],
) -> Option<&'a Transform>
    ensures { option_copied result ≡ find (is_of label.now) (shared_in shared.now) }
{
    match shared {
        Some(shared) => shared.get(label),
        None => None,
    }
}

impl Session {
    // Why the script has no transform of its own under a label.
    pub(crate) fn missing(&self, label: &[u8]) -> Errno
        ensures { result ≡ missing (shared_of self.now.script_state label.now) }
    {
        match find_shared(&self.shared, label) {
            Some(_) => Errno::EINVAL,
            None => Errno::ENOENT,
        }
    }

    // Whether the script has a transform of its own under a label, or shares one.
    pub(crate) fn has_label(&self, label: &[u8]) -> bool
        ensures { result ≡ is_some (either_of self.now.script_state label.now) }
    {
        self.either_of(label).is_some()
    }

    // Its own transform of a label, or else the shared one.
    pub(crate) fn either_of(&self, label: &[u8]) -> Option<&Transform>
        ensures { option_copied result ≡ either_of self.now.script_state label.now }
    {
        match self.lives.place_of(label) {
            Some(place) => Some(self.lives.get(place)),
            None => find_shared(&self.shared, label),
        }
    }
}
