//! Pointers to transforms, as C keeps them.

ghost use Rattle.std.specs.Prelude.{◌≡◌, Option, Some, None, true, false};
ghost use Rattle.perdoaze_calls.specs.declared.transform.Transform.{Transform};
ghost use Rattle.perdoaze_calls.specs.Slots.{held_at, is_filled};

use crate::loose::Loose;
use crate::transform::Transform;
use std::alloc::Global;
use std::marker::Model;

/// A pointer that owns a transform, or nothing. It can't be dropped: one that owns nothing is
/// discarded.
#[repr(C)]
pub struct Handle {
    at: *mut u8,
    pub ghost value: { Option Transform },
}

impl Model for Handle {
    ghost also_owns = { λ h. held_at h.at h.value };
}

impl Handle {
    /// The handle of a transform.
    pub fn of(loose: Loose<Transform, Global>) -> Handle
        ensures { result.value ≡ Some loose.value }
    {
        let Loose { ptr, alloc: _ } = loose;
        Handle { at: ptr as *mut u8 }
    }

    /// The transform.
    pub fn into_loose(self, alloc: Global) -> Loose<Transform, Global>
        requires { is_filled self.value ≡ true }
        ensures { self.value ≡ Some result.value }
    {
        let Handle { at } = self;
        Loose {
            ptr: at as *mut Transform,
            alloc,
        }
    }

    /// Lets a handle of nothing go.
    pub fn discard(self)
        requires { is_filled self.value ≡ false }
    {
        let Handle { at: _at } = self;
    }

    /// A handle of nothing.
    pub fn empty() -> Handle
        ensures { result.value ≡ None }
    {
        Handle {
            at: std::ptr::null_mut(),
        }
    }
}
