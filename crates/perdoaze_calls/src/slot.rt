//! What C keeps of a transform: `struct perdoaze`.

ghost use Rattle.std.specs.Prelude.{◌≡◌, Some, None};
ghost use Rattle.std.specs.Option.{option_map};
ghost use Rattle.std.specs.Box.{box_value};
ghost use Rattle.perdoaze_calls.specs.Slots.{is_filled};

use crate::handle::Handle;
use crate::loose::Loose;
use crate::transform::Transform;
use std::alloc::Global;
use std::mem;

/// A place for a transform. C begins with one whose bytes are all 0: it has none. It can't be dropped, so
/// that no transform is lost.
#[repr(C)]
pub struct Slot {
    full: bool,
    pub handle: Handle,
    ghost tied: { full ≡ is_filled handle.value },
}

impl Slot {
    /// A place that has none.
    fn empty() -> Slot
        ensures { result.handle.value ≡ None }
    {
        Slot {
            full: false,
            handle: Handle::empty(),
        }
    }

    /// Puts a transform into a place that has none.
    pub fn fill(&mut self, transform: Box<Transform>)
        requires { self.old.handle.value ≡ None }
        ensures { self.new.handle.value ≡ Some transform.value }
    {
        let filled = Slot {
            full: true,
            handle: Handle::of(Loose::of(transform)),
        };
        let Slot { full: _, handle } = mem::replace(self, filled);
        handle.discard();
    }

    /// Takes the transform out of the place, where there is one.
    pub fn take(&mut self, alloc: Global) -> Option<Box<Transform>>
        ensures taken { option_map box_value result ≡ self.old.handle.value }
        ensures left { self.new.handle.value ≡ None }
    {
        let Slot { full, handle } = mem::replace(self, Slot::empty());
        if full {
            Some(handle.into_loose(alloc).into_box())
        } else {
            handle.discard();
            None
        }
    }
}
