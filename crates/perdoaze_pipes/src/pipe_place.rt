//! What C keeps of a pipe: `struct perdoaze_pipe`.

ghost use Rattle.std.specs.Prelude.{◌≡◌, Some, None};
ghost use Rattle.std.specs.Option.{option_map};
ghost use Rattle.std.specs.Box.{box_value};
ghost use Rattle.perdoaze_calls.specs.Slots.{is_filled};

use crate::pipe::Pipe;
use crate::pipe_handle::PipeHandle;
use perdoaze_calls::Loose;
use std::alloc::Global;
use std::mem;

/// A place for a pipe. C begins with one whose bytes are all 0: it has none. It can't be dropped, so
/// that no pipe is lost.
#[repr(C)]
pub struct PipePlace {
    full: bool,
    pub handle: PipeHandle,
    ghost tied: { full ≡ is_filled handle.value },
}

impl PipePlace {
    /// A place that has none.
    fn empty() -> PipePlace
        ensures { result.handle.value ≡ None }
    {
        PipePlace {
            full: false,
            handle: PipeHandle::empty(),
        }
    }

    /// Puts a pipe into a place that has none.
    pub fn fill(&mut self, pipe: Box<Pipe>)
        requires { self.old.handle.value ≡ None }
        ensures { self.new.handle.value ≡ Some pipe.value }
    {
        let filled = PipePlace {
            full: true,
            handle: PipeHandle::of(Loose::of(pipe)),
        };
        let PipePlace { full: _, handle } = mem::replace(self, filled);
        handle.discard();
    }

    /// Takes the pipe out of the place, where there is one.
    pub fn take(&mut self, alloc: Global) -> Option<Box<Pipe>>
        ensures taken { option_map box_value result ≡ self.old.handle.value }
        ensures left { self.new.handle.value ≡ None }
    {
        let PipePlace { full, handle } = mem::replace(self, PipePlace::empty());
        if full {
            Some(handle.into_loose(alloc).into_box())
        } else {
            handle.discard();
            None
        }
    }
}
