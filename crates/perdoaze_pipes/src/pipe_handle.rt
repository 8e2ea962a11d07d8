//! Pointers to pipes, as C keeps them.

ghost use Rattle.std.specs.Prelude.{◌≡◌, Option, Some, None, true, false};
ghost use Rattle.perdoaze_pipes.specs.declared.pipe.Pipe.{Pipe};
ghost use Rattle.perdoaze_calls.specs.Slots.{is_filled};
ghost use Rattle.perdoaze_pipes.specs.PipePlaces.{held_at};

use crate::pipe::Pipe;
use perdoaze_calls::Loose;
use std::alloc::Global;
use std::marker::Model;

/// A pointer that owns a pipe, or nothing. It can't be dropped: one that owns nothing is
/// discarded.
#[repr(C)]
pub struct PipeHandle {
    at: *mut u8,
    pub ghost value: { Option Pipe },
}

impl Model for PipeHandle {
    ghost also_owns = { λ h. held_at h.at h.value };
}

impl PipeHandle {
    /// The handle of a pipe.
    pub fn of(loose: Loose<Pipe, Global>) -> PipeHandle
        ensures { result.value ≡ Some loose.value }
    {
        let Loose { ptr, alloc: _ } = loose;
        PipeHandle { at: ptr as *mut u8 }
    }

    /// The pipe.
    pub fn into_loose(self, alloc: Global) -> Loose<Pipe, Global>
        requires { is_filled self.value ≡ true }
        ensures { self.value ≡ Some result.value }
    {
        let PipeHandle { at } = self;
        Loose {
            ptr: at as *mut Pipe,
            alloc,
        }
    }

    /// Lets a handle of nothing go.
    pub fn discard(self)
        requires { is_filled self.value ≡ false }
    {
        let PipeHandle { at: _at } = self;
    }

    /// A handle of nothing.
    pub fn empty() -> PipeHandle
        ensures { result.value ≡ None }
    {
        PipeHandle {
            at: std::ptr::null_mut(),
        }
    }
}
