//! The key and the tag size of a transform.

ghost use Rattle.std.specs.Prelude.{Some};
ghost use Rattle.perdoaze_calls.specs.Settings.{KeySet, SizeSet};

use crate::status::Status;
use crate::transform::{Transform, status_of};
use std::alloc::Global;
use std::sync::Arc;
use transforms::{Keyed, tag_size};

impl Transform {
    /// Sets the key. `Invalid` exactly where the plan doesn't take it, unless memory ran out: the key stays as it was
    /// then.
    pub fn set_key(&mut self, alloc: Global, key: &[u8]) -> Status
        ensures { KeySet (Some self.old) (Some self.new) key.now result }
    {
        let keyed = match Keyed::set(alloc, &self.plan, key) {
            Ok(keyed) => keyed,
            Err(error) => return status_of(error),
        };
        match Arc::new(alloc, keyed) {
            Ok(keyed) => {
                self.keyed = Some(keyed);
                Status::Done
            }
            Err(_) => Status::NoMemory,
        }
    }

    /// Sets the size of the tag. `Invalid` exactly where the plan doesn't take it: it stays as it was then.
    pub fn set_tag_size(&mut self, n: u32) -> Status
        ensures { SizeSet (Some self.old) (Some self.new) n result }
    {
        match tag_size(&self.plan, n) {
            Ok(()) => {
                self.authsize = n;
                Status::Done
            }
            Err(_) => Status::Invalid,
        }
    }
}
