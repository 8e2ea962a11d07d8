//! A second transform under the same key.

ghost use Rattle.std.specs.Prelude.{◌≡◌, MatchResult};
ghost use Rattle.perdoaze_calls.specs.Settings.{IsDuplicate};

use crate::status::Status;
use crate::transform::Transform;
use std::alloc::Global;

/// A transform in memory of its own. Only want of memory is an error.
fn boxed(alloc: Global, transform: Transform) -> Result<Box<Transform>, Status>
    ensures { MatchResult result (λ made. made.value ≡ transform) (λ e. e ≡ Status.NoMemory) }
{
    match Box::new(alloc, transform) {
        Ok(made) => Ok(made),
        Err(_) => Err(Status::NoMemory),
    }
}

impl Transform {
    /// A second transform with the same plan, tag size and key. Both share the key. Only want of memory is an error.
    pub fn duplicate(&self, alloc: Global) -> Result<Box<Transform>, Status>
        ensures { MatchResult result (λ made. IsDuplicate self.now made.value) (λ e. e ≡ Status.NoMemory) }
    {
        let plan = self.plan;
        let authsize = self.authsize;
        match &self.keyed {
            None => boxed(
                alloc,
                Transform {
                    plan,
                    authsize,
                    keyed: None,
                },
            ),
            Some(kept) => match kept.clone() {
                Ok(shared) => boxed(
                    alloc,
                    Transform {
                        plan,
                        authsize,
                        keyed: Some(shared),
                    },
                ),
                Err(_) => Err(Status::NoMemory),
            },
        }
    }
}
