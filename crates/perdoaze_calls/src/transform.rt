//! A transform: a plan, the size of its tag, and a key.

ghost use Rattle.std.specs.Prelude.{◌≡◌, ◌⊎◌, true, None};
ghost use Rattle.std.specs.Option.{ForSome};
ghost use Rattle.std.specs.Arc.{arc_value};
ghost use Rattle.transforms.specs.Plans.{tag_size_of, fits_tag};

use crate::status::Status;
use std::sync::Arc;
use templates::Plan;
use transforms::{Keyed, TfmErr, largest_tag_size};

/// A plan, the size of its tag, and a key, if one was set.
#[derive(Drop)]
pub struct Transform {
    pub plan: Plan,
    pub authsize: u32,
    pub keyed: Option<Arc<Keyed>>,
    pub ghost fits: { fits_tag plan authsize ≡ true },
    pub ghost under: { ForSome keyed (λ k. (arc_value k).0 ≡ plan) },
}

pub(crate) fn status_of(error: TfmErr) -> Status
    ensures { ((error ≡ TfmErr.Memory) × (result ≡ Status.NoMemory)) ⊎ ((error ≡ TfmErr.Inval) × (result ≡ Status.Invalid)) }
{
    match error {
        TfmErr::Memory => Status::NoMemory,
        TfmErr::Inval => Status::Invalid,
    }
}

impl Transform {
    /// A transform with no key, and the largest tag.
    pub fn new(plan: Plan) -> Transform
        ensures plan { result.plan ≡ plan }
        ensures size { result.authsize ≡ tag_size_of plan }
        ensures key { result.keyed ≡ None }
    {
        Transform {
            plan,
            authsize: largest_tag_size(&plan),
            keyed: None,
        }
    }
}
