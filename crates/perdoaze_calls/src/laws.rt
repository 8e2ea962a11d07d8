//! Laws of transforms, and of what is told of them.

ghost use Rattle.std.specs.Prelude.{◌≡◌, ◌≤◌, ◌⊎◌, ℕ, true, List, length, slice_get, Some};
ghost use Rattle.templates.specs.declared.driver_plans.Plan.{Plan};
ghost use Rattle.transforms.specs.Plans.{takes_key};
ghost use Rattle.perdoaze_calls.specs.Infos.{least_key, greatest_key, no_limit, listed};
ghost use Rattle.perdoaze_calls.specs.Laws.{TakesSize, HasFastest};

use crate::transform::Transform;

fn moves<X: Send>(_x: &X) {}

/// A transform may go from a thread to another: it is `Send`. So may one that shares its key with others.
pub fn transforms_cross(transform: &Transform) {
    moves(transform);
}

/// The list of all drivers has each plan, and each once.
pub fn list_is_whole()
    ensures whole { (p : Plan) → (i : ℕ) × (slice_get listed i ≡ Some p) }
    ensures once { (i j : ℕ) (p : Plan) → slice_get listed i ≡ Some p → slice_get listed j ≡ Some p → i ≡ j }
{}

/// The key sizes that are told are exact. Where there is no limit, each size from the smallest on is taken.
pub fn key_sizes_are_exact()
    ensures smallest { (p : Plan) → TakesSize p (least_key p) }
    ensures none_smaller { (p : Plan) (key : List ℕ) → takes_key p key ≡ true → least_key p ≤ length key }
    ensures greatest { (p : Plan) → TakesSize p (greatest_key p) }
    ensures none_greater { (p : Plan) (key : List ℕ) → takes_key p key ≡ true
        → (length key ≤ greatest_key p) ⊎ (greatest_key p ≡ no_limit) }
    ensures unlimited { (p : Plan) (n : ℕ) → greatest_key p ≡ no_limit → least_key p ≤ n → TakesSize p n }
{}

/// An algorithm's name stands for a driver of that algorithm, and no driver of it that is listed has a greater
/// priority.
pub fn names_stand_for_the_fastest()
    ensures { (p : Plan) → HasFastest p }
{}
