//! Looks that were made.

use alg_names::Name;
use alg_registry::Looked;
use std::marker::Model;

/// A look that was made, and what was answered.
#[derive(Drop)]
pub struct Look {
    pub(crate) name: Name,
    pub(crate) looked: Looked,
}

impl Model for Look {
    ghost use Rattle.std.specs.Prelude.{◌≡◌, true};
    ghost use Rattle.alg_names.specs.Name.{spelling};
    ghost use Rattle.templates.specs.Nesting.{is_nested_well};
    ghost use Rattle.recorded_calls.specs.Looks.{Sought};

    ghost Value = { Sought };

    ghost view = { λ look. record { text = spelling look.name; looked = look.looked } };

    ghost invariant = { λ look. is_nested_well look.name ≡ true };
}
