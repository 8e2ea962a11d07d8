//! Powers of the hash subkey, as factors of products.

ghost use Rattle.std.specs.Prelude.{◌≡◌, ◌<◌, ◌^◌};
ghost use Rattle.std_defs.specs.GhashField.{field_product};
ghost use Rattle.ghash_clmul.specs.Wide.{number, reduced as reduced_of};

use crate::lanes::lanes_of;
use crate::wide::{Wide, product_of, reduced};
use std::marker::Model;
use std::simd::prelude::*;

/// The block x^-2.
const OVER_X_SQUARED: u128 = 0x4600_0000_0000_0000_0000_0000_0000_0003;

/// A power of the hash subkey, kept divided by x: a reduced product is the field's product times x. Contracts see the
/// power itself.
#[derive(Drop)]
pub(crate) struct Power {
    lanes: u64x2,
}

impl Model for Power {
    ghost use Rattle.std.specs.Prelude.{ℕ, ◌<◌, ◌^◌};
    ghost use Rattle.std_defs.proofs.Multiples.{times_x};
    ghost use Rattle.ghash_clmul.specs.Wide.{number};

    ghost Value = { ℕ };

    ghost view = { λ p. times_x (number p.lanes) };

    ghost invariant = { λ p. number p.lanes < 2 ^ 128 };
}

impl Power {
    /// The block `h`. It is divided by x by the product with x^-2, so no branch depends on it.
    pub(crate) fn new(h: u128) -> Power
        ensures power { result ≡ h }
        ensures fits { result < 2 ^ 128 }
    {
        Power {
            lanes: reduced(product_of(lanes_of(h), lanes_of(OVER_X_SQUARED))),
        }
    }

    /// The product with another power.
    pub(crate) fn times(&self, other: &Power) -> Power
        ensures { result ≡ field_product self.now other.now }
    {
        Power {
            lanes: reduced(product_of(self.lanes, other.lanes)),
        }
    }

    /// The product with a block, before reduction.
    #[inline(always)]
    pub(crate) fn times_block(&self, x: u64x2) -> Wide
        ensures { reduced_of result ≡ field_product (number x) self.now }
    {
        product_of(x, self.lanes)
    }
}
