//! A key that multiplies bit by bit.

ghost use Rattle.std.specs.Prelude.{◌<◌, ◌^◌};

use crate::key::GhashKey;
use crate::product::multiply;
use std_defs::block_number;

/// The hash subkey as it is: each product goes over its 128 bits. The source has no branch and no address that depends
/// on them, but LLVM makes branches of it for x86-64-v2: where secrets matter, take `LaneGhash`. It has no `Debug`,
/// which would print the subkey.
#[derive(Clone, Copy, Drop)]
pub struct BitGhash {
    h: u128,
    ghost fits: { h < 2 ^ 128 },
}

impl GhashKey for BitGhash {
    ghost block = { λ key. key.h };

    ghost fits = { λ key. key.fits };

    fn new(h: [u8; 16]) -> BitGhash {
        BitGhash { h: block_number(h) }
    }

    fn product(&self, x: u128) -> u128 {
        multiply(x, self.h)
    }
}
