//! What a hash needs of a key.

ghost use Rattle.std.specs.Prelude.{◌≡◌, ◌<◌, ◌^◌, ℕ, length};
ghost use Rattle.std_defs.specs.Blocks.{block_number as number_of, block_bytes as bytes_of};
ghost use Rattle.std_defs.specs.GhashField.{field_product};
ghost use Rattle.std_defs.specs.Gcm.{padded_blocks};
ghost use Rattle.std_defs.proofs.Horner.{horner};

use crate::block::block_at;
use std_defs::{block_bytes, block_number};

/// The hash subkey H, prepared for products by it (NIST SP 800-38D, 6.4).
pub trait GhashKey {
    /// The block H, as a number.
    ghost block: { Self → ℕ };

    /// Prepares H, the cipher of the block of zeros.
    fn new(h: [u8; 16]) -> Self
        ensures { block result ≡ number_of h };

    /// The product of the block whose number is `x` and H.
    fn product(&self, x: u128) -> u128
        ensures { result ≡ field_product x (block self.now) };

    /// The product of the block `x` and H.
    fn mul(&self, x: [u8; 16]) -> [u8; 16]
        ensures product { result ≡ bytes_of (field_product (number_of x) (block self.now)) }
        ensures fits { block self.now < 2 ^ 128 }
    {
        block_bytes(self.product(block_number(x)))
    }

    /// The hash carried on from `y` over eight blocks: each is added, and the sum is multiplied by H.
    fn absorb_eight(&self, y: u128, eight: &[u8]) -> u128
        requires { length eight.now ≡ 128 }
        ensures { result ≡ horner (block self.now) y (padded_blocks eight.now) }
    {
        let mut y = y;
        for i in 0..8usize {
            y = self.product(y ^ block_at(eight, i));
        }
        y
    }

    /// H is a block.
    ghost fits: { (k : Self) → block k < 2 ^ 128 };
}
