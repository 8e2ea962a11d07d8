//! A key that multiplies by the processor's product of polynomials, eight blocks at a time.

ghost use Rattle.std.specs.Prelude.{◌≡◌, ◌<◌, ◌^◌, length};
ghost use Rattle.std_defs.specs.GhashField.{field_power};
ghost use Rattle.std_defs.specs.Gcm.{padded_blocks};
ghost use Rattle.std_defs.proofs.Horner.{horner};
ghost use Rattle.ghash_clmul.specs.Wide.{number};

use crate::lanes::{added, lanes_at, lanes_of, number_of};
use crate::power::Power;
use crate::wide::{reduced, sum};
use ghash_field::GhashKey;
use std::simd::prelude::*;
use std_defs::block_number;

/// The hash subkey H and its powers up to the eighth (128 bytes): eight blocks are multiplied by H^8 to H, added, and
/// reduced once. Its time tells of secrets where the functions of `instructions` are not the processor's instructions:
/// use it where `has_instructions()` is true. It has no `Debug`, which would print the subkey.
#[derive(Drop)]
pub struct ClmulGhash {
    first: Power,
    second: Power,
    third: Power,
    fourth: Power,
    fifth: Power,
    sixth: Power,
    seventh: Power,
    eighth: Power,
    ghost fits: { first < 2 ^ 128 },
    ghost powers: { (second ≡ field_power first 2) × (third ≡ field_power first 3) × (fourth ≡ field_power first 4)
        × (fifth ≡ field_power first 5) × (sixth ≡ field_power first 6) × (seventh ≡ field_power first 7)
        × (eighth ≡ field_power first 8) },
}

impl ClmulGhash {
    /// The hash carried on from the block `y` over eight blocks: each is multiplied by its power, the first, to which
    /// `y` is added, by the eighth, and the sum of the products is reduced.
    #[inline(always)]
    fn eight_on(&self, y: u64x2, eight: &[u8]) -> u64x2
        requires { length eight.now ≡ 128 }
        ensures { number result ≡ horner self.now.first (number y) (padded_blocks eight.now) }
    {
        let one = self.eighth.times_block(added(y, lanes_at(eight, 0)));
        let two = sum(one, self.seventh.times_block(lanes_at(eight, 1)));
        let three = sum(two, self.sixth.times_block(lanes_at(eight, 2)));
        let four = sum(three, self.fifth.times_block(lanes_at(eight, 3)));
        let five = sum(four, self.fourth.times_block(lanes_at(eight, 4)));
        let six = sum(five, self.third.times_block(lanes_at(eight, 5)));
        let seven = sum(six, self.second.times_block(lanes_at(eight, 6)));
        reduced(sum(seven, self.first.times_block(lanes_at(eight, 7))))
    }
}

impl GhashKey for ClmulGhash {
    ghost block = { λ key. key.first };

    ghost fits = { λ key. key.fits };

    fn new(h: [u8; 16]) -> ClmulGhash {
        let first = Power::new(block_number(h));
        let second = first.times(&first);
        let third = second.times(&first);
        let fourth = third.times(&first);
        let fifth = fourth.times(&first);
        let sixth = fifth.times(&first);
        let seventh = sixth.times(&first);
        let eighth = seventh.times(&first);
        ClmulGhash {
            first,
            second,
            third,
            fourth,
            fifth,
            sixth,
            seventh,
            eighth,
        }
    }

    fn product(&self, x: u128) -> u128 {
        number_of(reduced(self.first.times_block(lanes_of(x))))
    }

    fn absorb_eight(&self, y: u128, eight: &[u8]) -> u128 {
        number_of(self.eight_on(lanes_of(y), eight))
    }
}
