//! A key that multiplies by shuffles, eight blocks at a time.

ghost use Rattle.std.specs.Prelude.{◌≡◌, ◌<◌, ◌≤◌, ◌^◌, ◌+◌, ◌*◌, length, bit_xor};
ghost use Rattle.std_defs.specs.Blocks.{block_number as number_of, text_block};
ghost use Rattle.std_defs.specs.GhashField.{field_product, field_power};
ghost use Rattle.ghash_field.specs.ByteRows.{column, sum_of_eight};

use crate::byte_rows::{Halves, Rows, halves_of, lanes_of, sum, together};
use crate::key::GhashKey;
use crate::wide_sum::{carried, moved, reduced};
use std::simd::prelude::*;
use std_defs::block_number;

/// The hash subkey H and its powers up to the eighth, each with the rows of its products (4 KiB): eight blocks are
/// multiplied by H^8 to H and added. No address and no branch depends on the subkey or on what is hashed.
#[derive(Drop)]
pub struct LaneGhash {
    first: Rows,
    second: Rows,
    third: Rows,
    fourth: Rows,
    fifth: Rows,
    sixth: Rows,
    seventh: Rows,
    eighth: Rows,
    ghost powers: { (second.h ≡ field_power first.h 2) × (third.h ≡ field_power first.h 3) × (fourth.h ≡ field_power first.h 4)
        × (fifth.h ≡ field_power first.h 5)
        × (sixth.h ≡ field_power first.h 6) × (seventh.h ≡ field_power first.h 7) × (eighth.h ≡ field_power first.h 8) },
}

/// Eight blocks.
#[derive(Clone, Copy)]
struct Eight {
    first: Halves,
    second: Halves,
    third: Halves,
    fourth: Halves,
    fifth: Halves,
    sixth: Halves,
    seventh: Halves,
    eighth: Halves,
}

/// The product of a block and that of the rows.
fn product_by(rows: &Rows, x: Halves) -> u128
    ensures { result ≡ field_product (number_of x.bytes) rows.now.h }
{
    let mut low = u8x16::splat(0);
    let mut high = u8x16::splat(0);
    for k in 0..16usize {
        let entries = together(rows.looked_up(15 - k, x));
        high = carried(low, high);
        low = moved(low, entries);
    }
    reduced(low, high)
}

/// The bytes of block `j`.
#[inline(always)]
#[tactic(auto, unfolding(std_defs::specs::Blocks::text_block))]
fn lanes_at(text: &[u8], j: usize) -> u8x16
    requires { 16 * j + 16 ≤ length text.now }
    ensures { result ≡ text_block text.now j }
{
    u8x16::from_slice(&text[16 * j..16 * j + 16])
}

/// The sum of two blocks.
#[inline(always)]
fn added(x: u8x16, y: u8x16) -> u8x16
    ensures { number_of result ≡ bit_xor (number_of x) (number_of y) }
{
    x ^ y
}

impl LaneGhash {
    /// The entries of row `k` of all eight.
    #[inline(always)]
    fn all_looked_up(&self, k: usize, x: Eight) -> u8x16
        requires { k < 16 }
        ensures { number_of result ≡ sum_of_eight
            (column self.now.eighth.h k x.first.bytes) (column self.now.seventh.h k x.second.bytes)
            (column self.now.sixth.h k x.third.bytes) (column self.now.fifth.h k x.fourth.bytes)
            (column self.now.fourth.h k x.fifth.bytes) (column self.now.third.h k x.sixth.bytes)
            (column self.now.second.h k x.seventh.bytes) (column self.now.first.h k x.eighth.bytes) }
    {
        let a = sum(
            self.eighth.looked_up(k, x.first),
            self.seventh.looked_up(k, x.second),
        );
        let b = sum(
            self.sixth.looked_up(k, x.third),
            self.fifth.looked_up(k, x.fourth),
        );
        let c = sum(
            self.fourth.looked_up(k, x.fifth),
            self.third.looked_up(k, x.sixth),
        );
        let d = sum(
            self.second.looked_up(k, x.seventh),
            self.first.looked_up(k, x.eighth),
        );
        together(sum(sum(a, b), sum(c, d)))
    }

    /// The sum of the products of eight blocks, the first with the eighth power.
    fn sum_of_products(&self, x: Eight) -> u128
        ensures { result ≡ sum_of_eight
            (field_product (number_of x.first.bytes) self.now.eighth.h) (field_product (number_of x.second.bytes) self.now.seventh.h)
            (field_product (number_of x.third.bytes) self.now.sixth.h) (field_product (number_of x.fourth.bytes) self.now.fifth.h)
            (field_product (number_of x.fifth.bytes) self.now.fourth.h) (field_product (number_of x.sixth.bytes) self.now.third.h)
            (field_product (number_of x.seventh.bytes) self.now.second.h) (field_product (number_of x.eighth.bytes) self.now.first.h) }
    {
        let mut low = u8x16::splat(0);
        let mut high = u8x16::splat(0);
        for k in 0..16usize {
            let entries = self.all_looked_up(15 - k, x);
            high = carried(low, high);
            low = moved(low, entries);
        }
        reduced(low, high)
    }
}

impl GhashKey for LaneGhash {
    ghost block = { λ key. key.first.h };

    ghost fits = { λ key. key.first.fits };

    fn new(h: [u8; 16]) -> LaneGhash {
        let h = block_number(h);
        let first = Rows::new(h);
        let second = Rows::new(product_by(&first, halves_of(lanes_of(h))));
        let third = Rows::new(product_by(&first, halves_of(lanes_of(second.h))));
        let fourth = Rows::new(product_by(&first, halves_of(lanes_of(third.h))));
        let fifth = Rows::new(product_by(&first, halves_of(lanes_of(fourth.h))));
        let sixth = Rows::new(product_by(&first, halves_of(lanes_of(fifth.h))));
        let seventh = Rows::new(product_by(&first, halves_of(lanes_of(sixth.h))));
        let eighth = Rows::new(product_by(&first, halves_of(lanes_of(seventh.h))));
        LaneGhash {
            first,
            second,
            third,
            fourth,
            fifth,
            sixth,
            seventh,
            eighth,
        }
    }

    fn product(&self, x: u128) -> u128 {
        product_by(&self.first, halves_of(lanes_of(x)))
    }

    fn absorb_eight(&self, y: u128, eight: &[u8]) -> u128 {
        self.sum_of_products(Eight {
            first: halves_of(added(lanes_of(y), lanes_at(eight, 0))),
            second: halves_of(lanes_at(eight, 1)),
            third: halves_of(lanes_at(eight, 2)),
            fourth: halves_of(lanes_at(eight, 3)),
            fifth: halves_of(lanes_at(eight, 4)),
            sixth: halves_of(lanes_at(eight, 5)),
            seventh: halves_of(lanes_at(eight, 6)),
            eighth: halves_of(lanes_at(eight, 7)),
        })
    }
}
