//! Powers of r, and blocks multiplied by them.

ghost use Rattle.std.specs.Prelude.{◌≡◌, ℕ, ◌+◌, ◌*◌, ◌/◌, ◌%◌, ◌^◌, ◌<◌, ◌≤◌, [], ◌∷◌, length, take, drop, slice_index};
ghost use Rattle.std_defs.specs.Poly1305.{prime, clamped, accumulated, message_block};
ghost use Rattle.poly1305.specs.Limbs.{limb, value_in, value_of, fronted, AreBelow, HasRow, HasPowers};

use crate::blocks::four_blocks;
use crate::limbs::{carried, multiplied, products, sum};
use crate::sums::{in_first_lane, limbs_of, sum_of_lanes};
use std::simd::prelude::*;

/// What stands in the fifth limb of a whole block: the byte 01 behind its sixteen bytes (2.5.1).
pub(crate) const WHOLE: u64 = 1 << 24;

/// Five limbs, in lanes.
#[derive(Drop)]
struct Limbs {
    l0: u64x4,
    l1: u64x4,
    l2: u64x4,
    l3: u64x4,
    l4: u64x4,
}

impl Limbs {
    /// The limbs as an array.
    #[inline(always)]
    fn array(&self) -> [u64x4; 5]
        ensures { result ≡ self.now.l0 ∷ self.now.l1 ∷ self.now.l2 ∷ self.now.l3 ∷ self.now.l4 ∷ [] }
    {
        [self.l0, self.l1, self.l2, self.l3, self.l4]
    }
}

/// The limbs of an array.
#[inline(always)]
fn kept(x: [u64x4; 5]) -> Limbs
    ensures { x ≡ result.l0 ∷ result.l1 ∷ result.l2 ∷ result.l3 ∷ result.l4 ∷ [] }
{
    let [l0, l1, l2, l3, l4] = x;
    Limbs { l0, l1, l2, l3, l4 }
}

/// r with its powers: the fourth in each lane, and the fourth to the first in one lane each.
#[derive(Drop)]
pub(crate) struct Powers {
    each: Limbs,
    last: Limbs,
    pub(crate) r: u128,
    ghost powers: { HasPowers r (each.l0 ∷ each.l1 ∷ each.l2 ∷ each.l3 ∷ each.l4 ∷ [])
        (last.l0 ∷ last.l1 ∷ last.l2 ∷ last.l3 ∷ last.l4 ∷ []) },
}

/// The first lanes of four vectors.
#[inline(always)]
fn side_by_side(fourth: u64x4, third: u64x4, second: u64x4, first: u64x4) -> u64x4
    ensures lane0 { slice_index result 0 ≡ slice_index fourth 0 }
    ensures lane1 { slice_index result 1 ≡ slice_index third 0 }
    ensures lane2 { slice_index result 2 ≡ slice_index second 0 }
    ensures lane3 { slice_index result 3 ≡ slice_index first 0 }
{
    u64x4::from_array([
        fourth.to_array()[0],
        third.to_array()[0],
        second.to_array()[0],
        first.to_array()[0],
    ])
}

/// A number in each lane.
#[inline(always)]
fn everywhere(limbs: [u64; 5]) -> [u64x4; 5]
    ensures { (j k : ℕ) → j < 4 → limb result k j ≡ slice_index limbs k }
{
    [
        u64x4::splat(limbs[0]),
        u64x4::splat(limbs[1]),
        u64x4::splat(limbs[2]),
        u64x4::splat(limbs[3]),
        u64x4::splat(limbs[4]),
    ]
}

/// Four powers, each in a lane.
#[inline(always)]
fn in_lanes(
    fourth: [u64x4; 5],
    third: [u64x4; 5],
    second: [u64x4; 5],
    first: [u64x4; 5],
) -> [u64x4; 5]
    ensures lane0 { (k : ℕ) → limb result k 0 ≡ limb fourth k 0 }
    ensures lane1 { (k : ℕ) → limb result k 1 ≡ limb third k 0 }
    ensures lane2 { (k : ℕ) → limb result k 2 ≡ limb second k 0 }
    ensures lane3 { (k : ℕ) → limb result k 3 ≡ limb first k 0 }
{
    [
        side_by_side(fourth[0], third[0], second[0], first[0]),
        side_by_side(fourth[1], third[1], second[1], first[1]),
        side_by_side(fourth[2], third[2], second[2], first[2]),
        side_by_side(fourth[3], third[3], second[3], first[3]),
        side_by_side(fourth[4], third[4], second[4], first[4]),
    ]
}

/// The last lanes of a vector, from place `4 - n` on, in front of zeros.
#[inline(always)]
fn last_lanes(x: u64x4, n: usize) -> u64x4
    requires { (1 ≤ n) × (n ≤ 4) }
    ensures one { n ≡ 1 → result ≡ slice_index x 3 ∷ 0 ∷ 0 ∷ 0 ∷ [] }
    ensures two { n ≡ 2 → result ≡ slice_index x 2 ∷ slice_index x 3 ∷ 0 ∷ 0 ∷ [] }
    ensures three { n ≡ 3 → result ≡ slice_index x 1 ∷ slice_index x 2 ∷ slice_index x 3 ∷ 0 ∷ [] }
    ensures four { n ≡ 4 → result ≡ slice_index x 0 ∷ slice_index x 1 ∷ slice_index x 2 ∷ slice_index x 3 ∷ [] }
{
    let [a, b, c, d] = x.to_array();
    u64x4::from_array(match n {
        1 => [d, 0, 0, 0],
        2 => [c, d, 0, 0],
        3 => [b, c, d, 0],
        _ => [a, b, c, d],
    })
}

/// A group of four blocks more, in lanes whose carries have not been taken on. The sums are carried at the start of the
/// next step and not at the end of this one: so the compiler sees that both factors of a product have 32 bits, and
/// takes one instruction for it.
#[inline(always)]
fn next_group(h: [u64x4; 5], power: [u64x4; 5], bytes: &[u8], at: usize, front: u64) -> [u64x4; 5]
    requires within { at + 64 ≤ length bytes.now }
    requires front { front < 2 ^ 25 }
    ensures below { (j : ℕ) → j < 4 → AreBelow (2 ^ 61) h j → AreBelow (2 ^ 27) power j → AreBelow (2 ^ 61) result j }
    ensures value { (j : ℕ) → j < 4 → AreBelow (2 ^ 61) h j → AreBelow (2 ^ 27) power j
        → value_in result j % prime ≡ (value_in h j + fronted front (take 16 (drop (at + 16 * j) bytes.now))) * value_in power j % prime }
{
    let m = four_blocks(bytes, at, u64x4::splat(front));
    products(sum(carried(h), m), power)
}

impl Powers {
    /// The powers of r, clamped.
    pub(crate) fn new(r: u128) -> Self
        ensures { result.r ≡ clamped r }
    {
        let r = r & 0x0ffffffc0ffffffc0ffffffc0fffffff;
        let first = everywhere(limbs_of(r));
        let second = multiplied(first, first);
        let third = multiplied(second, first);
        let fourth = multiplied(second, second);
        Powers {
            each: kept(fourth),
            last: kept(in_lanes(fourth, third, second, first)),
            r,
        }
    }

    /// The powers that the last `n` blocks are multiplied by, one to four of them: the n-th to the first, and zeros.
    fn of_blocks(&self, n: usize) -> [u64x4; 5]
        requires { (1 ≤ n) × (n ≤ 4) }
        ensures below { (j : ℕ) → j < 4 → AreBelow (2 ^ 27) result j }
        ensures one { let r = self.now.r in n ≡ 1 → HasRow result r 0 0 0 }
        ensures two { let r = self.now.r in n ≡ 2 → HasRow result (r * r) r 0 0 }
        ensures three { let r = self.now.r in n ≡ 3 → HasRow result (r * r * r) (r * r) r 0 }
        ensures four { let r = self.now.r in n ≡ 4 → HasRow result (r * r * r * r) (r * r * r) (r * r) r }
    {
        let [l0, l1, l2, l3, l4] = self.last.array();
        [
            last_lanes(l0, n),
            last_lanes(l1, n),
            last_lanes(l2, n),
            last_lanes(l3, n),
            last_lanes(l4, n),
        ]
    }

    /// The value after `n` blocks more, one to four of them, that stand in the front of 64 bytes.
    pub(crate) fn after_blocks(
        &self,
        value: [u64; 5],
        bytes: &[u8; 64],
        n: usize,
        front: u64,
    ) -> [u64; 5]
        requires some { (1 ≤ n) × (n ≤ 4) }
        requires front { front < 2 ^ 25 }
        requires below { (k : ℕ) → slice_index value k < 2 ^ 29 }
        ensures value { value_of result % prime
            ≡ accumulated self.now.r (λ i. fronted front (take 16 (drop (16 * i) bytes.now))) (value_of value) n % prime }
        ensures below { (k : ℕ) → slice_index result k < 2 ^ 29 }
    {
        let next = next_group(in_first_lane(value), self.of_blocks(n), bytes, 0, front);
        sum_of_lanes(carried(next))
    }

    /// The value after whole groups of four blocks more.
    pub(crate) fn after_groups(&self, value: [u64; 5], bytes: &[u8]) -> [u64; 5]
        requires some { 64 ≤ length bytes.now }
        requires whole { length bytes.now % 64 ≡ 0 }
        requires below { (k : ℕ) → slice_index value k < 2 ^ 29 }
        ensures value { value_of result % prime
            ≡ accumulated self.now.r (message_block bytes.now) (value_of value) (length bytes.now / 16) % prime }
        ensures below { (k : ℕ) → slice_index result k < 2 ^ 29 }
    {
        let groups = bytes.len() / 64;
        let mut h = in_first_lane(value);
        for g in 0..groups - 1 {
            let next = next_group(h, self.each.array(), bytes, 64 * g, WHOLE);
            h = next;
        }
        let next = next_group(h, self.last.array(), bytes, 64 * (groups - 1), WHOLE);
        sum_of_lanes(carried(next))
    }
}
