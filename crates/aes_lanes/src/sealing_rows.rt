//! The steps of sealing on eight blocks by rows.

ghost use Rattle.std.specs.Prelude.{◌≡◌, ℕ, [], ◌∷◌, map};
ghost use Rattle.std_defs.specs.Aes.{shift_rows, mix_columns};
ghost use Rattle.aes_lanes.specs.SealingTower.{tower_byte, less_sbox};
ghost use Rattle.aes_lanes.specs.Rows.{eight_blocks, tower_blocks, with_sealing_key};

use crate::row_keys::RowKey;
use crate::rows::{Rows, in_both, one_column_on, three_columns_on, two_columns_on};
use crate::sealing_tower::{added, made};
use std::simd::prelude::*;

/// ShiftRows of all blocks, and of what is made of each byte.
#[inline(always)]
pub(crate) fn shifted_rows(s: Rows) -> Rows
    ensures { (g : ℕ → ℕ) → map (map g) (tower_blocks result) ≡ map shift_rows (map (map g) (tower_blocks s)) }
{
    Rows {
        first: s.first,
        second: one_column_on(s.second),
        third: two_columns_on(s.third),
        fourth: three_columns_on(s.fourth),
    }
}

/// SubBytes less its constant, and MixColumns, of all blocks, from the rows.
#[inline(always)]
pub(crate) fn made_and_mixed(a: u8x32, b: u8x32, c: u8x32, d: u8x32) -> Rows
    ensures { tower_blocks result ≡ map mix_columns (map (map less_sbox) (map (map tower_byte) (eight_blocks (a ∷ b ∷ c ∷ d ∷ [])))) }
{
    let (a, twice_a) = made(a);
    let (b, twice_b) = made(b);
    let (c, twice_c) = made(c);
    let (d, twice_d) = made(d);
    let ab = added(a, b);
    let bc = added(b, c);
    let cd = added(c, d);
    let da = added(d, a);
    Rows {
        first: added(added(added(twice_a, twice_b), b), cd),
        second: added(added(added(twice_b, twice_c), c), da),
        third: added(added(added(twice_c, twice_d), d), ab),
        fourth: added(added(added(twice_d, twice_a), a), bc),
    }
}

/// Adds a round key to all blocks.
#[inline(always)]
pub(crate) fn sealing_key_added(s: Rows, key: RowKey) -> Rows
    ensures { tower_blocks result
        ≡ eight_blocks (with_sealing_key s.first key.first ∷ with_sealing_key s.second key.second
        ∷ with_sealing_key s.third key.third ∷ with_sealing_key s.fourth key.fourth ∷ []) }
{
    Rows {
        first: added(s.first, in_both(key.first)),
        second: added(s.second, in_both(key.second)),
        third: added(s.third, in_both(key.third)),
        fourth: added(s.fourth, in_both(key.fourth)),
    }
}
