//! Round keys as they are added to one block, in the tower.

ghost use Rattle.std.specs.Prelude.{◌≡◌, ◌≤◌, ◌<◌, map};
ghost use Rattle.aes_lanes.specs.SealingTower.{ordered};
ghost use Rattle.aes_lanes.specs.RowKeys.{less_constant, AreTowerKeys};

use crate::one_block::{front_of, one_in_tower, shifted};
use crate::round_keys::RoundKey;
use std::simd::prelude::*;

/// A round key with the constant that the S-box adds, in the tower, arranged as the state of its round.
#[derive(Clone, Copy)]
pub(crate) struct TowerKey {
    pub(crate) elements: u8x16,
}

/// The key of a round, arranged by ShiftRows undone once for each round: three times undo one.
fn tower_key(key: u8x16, round: usize) -> TowerKey
    requires { round < 15 }
    ensures { ordered round result.elements ≡ map less_constant key }
{
    TowerKey {
        elements: one_in_tower(shifted(key ^ u8x16::splat(0x63), 3 * round)),
    }
}

/// The first `count` round keys for sealing one block, and keys of no meaning behind them.
pub(crate) fn tower_keys(keys: &[RoundKey; 15], count: usize) -> [TowerKey; 15]
    requires { count ≤ 15 }
    ensures { AreTowerKeys count keys.now result }
{
    let mut in_tower = [TowerKey {
        elements: u8x16::splat(0),
    }; 15];
    for round in 0..count {
        in_tower[round] = tower_key(front_of(keys[round].twice), round);
    }
    in_tower
}
