//! Round keys as they are added to two blocks side by side while these are sealed.

ghost use Rattle.std.specs.Prelude.{◌≡◌, ◌≤◌, map};
ghost use Rattle.aes_lanes.specs.RowKeys.{less_constant, ArePairKeys};
ghost use Rattle.aes_lanes.specs.SealingTower.{tower_byte};

use crate::round_keys::RoundKey;
use crate::sealing_tower::in_sealing_tower;
use std::simd::prelude::*;

/// A round key with the constant that the S-box adds, in the tower, twice.
#[derive(Clone, Copy)]
pub(crate) struct PairKey {
    pub(crate) elements: u8x32,
}

fn pair_key(key: u8x32) -> PairKey
    ensures { map tower_byte result.elements ≡ map less_constant key }
{
    PairKey {
        elements: in_sealing_tower(key ^ u8x32::splat(0x63)),
    }
}

/// The first `count` round keys for sealing two blocks, and keys of no meaning behind them.
pub(crate) fn pair_keys(keys: &[RoundKey; 15], count: usize) -> [PairKey; 15]
    requires { count ≤ 15 }
    ensures { ArePairKeys count keys.now result }
{
    let mut pairs = [PairKey {
        elements: u8x32::splat(0),
    }; 15];
    for round in 0..count {
        pairs[round] = pair_key(keys[round].twice);
    }
    pairs
}
