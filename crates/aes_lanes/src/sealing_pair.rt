//! Sealing two blocks side by side, in a vector of 32 bytes.

ghost use Rattle.std.specs.Prelude.{◌≡◌, map, bit_xor};
ghost use Rattle.std.specs.Simd.Lanes.{zip2};
ghost use Rattle.std_defs.specs.Aes.{seal, mix_columns};
ghost use Rattle.aes_lanes.specs.Key.{lane_key};
ghost use Rattle.aes_lanes.specs.Pairs.{each_half};
ghost use Rattle.aes_lanes.specs.SealingTower.{tower_byte, less_sbox};

use crate::columns::{one_on, shifted, three_on};
use crate::lane_schedule::LaneSchedule;
use crate::sealing_tower::{added, made};
use std::simd::prelude::*;

/// The rest of a round behind ShiftRows, of two blocks in the tower, under a key to which the constant of the S-box was
/// added.
#[inline(always)]
fn pair_mixed(s: u8x32, key: u8x32) -> u8x32
    ensures { map tower_byte result ≡ zip2 bit_xor (each_half mix_columns (map less_sbox (map tower_byte s))) (map tower_byte key) }
{
    let (once, twice) = made(s);
    let front = added(twice, one_on(once));
    let rest = added(three_on(once), key);
    added(added(rest, front), one_on(front))
}

impl LaneSchedule {
    /// Seals two blocks.
    #[inline(always)]
    pub(crate) fn seal_pair(&self, x: u8x32) -> u8x32
        ensures { result ≡ each_half (seal (lane_key self.now)) x }
    {
        let mut state = self.sealing_entered(x);
        for round in 1..self.rounds {
            state = pair_mixed(shifted(state), self.pair_keys[round].elements);
        }
        self.sealing_left(shifted(state))
    }
}
