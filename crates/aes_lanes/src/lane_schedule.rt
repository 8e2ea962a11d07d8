//! A key schedule in vectors, and two blocks unsealed under it.

ghost use Rattle.std.specs.Prelude.{◌≡◌, ◌+◌, bit_xor};
ghost use Rattle.std.specs.Simd.Lanes.{zip2};
ghost use Rattle.std_defs.specs.Aes.{unseal, add_round_key, inverse_sub_bytes, inverse_shift_rows, inverse_mix_columns};
ghost use Rattle.aes_block.specs.Schedule.{IsSchedule, is_schedule-prop};
ghost use Rattle.aes_lanes.specs.Pairs.{each_half};
ghost use Rattle.aes_lanes.specs.RoundKeys.{schedule_of, AreTwice};
ghost use Rattle.aes_lanes.specs.RowKeys.{AreTowerKeys, ArePairKeys, AreSealingKeys, AreUnsealingKeys};

use crate::columns::{mixed_back, shifted_back};
use crate::lookup::{inverse_substituted, sum};
use crate::pair_keys::PairKey;
use crate::round_keys::RoundKey;
use crate::row_keys::RowKey;
use crate::tower_keys::TowerKey;
use std::simd::prelude::*;

/// The key schedule of a key, with each round key twice in a vector, as it is added in the tower to one block and to
/// two, and as it is added to rows.
#[derive(Drop)]
pub(crate) struct LaneSchedule {
    pub(crate) rounds: usize,
    pub(crate) keys: [RoundKey; 15],
    pub(crate) tower_keys: [TowerKey; 15],
    pub(crate) pair_keys: [PairKey; 15],
    pub(crate) sealing_keys: [RowKey; 15],
    pub(crate) unsealing_keys: [RowKey; 15],
    ghost scheduled: { IsSchedule rounds (schedule_of keys) } by { is_schedule-prop rounds (schedule_of keys) },
    ghost twice: { AreTwice keys },
    ghost in_tower: { AreTowerKeys (rounds + 1) keys tower_keys },
    ghost in_pairs: { ArePairKeys (rounds + 1) keys pair_keys },
    ghost sealing: { AreSealingKeys (rounds + 1) keys sealing_keys },
    ghost unsealing: { AreUnsealingKeys (rounds + 1) keys unsealing_keys },
}

/// A round of two blocks, undone.
#[inline(always)]
fn unsealed_round(x: u8x32, key: u8x32) -> u8x32
    ensures { result ≡ each_half (λ s. inverse_sub_bytes (inverse_shift_rows (inverse_mix_columns s))) (zip2 bit_xor x key) }
{
    inverse_substituted(shifted_back(mixed_back(sum(x, key))))
}

impl LaneSchedule {
    ghost use Rattle.aes_lanes.specs.Key.{lane_key};

    /// Two sealed blocks before their last round.
    #[inline(always)]
    fn begun_back(&self, x: u8x32) -> u8x32
        ensures { result
            ≡ each_half (λ s. inverse_sub_bytes (inverse_shift_rows (add_round_key (schedule_of self.now.keys) self.now.rounds s))) x }
    {
        inverse_substituted(shifted_back(sum(x, self.keys[self.rounds].twice)))
    }

    /// Unseals two blocks.
    #[inline(always)]
    pub(crate) fn unseal_pair(&self, x: u8x32) -> u8x32
        ensures { result ≡ each_half (unseal (lane_key self.now)) x }
    {
        let mut state = self.begun_back(x);
        for round in (1..self.rounds).rev() {
            state = unsealed_round(state, self.keys[round].twice);
        }
        sum(state, self.keys[0].twice)
    }
}
