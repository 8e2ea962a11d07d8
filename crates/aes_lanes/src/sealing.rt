//! Sealing eight blocks by rows, and one block.

ghost use Rattle.std.specs.Prelude.{◌≡◌, ◌≤◌, map};
ghost use Rattle.std_defs.specs.Aes.{seal, add_round_key, sub_bytes, shift_rows, mix_columns, sbox};
ghost use Rattle.aes_lanes.specs.Key.{lane_key};
ghost use Rattle.aes_lanes.specs.Pairs.{each_half, blocks_of};
ghost use Rattle.aes_lanes.specs.RoundKeys.{schedule_of};
ghost use Rattle.aes_lanes.specs.Rows.{tower_blocks};
ghost use Rattle.aes_lanes.specs.SealingTower.{tower_byte};

use crate::lane_schedule::LaneSchedule;
use crate::lookup::sum;
use crate::one_block::{self, front_of, one_in_tower, one_made_last, one_round, shifted};
use crate::rows::{Rows, pairs_of, rows_of};
use crate::sealing_rows::{made_and_mixed, sealing_key_added, shifted_rows};
use crate::sealing_tower::{in_sealing_tower, made_last};
use std::simd::prelude::*;

impl LaneSchedule {
    /// Two blocks, to which the first round key is added, in the tower.
    #[inline(always)]
    pub(crate) fn sealing_entered(&self, x: u8x32) -> u8x32
        ensures { map tower_byte result ≡ each_half (add_round_key (schedule_of self.now.keys) 0) x }
    {
        in_sealing_tower(sum(x, self.keys[0].twice))
    }

    /// A round of eight blocks.
    #[inline(always)]
    fn sealed_rows(&self, s: Rows, round: usize) -> Rows
        requires { round ≤ self.now.rounds }
        ensures { tower_blocks result
            ≡ map (λ b. add_round_key (schedule_of self.now.keys) round (mix_columns (shift_rows (sub_bytes b)))) (tower_blocks s) }
    {
        let t = shifted_rows(s);
        let u = made_and_mixed(t.first, t.second, t.third, t.fourth);
        sealing_key_added(u, self.sealing_keys[round])
    }

    /// Two blocks after the S-box, and the last round key added.
    #[inline(always)]
    pub(crate) fn sealing_left(&self, y: u8x32) -> u8x32
        ensures { result ≡ each_half (add_round_key (schedule_of self.now.keys) self.now.rounds) (map (λ y. sbox (tower_byte y)) y) }
    {
        sum(made_last(y), self.keys[self.rounds].twice)
    }

    /// Seals eight blocks, two and two.
    #[inline(always)]
    pub(crate) fn seal_four(&self, x: [u8x32; 4]) -> [u8x32; 4]
        ensures { blocks_of result ≡ map (seal (lane_key self.now)) (blocks_of x) }
    {
        let mut state = rows_of(
            self.sealing_entered(x[0]),
            self.sealing_entered(x[1]),
            self.sealing_entered(x[2]),
            self.sealing_entered(x[3]),
        );
        for round in 1..self.rounds {
            state = self.sealed_rows(state, round);
        }
        let y = pairs_of(shifted_rows(state));
        [
            self.sealing_left(y[0]),
            self.sealing_left(y[1]),
            self.sealing_left(y[2]),
            self.sealing_left(y[3]),
        ]
    }

    /// Seals one block.
    #[inline(always)]
    pub(crate) fn seal_one(&self, b: u8x16) -> u8x16
        ensures { result ≡ seal (lane_key self.now) b }
    {
        let mut state = one_in_tower(one_block::sum(b, front_of(self.keys[0].twice)));
        for round in 1..self.rounds {
            state = one_round(state, self.tower_keys[round].elements, round);
        }
        let last = front_of(self.keys[self.rounds].twice);
        one_block::sum(shifted(one_made_last(state), self.rounds), last)
    }
}
