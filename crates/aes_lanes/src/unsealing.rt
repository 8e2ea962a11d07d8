//! Unsealing eight blocks by rows, in the order of the equivalent inverse cipher (FIPS 197, 5.3.5): a round adds its
//! key after InvMixColumns, and the keys went through InvMixColumns too.

ghost use Rattle.std.specs.Prelude.{◌≡◌, ◌≤◌, [], ◌∷◌, map};
ghost use Rattle.std_defs.specs.Aes.{unseal, add_round_key, inverse_sub_bytes, inverse_shift_rows, inverse_mix_columns, inverse_sbox};
ghost use Rattle.aes_lanes.specs.Key.{lane_key};
ghost use Rattle.aes_lanes.specs.Pairs.{each_half, blocks_of};
ghost use Rattle.aes_lanes.specs.RoundKeys.{schedule_of};
ghost use Rattle.aes_lanes.specs.Rows.{state_blocks};
ghost use Rattle.aes_lanes.specs.Tower.{state_byte};

use crate::lane_schedule::LaneSchedule;
use crate::lookup::sum;
use crate::rows::{Rows, all_undone, key_added, mixed_back, pairs_of, rows_of, shifted_back};
use crate::tower::{in_tower, undone_last};
use std::simd::prelude::*;

impl LaneSchedule {
    /// Two sealed blocks, to which the last round key is added, in the tower.
    #[inline(always)]
    fn entered(&self, x: u8x32) -> u8x32
        ensures { map state_byte result ≡ each_half (add_round_key (schedule_of self.now.keys) self.now.rounds) x }
    {
        in_tower(sum(x, self.keys[self.rounds].twice))
    }

    /// A round of eight blocks, undone, up to where InvShiftRows comes next.
    #[inline(always)]
    fn unsealed_rows(&self, s: Rows, round: usize) -> Rows
        requires { round ≤ self.now.rounds }
        ensures { state_blocks result
            ≡ map (λ b. inverse_mix_columns (add_round_key (schedule_of self.now.keys) round (inverse_sub_bytes (inverse_shift_rows b))))
            (state_blocks s) }
    {
        let t = all_undone(shifted_back(s));
        let u = mixed_back(t.first, t.second, t.third, t.fourth);
        key_added(u, self.unsealing_keys[round])
    }

    /// Two blocks after the inverse S-box, and the first round key added.
    #[inline(always)]
    fn left(&self, y: u8x32) -> u8x32
        ensures { result ≡ each_half (add_round_key (schedule_of self.now.keys) 0) (map (λ y. inverse_sbox (state_byte y)) y) }
    {
        sum(undone_last(y), self.keys[0].twice)
    }

    /// Unseals eight blocks, two and two.
    #[inline(always)]
    pub(crate) fn unseal_four(&self, x: [u8x32; 4]) -> [u8x32; 4]
        ensures { blocks_of result ≡ map (unseal (lane_key self.now)) (blocks_of x) }
    {
        let mut state = rows_of(
            self.entered(x[0]),
            self.entered(x[1]),
            self.entered(x[2]),
            self.entered(x[3]),
        );
        for round in (1..self.rounds).rev() {
            state = self.unsealed_rows(state, round);
        }
        let y = pairs_of(shifted_back(state));
        [
            self.left(y[0]),
            self.left(y[1]),
            self.left(y[2]),
            self.left(y[3]),
        ]
    }
}
