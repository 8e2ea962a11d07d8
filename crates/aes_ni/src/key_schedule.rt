//! A key schedule in vectors, and the steps of both ciphers under it, each on one state.

ghost use Rattle.std.specs.Prelude.{◌≡◌, ◌<◌};
ghost use Rattle.std_defs.specs.Aes.{add_round_key, sub_bytes, shift_rows, mix_columns, inverse_sub_bytes, inverse_shift_rows, inverse_mix_columns};
ghost use Rattle.aes_block.specs.KeyBlock.{key_block};
ghost use Rattle.aes_block.specs.Schedule.{IsSchedule, is_schedule-prop};
ghost use Rattle.aes_ni.specs.RoundKeys.{schedule_of, AreBlocks, AreBackKeys};

use crate::round_keys::RoundKey;
use instructions::{aesdec, aesdeclast, aesenc, aesenclast};
use std::simd::prelude::*;

/// The key schedule of a key, and its round keys as the equivalent inverse cipher adds them.
#[derive(Drop)]
pub(crate) struct KeySchedule {
    pub(crate) rounds: usize,
    pub(crate) keys: [RoundKey; 15],
    pub(crate) back_keys: [RoundKey; 15],
    ghost scheduled: { IsSchedule rounds (schedule_of keys) } by { is_schedule-prop rounds (schedule_of keys) },
    ghost blocks: { AreBlocks keys },
    ghost mixed_back: { AreBackKeys keys back_keys },
}

impl KeySchedule {
    /// A round key.
    #[inline(always)]
    fn key(&self, round: usize) -> u8x16
        requires { round < 15 }
        ensures { result ≡ key_block (schedule_of self.now.keys) round }
    {
        self.keys[round].bytes
    }

    /// A round key after InvMixColumns.
    #[inline(always)]
    fn back_key(&self, round: usize) -> u8x16
        requires { round < 15 }
        ensures { result ≡ inverse_mix_columns (key_block (schedule_of self.now.keys) round) }
    {
        self.back_keys[round].bytes
    }

    /// AddRoundKey.
    #[inline(always)]
    pub(crate) fn add_key(&self, state: &mut [u8; 16], round: usize)
        requires { round < 15 }
        ensures { state.new ≡ add_round_key (schedule_of self.now.keys) round state.old }
    {
        *state = (u8x16::from_array(*state) ^ self.key(round)).to_array();
    }

    /// A round of sealing.
    #[inline(always)]
    pub(crate) fn seal_round(&self, state: &mut [u8; 16], round: usize)
        requires { round < 15 }
        ensures { state.new ≡ add_round_key (schedule_of self.now.keys) round (mix_columns (shift_rows (sub_bytes state.old))) }
    {
        *state = aesenc(u8x16::from_array(*state), self.key(round)).to_array();
    }

    /// The last round of sealing.
    #[inline(always)]
    pub(crate) fn seal_last(&self, state: &mut [u8; 16], round: usize)
        requires { round < 15 }
        ensures { state.new ≡ add_round_key (schedule_of self.now.keys) round (shift_rows (sub_bytes state.old)) }
    {
        *state = aesenclast(u8x16::from_array(*state), self.key(round)).to_array();
    }

    /// A round of unsealing.
    #[inline(always)]
    pub(crate) fn unseal_round(&self, state: &mut [u8; 16], round: usize)
        requires { round < 15 }
        ensures { state.new
            ≡ inverse_mix_columns (add_round_key (schedule_of self.now.keys) round (inverse_sub_bytes (inverse_shift_rows state.old))) }
    {
        *state = aesdec(u8x16::from_array(*state), self.back_key(round)).to_array();
    }

    /// The last round of unsealing.
    #[inline(always)]
    pub(crate) fn unseal_last(&self, state: &mut [u8; 16])
        ensures { state.new ≡ add_round_key (schedule_of self.now.keys) 0 (inverse_sub_bytes (inverse_shift_rows state.old)) }
    {
        *state = aesdeclast(u8x16::from_array(*state), self.key(0)).to_array();
    }
}
