//! Eight blocks at a time. An instruction's result comes some cycles after it began, and another can begin at each:
//! eight states, none of which waits for another, keep the processor busy.

ghost use Rattle.std.specs.Prelude.{◌≡◌, ◌<◌, map};
ghost use Rattle.std_defs.specs.Aes.{seal, unseal, add_round_key, sub_bytes, shift_rows, mix_columns, inverse_sub_bytes, inverse_shift_rows, inverse_mix_columns};
ghost use Rattle.aes_ni.specs.RoundKeys.{schedule_of};

use crate::key_schedule::KeySchedule;

impl KeySchedule {
    ghost use Rattle.aes_ni.specs.Key.{ni_key};

    #[inline(always)]
    fn add_key_to_all(&self, states: &mut [[u8; 16]; 8], round: usize)
        requires { round < 15 }
        ensures { states.new ≡ map (add_round_key (schedule_of self.now.keys) round) states.old }
    {
        for state in states.iter_mut() {
            self.add_key(state, round);
        }
    }

    #[inline(always)]
    fn seal_round_of_all(&self, states: &mut [[u8; 16]; 8], round: usize)
        requires { round < 15 }
        ensures { states.new
            ≡ map (λ s. add_round_key (schedule_of self.now.keys) round (mix_columns (shift_rows (sub_bytes s)))) states.old }
    {
        for state in states.iter_mut() {
            self.seal_round(state, round);
        }
    }

    #[inline(always)]
    fn seal_last_of_all(&self, states: &mut [[u8; 16]; 8], round: usize)
        requires { round < 15 }
        ensures { states.new ≡ map (λ s. add_round_key (schedule_of self.now.keys) round (shift_rows (sub_bytes s))) states.old }
    {
        for state in states.iter_mut() {
            self.seal_last(state, round);
        }
    }

    #[inline(always)]
    fn unseal_round_of_all(&self, states: &mut [[u8; 16]; 8], round: usize)
        requires { round < 15 }
        ensures { states.new
            ≡ map (λ s. inverse_mix_columns
            (add_round_key (schedule_of self.now.keys) round (inverse_sub_bytes (inverse_shift_rows s)))) states.old }
    {
        for state in states.iter_mut() {
            self.unseal_round(state, round);
        }
    }

    #[inline(always)]
    fn unseal_last_of_all(&self, states: &mut [[u8; 16]; 8])
        ensures { states.new
            ≡ map (λ s. add_round_key (schedule_of self.now.keys) 0 (inverse_sub_bytes (inverse_shift_rows s))) states.old }
    {
        for state in states.iter_mut() {
            self.unseal_last(state);
        }
    }

    /// Seals each of eight blocks.
    pub(crate) fn seal_all(&self, blocks: &mut [[u8; 16]; 8])
        ensures { blocks.new ≡ map (seal (ni_key self.now)) blocks.old }
    {
        let mut states = *blocks;
        self.add_key_to_all(&mut states, 0);
        for round in 1..self.rounds {
            self.seal_round_of_all(&mut states, round);
        }
        self.seal_last_of_all(&mut states, self.rounds);
        *blocks = states;
    }

    /// Unseals each of eight blocks, as the equivalent inverse cipher (FIPS 197, 5.3.5).
    pub(crate) fn unseal_all(&self, blocks: &mut [[u8; 16]; 8])
        ensures { blocks.new ≡ map (unseal (ni_key self.now)) blocks.old }
    {
        let mut states = *blocks;
        self.add_key_to_all(&mut states, self.rounds);
        for round in (1..self.rounds).rev() {
            self.unseal_round_of_all(&mut states, round);
        }
        self.unseal_last_of_all(&mut states);
        *blocks = states;
    }
}
