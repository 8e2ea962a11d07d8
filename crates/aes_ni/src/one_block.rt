//! One block at a time.

ghost use Rattle.std.specs.Prelude.{◌≡◌};
ghost use Rattle.std_defs.specs.Aes.{seal, unseal};

use crate::key_schedule::KeySchedule;

impl KeySchedule {
    ghost use Rattle.aes_ni.specs.Key.{ni_key};

    /// Seals a block.
    pub(crate) fn seal_one(&self, block: &mut [u8; 16])
        ensures { block.new ≡ seal (ni_key self.now) block.old }
    {
        let mut state = *block;
        self.add_key(&mut state, 0);
        for round in 1..self.rounds {
            self.seal_round(&mut state, round);
        }
        self.seal_last(&mut state, self.rounds);
        *block = state;
    }

    /// Unseals a block, as the equivalent inverse cipher (FIPS 197, 5.3.5).
    pub(crate) fn unseal_one(&self, block: &mut [u8; 16])
        ensures { block.new ≡ unseal (ni_key self.now) block.old }
    {
        let mut state = *block;
        self.add_key(&mut state, self.rounds);
        for round in (1..self.rounds).rev() {
            self.unseal_round(&mut state, round);
        }
        self.unseal_last(&mut state);
        *block = state;
    }
}
