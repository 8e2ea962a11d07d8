//! AES by the processor's instructions.

ghost use Rattle.std.specs.Prelude.{◌≡◌, MatchResult, length};
ghost use Rattle.std_defs.specs.Aes.{IsKeyLength};

use crate::instruction_words::ByInstruction;
use crate::key_schedule::KeySchedule;
use crate::round_keys::{back_keys, round_keys};
use aes_block::{BlockCipher, expand_key_by};
use kc_base::Errno;
use std::marker::Model;

/// AES (FIPS 197, 5.1 and 5.3) under a key of 16, 24 or 32 bytes, with the key's whole schedule in vectors. Make it
/// only where `has_instructions` of `instructions` answers true: else the functions of that crate read tables at places
/// that the key and the texts choose, which leaks both. Contracts see the key.
#[derive(Drop)]
pub struct NiAes {
    schedule: KeySchedule,
}

impl Model for NiAes {
    ghost use Rattle.aes_block.specs.Key.{AesKey, key_code};
    ghost use Rattle.aes_ni.specs.Key.{ni_key};

    ghost Value = { AesKey };

    ghost coded = { key_code };

    ghost view = { λ a. record { bytes = ni_key a.schedule; is_key = a.schedule.scheduled.0 } };
}

impl NiAes {
    /// AES under a key of 16, 24 or 32 bytes. `EINVAL` exactly where the key has another length.
    pub fn new(key: &[u8]) -> Result<NiAes, Errno>
        ensures { MatchResult result
            (λ a. IsKeyLength (length key.now) × (a.bytes ≡ key.now))
            (λ e. (e ≡ Errno.EINVAL) × ¬ (IsKeyLength (length key.now))) }
    {
        if !matches!(key.len(), 16 | 24 | 32) {
            return Err(Errno::EINVAL);
        }
        let keys = round_keys(&expand_key_by::<ByInstruction>(key));
        Ok(NiAes {
            schedule: KeySchedule {
                rounds: key.len() / 4 + 6,
                keys,
                back_keys: back_keys(&keys),
            },
        })
    }
}

impl BlockCipher for NiAes {
    ghost use Rattle.std_defs.specs.Aes.{seal, unseal};
    ghost use Rattle.aes_block.specs.Laws.{seals_and_unseals};

    ghost sealed = { λ a. seal a.bytes };

    ghost unsealed = { λ a. unseal a.bytes };

    ghost inverse = { λ a. seals_and_unseals a.bytes a.is_key };

    fn seal_block(&self, b: &mut [u8; 16]) {
        self.schedule.seal_one(b);
    }

    fn unseal_block(&self, b: &mut [u8; 16]) {
        self.schedule.unseal_one(b);
    }

    fn seal_eight(&self, b: &mut [[u8; 16]; 8]) {
        self.schedule.seal_all(b);
    }

    fn seal_some(&self, b: &mut [[u8; 16]; 8], count: usize) {
        if count == 1 {
            self.seal_block(&mut b[0]);
        } else {
            self.seal_eight(b);
        }
    }

    fn unseal_eight(&self, b: &mut [[u8; 16]; 8]) {
        self.schedule.unseal_all(b);
    }

    fn unseal_some(&self, b: &mut [[u8; 16]; 8], count: usize) {
        if count == 1 {
            self.unseal_block(&mut b[0]);
        } else {
            self.unseal_eight(b);
        }
    }
}
