//! AES by tables.

ghost use Rattle.std.specs.Prelude.{◌≡◌, MatchResult, length};
ghost use Rattle.std_defs.specs.Aes.{IsKeyLength};

use crate::schedule::{TableSchedule, mixed_back_all, numbers_of};
use aes_block::{BlockCipher, expand_key};
use kc_base::Errno;
use std::marker::Model;

/// AES (FIPS 197, 5.1 and 5.3) under a key of 16, 24 or 32 bytes, with the key's whole schedule in words. Contracts see
/// the key.
#[derive(Drop)]
pub struct TableAes {
    schedule: TableSchedule,
}

impl Model for TableAes {
    ghost use Rattle.aes_block.specs.Key.{AesKey, key_code};
    ghost use Rattle.aes_table.specs.Key.{table_key};

    ghost Value = { AesKey };

    ghost coded = { key_code };

    ghost view = { λ a. record { bytes = table_key a.schedule; is_key = a.schedule.scheduled.0 } };
}

impl TableAes {
    /// AES under a key of 16, 24 or 32 bytes. `EINVAL` exactly where the key has another length.
    pub fn new(key: &[u8]) -> Result<TableAes, Errno>
        ensures { MatchResult result
            (λ a. IsKeyLength (length key.now) × (a.bytes ≡ key.now))
            (λ e. (e ≡ Errno.EINVAL) × ¬ (IsKeyLength (length key.now))) }
    {
        if !matches!(key.len(), 16 | 24 | 32) {
            return Err(Errno::EINVAL);
        }
        let words = numbers_of(&expand_key(key));
        Ok(TableAes {
            schedule: TableSchedule {
                rounds: key.len() / 4 + 6,
                words,
                back_words: mixed_back_all(&words),
            },
        })
    }
}

impl BlockCipher for TableAes {
    ghost use Rattle.std_defs.specs.Aes.{seal, unseal};
    ghost use Rattle.aes_block.specs.Laws.{seals_and_unseals};

    ghost sealed = { λ a. seal a.bytes };

    ghost unsealed = { λ a. unseal a.bytes };

    ghost inverse = { λ a. seals_and_unseals a.bytes a.is_key };

    fn seal_block(&self, b: &mut [u8; 16]) {
        *b = self.schedule.seal(b);
    }

    fn unseal_block(&self, b: &mut [u8; 16]) {
        *b = self.schedule.unseal(b);
    }
}
