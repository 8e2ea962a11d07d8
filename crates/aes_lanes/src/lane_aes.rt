//! AES by vectors.

ghost use Rattle.std.specs.Prelude.{◌≡◌, ◌≤◌, MatchResult, length, map, take};
ghost use Rattle.std_defs.specs.Aes.{IsKeyLength};

use crate::lane_schedule::LaneSchedule;
use crate::lane_words::ByLanes;
use crate::pair_keys::pair_keys;
use crate::pairs::{first_of, joined, paired, parted, second_of};
use crate::round_keys::round_keys;
use crate::row_keys::{sealing_keys, unsealing_keys};
use crate::tower_keys::tower_keys;
use aes_block::{BlockCipher, expand_key_by};
use kc_base::Errno;
use std::marker::Model;
use std::simd::prelude::*;

/// From so many blocks on all eight are sealed at once. That takes as long as three pairs on x86-64-v3, and as four on
/// x86-64-v2, whose vectors are half as long.
const WORTH_SEALING_EIGHT: usize = 7;

/// From so many blocks on all eight are unsealed at once: as long as two pairs, and as two and a half.
const WORTH_UNSEALING_EIGHT: usize = 5;

/// AES (FIPS 197, 5.1 and 5.3) under a key of 16, 24 or 32 bytes, with the key's whole schedule in vectors. No table is
/// read at a place that the key or a text chooses. Contracts see the key.
#[derive(Drop)]
pub struct LaneAes {
    schedule: LaneSchedule,
}

impl Model for LaneAes {
    ghost use Rattle.aes_block.specs.Key.{AesKey, key_code};
    ghost use Rattle.aes_lanes.specs.Key.{lane_key};

    ghost Value = { AesKey };

    ghost coded = { key_code };

    ghost view = { λ a. record { bytes = lane_key a.schedule; is_key = a.schedule.scheduled.0 } };
}

impl LaneAes {
    /// AES under a key of 16, 24 or 32 bytes. `EINVAL` exactly where the key has another length.
    pub fn new(key: &[u8]) -> Result<LaneAes, Errno>
        ensures { MatchResult result
            (λ a. IsKeyLength (length key.now) × (a.bytes ≡ key.now))
            (λ e. (e ≡ Errno.EINVAL) × ¬ (IsKeyLength (length key.now))) }
    {
        if !matches!(key.len(), 16 | 24 | 32) {
            return Err(Errno::EINVAL);
        }
        let rounds = key.len() / 4 + 6;
        let keys = round_keys(&expand_key_by::<ByLanes>(key));
        Ok(LaneAes {
            schedule: LaneSchedule {
                rounds,
                keys,
                tower_keys: tower_keys(&keys, rounds + 1),
                pair_keys: pair_keys(&keys, rounds + 1),
                sealing_keys: sealing_keys(&keys, rounds + 1),
                unsealing_keys: unsealing_keys(&keys, rounds + 1),
            },
        })
    }
}

impl LaneAes {
    ghost use Rattle.std_defs.specs.Aes.{seal, unseal};

    /// Seals the first `count` of eight blocks, two and two, and leaves the others.
    fn seal_few(&self, b: &mut [[u8; 16]; 8], count: usize)
        requires { count ≤ 8 }
        ensures { take count b.new ≡ map (seal self.now.bytes) (take count b.old) }
    {
        for j in 0..count / 2 {
            let pair = self.schedule.seal_pair(joined(b[2 * j], b[2 * j + 1]));
            b[2 * j] = first_of(pair);
            b[2 * j + 1] = second_of(pair);
        }
        if count % 2 == 1 {
            self.seal_block(&mut b[count - 1]);
        }
    }

    /// Unseals the first `count` of eight blocks, two and two, and leaves the others.
    fn unseal_few(&self, b: &mut [[u8; 16]; 8], count: usize)
        requires { count ≤ 8 }
        ensures { take count b.new ≡ map (unseal self.now.bytes) (take count b.old) }
    {
        for j in 0..count / 2 {
            let pair = self.schedule.unseal_pair(joined(b[2 * j], b[2 * j + 1]));
            b[2 * j] = first_of(pair);
            b[2 * j + 1] = second_of(pair);
        }
        if count % 2 == 1 {
            self.unseal_block(&mut b[count - 1]);
        }
    }
}

impl BlockCipher for LaneAes {
    ghost use Rattle.std_defs.specs.Aes.{seal, unseal};
    ghost use Rattle.aes_block.specs.Laws.{seals_and_unseals};

    ghost sealed = { λ a. seal a.bytes };

    ghost unsealed = { λ a. unseal a.bytes };

    ghost inverse = { λ a. seals_and_unseals a.bytes a.is_key };

    fn seal_block(&self, b: &mut [u8; 16]) {
        *b = self.schedule.seal_one(u8x16::from_array(*b)).to_array();
    }

    fn unseal_block(&self, b: &mut [u8; 16]) {
        *b = first_of(self.schedule.unseal_pair(joined(*b, *b)));
    }

    fn seal_eight(&self, b: &mut [[u8; 16]; 8]) {
        *b = parted(self.schedule.seal_four(paired(b)));
    }

    fn seal_some(&self, b: &mut [[u8; 16]; 8], count: usize) {
        if count < WORTH_SEALING_EIGHT {
            self.seal_few(b, count);
        } else {
            self.seal_eight(b);
        }
    }

    fn unseal_eight(&self, b: &mut [[u8; 16]; 8]) {
        *b = parted(self.schedule.unseal_four(paired(b)));
    }

    fn unseal_some(&self, b: &mut [[u8; 16]; 8], count: usize) {
        if count < WORTH_UNSEALING_EIGHT {
            self.unseal_few(b, count);
        } else {
            self.unseal_eight(b);
        }
    }
}
