//! AES in each of its forms.

ghost use Rattle.std.specs.Prelude.{◌≡◌, MatchResult, length};
ghost use Rattle.transforms.specs.Kept.{IsNotKept};
ghost use Rattle.transforms.specs.Plans.{is_key_length};
ghost use Rattle.std_defs.specs.Aes.{IsKeyLength};

use crate::tfm_err::TfmErr;
use aes_block::{Aes, BlockCipher};
use aes_lanes::LaneAes;
use aes_table::TableAes;
use std::alloc::Global;
use templates::AesForm;

/// AES under a key, in the form that a plan names. A form with much of a key in memory has it in a box.
#[derive(Drop)]
pub enum AnyAes {
    Generic(Aes),
    Table(TableAes),
    Lanes(Box<LaneAes>),
}

impl AnyAes {
    ghost use Rattle.transforms.specs.Forms.{form_of, key_of};

    /// `Inval` exactly where the key hasn't 16, 24 or 32 bytes.
    pub(crate) fn new(alloc: Global, form: AesForm, key: &[u8]) -> Result<AnyAes, TfmErr>
        ensures { MatchResult result
            (λ a. IsKeyLength (length key.now) × (key_of a ≡ key.now) × (form_of a ≡ form))
            (λ e. IsNotKept e (is_key_length (length key.now))) }
    {
        match form {
            AesForm::AesGeneric => Ok(AnyAes::Generic(Aes::new(key)?)),
            AesForm::AesTable => Ok(AnyAes::Table(TableAes::new(key)?)),
            AesForm::AesLanes => Ok(AnyAes::Lanes(Box::new(alloc, LaneAes::new(key)?)?)),
        }
    }
}

impl BlockCipher for AnyAes {
    ghost use Rattle.std_defs.specs.Aes.{seal, unseal};
    ghost use Rattle.transforms.specs.Forms.{key_of};
    ghost use Rattle.transforms.specs.Laws.{seals_and_unseals_in};

    ghost sealed = { λ a. seal (key_of a) };

    ghost unsealed = { λ a. unseal (key_of a) };

    ghost inverse = { seals_and_unseals_in };

    fn seal_block(&self, b: &mut [u8; 16]) {
        match self {
            AnyAes::Generic(aes) => aes.seal_block(b),
            AnyAes::Table(aes) => aes.seal_block(b),
            AnyAes::Lanes(aes) => aes.seal_block(b),
        }
    }

    fn unseal_block(&self, b: &mut [u8; 16]) {
        match self {
            AnyAes::Generic(aes) => aes.unseal_block(b),
            AnyAes::Table(aes) => aes.unseal_block(b),
            AnyAes::Lanes(aes) => aes.unseal_block(b),
        }
    }

    fn seal_eight(&self, b: &mut [[u8; 16]; 8]) {
        match self {
            AnyAes::Generic(aes) => aes.seal_eight(b),
            AnyAes::Table(aes) => aes.seal_eight(b),
            AnyAes::Lanes(aes) => aes.seal_eight(b),
        }
    }

    fn seal_some(&self, b: &mut [[u8; 16]; 8], count: usize) {
        match self {
            AnyAes::Generic(aes) => aes.seal_some(b, count),
            AnyAes::Table(aes) => aes.seal_some(b, count),
            AnyAes::Lanes(aes) => aes.seal_some(b, count),
        }
    }

    fn unseal_eight(&self, b: &mut [[u8; 16]; 8]) {
        match self {
            AnyAes::Generic(aes) => aes.unseal_eight(b),
            AnyAes::Table(aes) => aes.unseal_eight(b),
            AnyAes::Lanes(aes) => aes.unseal_eight(b),
        }
    }

    fn unseal_some(&self, b: &mut [[u8; 16]; 8], count: usize) {
        match self {
            AnyAes::Generic(aes) => aes.unseal_some(b, count),
            AnyAes::Table(aes) => aes.unseal_some(b, count),
            AnyAes::Lanes(aes) => aes.unseal_some(b, count),
        }
    }
}
