//! The modes with a tag, in each of their forms.

ghost use Rattle.std.specs.Prelude.{◌≡◌, true, false, MatchOption, MatchResult, Some, None};
ghost use Rattle.templates.specs.declared.driver_plans.Plan.TheVariants as plan;
ghost use Rattle.transforms.specs.Kept.{IsNotKept};
ghost use Rattle.transforms.specs.Plans.{takes_key};
ghost use Rattle.transforms.specs.Ciphers.{authenc_plan};

use crate::aead::Aead;
use crate::any_aes::AnyAes;
use crate::any_cipher::{AnyCipher, CipherMode, split_salted};
use crate::tfm_err::TfmErr;
use authenc::{Authenc, read_blob};
use cmac_ccm::Ccm;
use gcm_mode::{Gcm, Rfc4106};
use ghash_field::{BitGhash, LaneGhash};
use hmac_sha::Mac;
use kc_base::Errno;
use std::alloc::Global;
use templates::{AesForm, GhashForm};

/// A mode with a tag, in each of its forms. Those whose GHASH key has rows of products (4 KiB) stand in a box.
#[derive(Drop)]
pub enum AnyAead {
    BitGcm(Gcm<AnyAes, BitGhash>),
    LaneGcm(Box<Gcm<AnyAes, LaneGhash>>),
    BitRfc4106(Rfc4106<AnyAes, BitGhash>),
    LaneRfc4106(Box<Rfc4106<AnyAes, LaneGhash>>),
    Ccm(Ccm<AnyAes>),
    Authenc(Authenc<AnyCipher>),
}

impl Aead for AnyAead {
    ghost use Rattle.transforms.specs.Aeads.{iv_size_of, tag_size_of, takes_tag_of, takes_input_of, seals_of, opens_of};

    ghost iv_size = { iv_size_of };

    ghost tag_size = { tag_size_of };

    ghost takes_tag = { takes_tag_of };

    ghost takes_input = { takes_input_of };

    ghost seals = { seals_of };

    ghost opens = { opens_of };

    fn iv_len(&self) -> usize {
        match self {
            AnyAead::BitGcm(mode) => mode.iv_len(),
            AnyAead::LaneGcm(mode) => mode.iv_len(),
            AnyAead::BitRfc4106(mode) => mode.iv_len(),
            AnyAead::LaneRfc4106(mode) => mode.iv_len(),
            AnyAead::Ccm(mode) => mode.iv_len(),
            AnyAead::Authenc(mode) => mode.iv_len(),
        }
    }

    fn takes(&self, iv: &[u8], aad: usize, text: usize) -> bool {
        match self {
            AnyAead::BitGcm(mode) => mode.takes(iv, aad, text),
            AnyAead::LaneGcm(mode) => mode.takes(iv, aad, text),
            AnyAead::BitRfc4106(mode) => mode.takes(iv, aad, text),
            AnyAead::LaneRfc4106(mode) => mode.takes(iv, aad, text),
            AnyAead::Ccm(mode) => mode.takes(iv, aad, text),
            AnyAead::Authenc(mode) => mode.takes(iv, aad, text),
        }
    }

    fn seal(&self, iv: &[u8], aad: &[u8], b: &mut [u8], tag: &mut [u8]) -> Result<(), Errno> {
        match self {
            AnyAead::BitGcm(mode) => Aead::seal(mode, iv, aad, b, tag),
            AnyAead::LaneGcm(mode) => Aead::seal(&**mode, iv, aad, b, tag),
            AnyAead::BitRfc4106(mode) => Aead::seal(mode, iv, aad, b, tag),
            AnyAead::LaneRfc4106(mode) => Aead::seal(&**mode, iv, aad, b, tag),
            AnyAead::Ccm(mode) => Aead::seal(mode, iv, aad, b, tag),
            AnyAead::Authenc(mode) => Aead::seal(mode, iv, aad, b, tag),
        }
    }

    fn unseal(&self, iv: &[u8], aad: &[u8], b: &mut [u8], tag: &[u8]) -> Result<(), Errno> {
        match self {
            AnyAead::BitGcm(mode) => Aead::unseal(mode, iv, aad, b, tag),
            AnyAead::LaneGcm(mode) => Aead::unseal(&**mode, iv, aad, b, tag),
            AnyAead::BitRfc4106(mode) => Aead::unseal(mode, iv, aad, b, tag),
            AnyAead::LaneRfc4106(mode) => Aead::unseal(&**mode, iv, aad, b, tag),
            AnyAead::Ccm(mode) => Aead::unseal(mode, iv, aad, b, tag),
            AnyAead::Authenc(mode) => Aead::unseal(mode, iv, aad, b, tag),
        }
    }
}

impl AnyAead {
    ghost use Rattle.transforms.specs.Aeads.{IsAead, aes_of};

    /// The cipher under the mode, or none where it has two.
    pub fn aes(&self) -> Option<&AnyAes>
        ensures { MatchOption result (aes_of self.now ≡ None) (λ a. aes_of self.now ≡ Some a.now) }
    {
        match self {
            AnyAead::BitGcm(mode) => Some(mode.cipher()),
            AnyAead::LaneGcm(mode) => Some(mode.cipher()),
            AnyAead::BitRfc4106(mode) => Some(mode.cipher()),
            AnyAead::LaneRfc4106(mode) => Some(mode.cipher()),
            AnyAead::Ccm(mode) => Some(mode.cipher()),
            AnyAead::Authenc(mode) => mode.cipher().aes(),
        }
    }

    /// GCM under a key. `Inval` exactly where the key hasn't 16, 24 or 32 bytes.
    pub fn gcm(
        alloc: Global,
        form: AesForm,
        ghash: GhashForm,
        key: &[u8],
    ) -> Result<AnyAead, TfmErr>
        ensures { MatchResult result
            (λ a. (takes_key (plan.Gcm form ghash) key.now ≡ true) × IsAead a (plan.Gcm form ghash) key.now)
            (λ e. IsNotKept e (takes_key (plan.Gcm form ghash) key.now)) }
    {
        let aes = AnyAes::new(alloc, form, key)?;
        match ghash {
            GhashForm::GhashGeneric => Ok(AnyAead::BitGcm(Gcm::new(aes))),
            GhashForm::GhashTable => Ok(AnyAead::LaneGcm(Box::new(alloc, Gcm::new(aes))?)),
        }
    }

    /// RFC 4106 under a key, whose last four bytes are the salt. `Inval` exactly where the rest hasn't 16, 24 or 32
    /// bytes.
    pub fn rfc4106(
        alloc: Global,
        form: AesForm,
        ghash: GhashForm,
        key: &[u8],
    ) -> Result<AnyAead, TfmErr>
        ensures { MatchResult result
            (λ a. (takes_key (plan.Rfc4106 form ghash) key.now ≡ true) × IsAead a (plan.Rfc4106 form ghash) key.now)
            (λ e. IsNotKept e (takes_key (plan.Rfc4106 form ghash) key.now)) }
    {
        let (front, salt) = split_salted(key)?;
        let aes = AnyAes::new(alloc, form, front)?;
        match ghash {
            GhashForm::GhashGeneric => Ok(AnyAead::BitRfc4106(Rfc4106::new(Gcm::new(aes), salt))),
            GhashForm::GhashTable => {
                let mode = Rfc4106::new(Gcm::new(aes), salt);
                Ok(AnyAead::LaneRfc4106(Box::new(alloc, mode)?))
            }
        }
    }

    /// CCM under a key. `Inval` exactly where the key hasn't 16, 24 or 32 bytes.
    pub fn ccm(alloc: Global, form: AesForm, key: &[u8]) -> Result<AnyAead, TfmErr>
        ensures { MatchResult result
            (λ a. (takes_key (plan.Ccm form) key.now ≡ true) × IsAead a (plan.Ccm form) key.now)
            (λ e. IsNotKept e (takes_key (plan.Ccm form) key.now)) }
    {
        Ok(AnyAead::Ccm(Ccm::new(AnyAes::new(alloc, form, key)?)))
    }

    /// authenc under a key blob. `Inval` exactly where the blob doesn't read, or the mode doesn't take its cipher's
    /// key.
    pub fn authenc(
        alloc: Global,
        mode: CipherMode,
        form: AesForm,
        key: &[u8],
    ) -> Result<AnyAead, TfmErr>
        ensures { MatchResult result
            (λ a. (takes_key (authenc_plan mode form) key.now ≡ true) × IsAead a (authenc_plan mode form) key.now)
            (λ e. IsNotKept e (takes_key (authenc_plan mode form) key.now)) }
    {
        let keys = read_blob(key)?;
        let cipher = AnyCipher::new(alloc, mode, form, keys.cipher)?;
        Ok(AnyAead::Authenc(Authenc::new(Mac::new(keys.mac), cipher)))
    }
}
