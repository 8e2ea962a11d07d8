//! The modes without a tag.

ghost use Rattle.std.specs.Prelude.{◌≡◌, ◌≤◌, ◌<◌, length, MatchOption, MatchResult, Some, None, true, false};
ghost use Rattle.transforms.specs.Kept.{IsNotKept};
ghost use Rattle.transforms.specs.Plans.{takes_key, front_key, last_four, is_doubled_length, first_half, second_half};

use crate::any_aes::AnyAes;
use crate::tfm_err::TfmErr;
use aes_block::Skcipher;
use cbc_mode::Cbc;
use ctr_mode::{Ctr, Rfc3686};
use kc_base::Errno;
use std::alloc::Global;
use templates::AesForm;
use xts_mode::Xts;

/// A mode without a tag.
#[derive(Clone, Copy)]
pub enum CipherMode {
    Cbc,
    Ctr,
    Rfc3686,
    Xts,
}

/// A mode without a tag, under a key.
#[derive(Drop)]
pub enum AnyCipher {
    Cbc(Cbc<AnyAes>),
    Ctr(Ctr<AnyAes>),
    Rfc3686(Rfc3686<AnyAes>),
    Xts(Xts<AnyAes>),
}

/// A key of AES and the four bytes behind it. `EINVAL` where there are fewer than four bytes.
pub fn split_salted(key: &[u8]) -> Result<(&[u8], [u8; 4]), Errno>
    ensures { MatchResult result
        (λ parts. (4 ≤ length key.now) × (parts.0.now ≡ front_key key.now) × (parts.1 ≡ last_four key.now))
        (λ e. (e ≡ Errno.EINVAL) × (length key.now < 4)) }
{
    if key.len() < 4 {
        return Err(Errno::EINVAL);
    }
    let (front, last) = key.split_at(key.len() - 4);
    let mut four = [0u8; 4];
    four.copy_from_slice(last);
    Ok((front, four))
}

/// The two keys of AES in a key of XTS. `EINVAL` exactly where it hasn't 32 or 64 bytes.
fn split_halves(key: &[u8]) -> Result<(&[u8], &[u8]), Errno>
    ensures { MatchResult result
        (λ parts. (is_doubled_length (length key.now) ≡ true) × (parts.0.now ≡ first_half key.now) × (parts.1.now ≡ second_half key.now))
        (λ e. (e ≡ Errno.EINVAL) × (is_doubled_length (length key.now) ≡ false)) }
{
    if key.len() == 32 || key.len() == 64 {
        Ok(key.split_at(key.len() / 2))
    } else {
        Err(Errno::EINVAL)
    }
}

impl AnyCipher {
    ghost use Rattle.transforms.specs.Ciphers.{cipher_plan, IsCipher};

    /// `Inval` exactly where the mode doesn't take a key of that length.
    pub fn new(
        alloc: Global,
        mode: CipherMode,
        form: AesForm,
        key: &[u8],
    ) -> Result<AnyCipher, TfmErr>
        ensures { MatchResult result
            (λ c. (takes_key (cipher_plan mode form) key.now ≡ true) × IsCipher c (cipher_plan mode form) key.now)
            (λ e. IsNotKept e (takes_key (cipher_plan mode form) key.now)) }
    {
        match mode {
            CipherMode::Cbc => Ok(AnyCipher::Cbc(Cbc::new(AnyAes::new(alloc, form, key)?))),
            CipherMode::Ctr => Ok(AnyCipher::Ctr(Ctr::new(AnyAes::new(alloc, form, key)?))),
            CipherMode::Rfc3686 => {
                let (front, nonce) = split_salted(key)?;
                Ok(AnyCipher::Rfc3686(Rfc3686::new(AnyAes::new(alloc, form, front)?, nonce)))
            }
            CipherMode::Xts => {
                let (body, tweak) = split_halves(key)?;
                let body = AnyAes::new(alloc, form, body)?;
                let tweak = AnyAes::new(alloc, form, tweak)?;
                Ok(AnyCipher::Xts(Xts::new(body, tweak)))
            }
        }
    }
}

impl AnyCipher {
    ghost use Rattle.transforms.specs.Ciphers.{aes_of};

    /// The cipher under the mode, or none where it has two.
    pub fn aes(&self) -> Option<&AnyAes>
        ensures { MatchOption result (aes_of self.now ≡ None) (λ a. aes_of self.now ≡ Some a.now) }
    {
        match self {
            AnyCipher::Cbc(mode) => Some(mode.cipher()),
            AnyCipher::Ctr(mode) => Some(mode.cipher()),
            AnyCipher::Rfc3686(mode) => Some(mode.cipher()),
            AnyCipher::Xts(_) => None,
        }
    }
}

impl Skcipher for AnyCipher {
    ghost use Rattle.transforms.specs.Ciphers.{iv_size_of, seals_of, unseals_of};
    ghost use Rattle.transforms.specs.CipherLaws.{undoes_sealing};

    ghost iv_size = { iv_size_of };

    ghost seals = { seals_of };

    ghost unseals = { unseals_of };

    ghost inverse = { undoes_sealing };

    fn iv_len(&self) -> usize {
        match self {
            AnyCipher::Cbc(mode) => mode.iv_len(),
            AnyCipher::Ctr(mode) => mode.iv_len(),
            AnyCipher::Rfc3686(mode) => mode.iv_len(),
            AnyCipher::Xts(mode) => mode.iv_len(),
        }
    }

    fn seal(&self, iv: &[u8], b: &mut [u8]) -> Result<(), Errno> {
        match self {
            AnyCipher::Cbc(mode) => mode.seal(iv, b),
            AnyCipher::Ctr(mode) => mode.seal(iv, b),
            AnyCipher::Rfc3686(mode) => mode.seal(iv, b),
            AnyCipher::Xts(mode) => mode.seal(iv, b),
        }
    }

    fn unseal(&self, iv: &[u8], b: &mut [u8]) -> Result<(), Errno> {
        match self {
            AnyCipher::Cbc(mode) => mode.unseal(iv, b),
            AnyCipher::Ctr(mode) => mode.unseal(iv, b),
            AnyCipher::Rfc3686(mode) => mode.unseal(iv, b),
            AnyCipher::Xts(mode) => mode.unseal(iv, b),
        }
    }
}
