//! What is kept of a key.

ghost use Rattle.std.specs.Prelude.{◌≡◌, true, false, MatchResult};
ghost use Rattle.transforms.specs.Kept.{IsNotKept};
ghost use Rattle.transforms.specs.Plans.{takes_key};

use crate::any_aead::AnyAead;
use crate::any_cipher::{AnyCipher, CipherMode};
use crate::any_mac::AnyMac;
use crate::tfm_err::TfmErr;
use std::alloc::Global;
use templates::{AesForm, Plan};

/// What is kept of a key: schedules, hash keys and padded blocks, each made once.
#[derive(Drop)]
pub enum Inner {
    Skcipher(AnyCipher),
    Mac(AnyMac),
    Aead(AnyAead),
}

ghost use Rattle.transforms.specs.Ciphers.{cipher_plan, authenc_plan};
ghost use Rattle.transforms.specs.Keys.{IsKeyed};

/// What a mode without a tag keeps of a key.
fn cipher_of(alloc: Global, mode: CipherMode, aes: AesForm, key: &[u8]) -> Result<Inner, TfmErr>
    ensures { MatchResult result
        (λ inner. (takes_key (cipher_plan mode aes) key.now ≡ true) × IsKeyed inner (cipher_plan mode aes) key.now)
        (λ e. IsNotKept e (takes_key (cipher_plan mode aes) key.now)) }
{
    Ok(Inner::Skcipher(AnyCipher::new(alloc, mode, aes, key)?))
}

/// What authenc over a mode keeps of a key.
fn authenc_of(alloc: Global, mode: CipherMode, aes: AesForm, key: &[u8]) -> Result<Inner, TfmErr>
    ensures { MatchResult result
        (λ inner. (takes_key (authenc_plan mode aes) key.now ≡ true) × IsKeyed inner (authenc_plan mode aes) key.now)
        (λ e. IsNotKept e (takes_key (authenc_plan mode aes) key.now)) }
{
    Ok(Inner::Aead(AnyAead::authenc(alloc, mode, aes, key)?))
}

/// What a plan keeps of a key. `Inval` exactly where it doesn't take the key.
pub fn inner_of(alloc: Global, plan: &Plan, key: &[u8]) -> Result<Inner, TfmErr>
    ensures { MatchResult result
        (λ inner. (takes_key plan.now key.now ≡ true) × IsKeyed inner plan.now key.now)
        (λ e. IsNotKept e (takes_key plan.now key.now)) }
{
    match *plan {
        Plan::Cbc(aes) => cipher_of(alloc, CipherMode::Cbc, aes, key),
        Plan::Ctr(aes) => cipher_of(alloc, CipherMode::Ctr, aes, key),
        Plan::Rfc3686(aes) => cipher_of(alloc, CipherMode::Rfc3686, aes, key),
        Plan::Xts(aes) => cipher_of(alloc, CipherMode::Xts, aes, key),
        Plan::Hmac => Ok(Inner::Mac(AnyMac::hmac(key))),
        Plan::Cmac(aes) => Ok(Inner::Mac(AnyMac::cmac(alloc, aes, key)?)),
        Plan::Gcm(aes, ghash) => Ok(Inner::Aead(AnyAead::gcm(alloc, aes, ghash, key)?)),
        Plan::Rfc4106(aes, ghash) => Ok(Inner::Aead(AnyAead::rfc4106(alloc, aes, ghash, key)?)),
        Plan::Ccm(aes) => Ok(Inner::Aead(AnyAead::ccm(alloc, aes, key)?)),
        Plan::AuthencCbc(aes) => authenc_of(alloc, CipherMode::Cbc, aes, key),
        Plan::AuthencCtr(aes) => authenc_of(alloc, CipherMode::Ctr, aes, key),
        Plan::AuthencRfc3686(aes) => authenc_of(alloc, CipherMode::Rfc3686, aes, key),
        Plan::AuthencXts(aes) => authenc_of(alloc, CipherMode::Xts, aes, key),
    }
}
