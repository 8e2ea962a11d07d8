//! What an instance computes, by the name of its driver.
ghost use Rattle.std.specs.Prelude.{◌≡◌, ℕ, length, Some, None, List};
ghost use Rattle.templates.specs.Plans.{is_word, aes_form, ghash_form, ctr_form, gcm_plan, salted, is_hmac, cipher_plan, authentic, bare_plan, queued_plan, plan_at, or_invalid};
ghost use Rattle.templates.specs.Words.{template_named};
ghost use Rattle.alg_names.specs.Name.{word_of, args_of};

use crate::template_words::{Template, template_of};
use alg_names::Name;
use kc_base::Errno;

/// Which AES computes.
#[derive(Clone, Copy, Debug, PartialEq, Eq)]
pub enum AesForm {
    AesGeneric,
    AesTable,
    AesLanes,
}

/// Which GHASH computes.
#[derive(Clone, Copy, Debug, PartialEq, Eq)]
pub enum GhashForm {
    GhashGeneric,
    GhashTable,
}

/// What an instance computes.
#[derive(Clone, Copy, Debug, PartialEq, Eq)]
pub enum Plan {
    Cbc(AesForm),
    Ctr(AesForm),
    Rfc3686(AesForm),
    Xts(AesForm),
    Gcm(AesForm, GhashForm),
    Rfc4106(AesForm, GhashForm),
    Ccm(AesForm),
    Hmac,
    Cmac(AesForm),
    AuthencCbc(AesForm),
    AuthencCtr(AesForm),
    AuthencRfc3686(AesForm),
    AuthencXts(AesForm),
}

fn is_alone(name: &Name, word: &[u8]) -> bool
    ensures { result ≡ is_word word.now name.now }
{
    if name.word() == word {
        name.args().len() == 0
    } else {
        false
    }
}

fn aes_of(name: &Name) -> Option<AesForm>
    ensures { result ≡ aes_form name.now }
{
    if is_alone(name, b"aes-generic") {
        Some(AesForm::AesGeneric)
    } else if is_alone(name, b"aes-table") {
        Some(AesForm::AesTable)
    } else if is_alone(name, b"aes-lanes") {
        Some(AesForm::AesLanes)
    } else {
        None
    }
}

fn ghash_of(name: &Name) -> Option<GhashForm>
    ensures { result ≡ ghash_form name.now }
{
    if is_alone(name, b"ghash-generic") {
        Some(GhashForm::GhashGeneric)
    } else if is_alone(name, b"ghash-table") {
        Some(GhashForm::GhashTable)
    } else {
        None
    }
}

fn counter_of(name: &Name) -> Option<AesForm>
    ensures { result ≡ ctr_form name.now }
{
    match (template_of(name.word()), name.args()) {
        (Some(Template::Ctr), [only]) => aes_of(only),
        _ => None,
    }
}

fn gcm_of_name(name: &Name) -> Option<Plan>
    ensures { result ≡ gcm_plan name.now }
{
    match (template_of(name.word()), name.args()) {
        (Some(Template::GcmBase), [counter, hash]) => {
            match (counter_of(counter), ghash_of(hash)) {
                (Some(aes), Some(ghash)) => Some(Plan::Gcm(aes, ghash)),
                _ => None,
            }
        }
        _ => None,
    }
}

fn salt(plan: Option<Plan>) -> Option<Plan>
    ensures { result ≡ salted plan }
{
    match plan {
        Some(Plan::Gcm(aes, ghash)) => Some(Plan::Rfc4106(aes, ghash)),
        _ => None,
    }
}

fn is_hmac_name(name: &Name) -> bool
    ensures { result ≡ is_hmac name.now }
{
    match (template_of(name.word()), name.args()) {
        (Some(Template::Hmac), [only]) => is_alone(only, b"sha256-generic"),
        _ => false,
    }
}

fn cipher_of(name: &Name) -> Option<Plan>
    ensures { result ≡ cipher_plan name.now }
{
    match (template_of(name.word()), name.args()) {
        (Some(Template::Cbc), [only]) => match aes_of(only) {
            Some(aes) => Some(Plan::Cbc(aes)),
            None => None,
        },
        (Some(Template::Ctr), [only]) => match aes_of(only) {
            Some(aes) => Some(Plan::Ctr(aes)),
            None => None,
        },
        (Some(Template::Rfc3686), [only]) => match counter_of(only) {
            Some(aes) => Some(Plan::Rfc3686(aes)),
            None => None,
        },
        (Some(Template::Xts), [only]) => match aes_of(only) {
            Some(aes) => Some(Plan::Xts(aes)),
            None => None,
        },
        _ => None,
    }
}

fn authenticate(mac: bool, plan: Option<Plan>) -> Option<Plan>
    ensures { result ≡ authentic mac plan }
{
    if !mac {
        return None;
    }
    match plan {
        Some(Plan::Cbc(aes)) => Some(Plan::AuthencCbc(aes)),
        Some(Plan::Ctr(aes)) => Some(Plan::AuthencCtr(aes)),
        Some(Plan::Rfc3686(aes)) => Some(Plan::AuthencRfc3686(aes)),
        Some(Plan::Xts(aes)) => Some(Plan::AuthencXts(aes)),
        _ => None,
    }
}

fn bare(name: &Name) -> Option<Plan>
    ensures { result ≡ bare_plan name.now }
{
    match (template_of(name.word()), name.args()) {
        (Some(Template::GcmBase), _) => gcm_of_name(name),
        (Some(Template::Rfc4106), [only]) => salt(gcm_of_name(only)),
        (Some(Template::Ccm), [only]) => match aes_of(only) {
            Some(aes) => Some(Plan::Ccm(aes)),
            None => None,
        },
        (Some(Template::Hmac), _) => {
            if is_hmac_name(name) {
                Some(Plan::Hmac)
            } else {
                None
            }
        }
        (Some(Template::Cmac), [only]) => match aes_of(only) {
            Some(aes) => Some(Plan::Cmac(aes)),
            None => None,
        },
        (Some(Template::Authenc), [mac, cipher]) => {
            authenticate(is_hmac_name(mac), cipher_of(cipher))
        }
        _ => cipher_of(name),
    }
}

/// The plan of what stands under `cryptd`.
fn queued(name: &Name) -> Option<Plan>
    ensures { result ≡ queued_plan name.now (template_named (word_of name.now)) (args_of name.now) }
{
    match (template_of(name.word()), name.args()) {
        (Some(Template::Pcrypt), [only]) => bare(only),
        _ => bare(name),
    }
}

/// The plan of an instance, by the name of its driver. No memory is taken.
///
/// EINVAL where the driver is that of a cipher, a hash or a GHASH: they have no plan. Of a name that no instance has as
/// its driver the answer means nothing.
pub fn plan_of(driver: &Name) -> Result<Plan, Errno>
    ensures { result ≡ or_invalid (plan_at driver.now) }
{
    let plan = match (template_of(driver.word()), driver.args()) {
        (Some(Template::Pcrypt), [only]) => bare(only),
        (Some(Template::Cryptd), [only]) => queued(only),
        _ => bare(driver),
    };
    match plan {
        Some(plan) => Ok(plan),
        None => Err(Errno::EINVAL),
    }
}
