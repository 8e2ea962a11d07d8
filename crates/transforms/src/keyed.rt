//! A plan under a key.

ghost use Rattle.std.specs.Prelude.{◌≡◌, ◌⊎◌, ◌<◌, ◌≤◌, ◌^◌, [], length, vec_capacity, true, false, MatchResult, MatchOption, Some, None, IfOk};
ghost use Rattle.transforms.specs.Drivers.{driver_of};
ghost use Rattle.transforms.specs.Plans.{takes_key, fits_tag, form_in, aes_key_in};
ghost use Rattle.transforms.specs.RequestValue.{request_value};
ghost use Rattle.transforms.specs.Asked.{room_of, takes};
ghost use Rattle.transforms.specs.Finish.{finished_value};

use crate::admission::{takes_aead, takes_mac, takes_plain};
use crate::aead::Aead;
use crate::any_aes::AnyAes;
use crate::inner::{Inner, inner_of};
use crate::mode_requests::{run_aead, run_cipher, run_mac};
use crate::request::{Finished, Request};
use crate::room::{add_text, add_with_tag, length_with_tag};
use crate::tfm_err::TfmErr;
use aes_block::Skcipher;
use crossbeam_utils::CachePadded;
use kc_base::Bytes;
use std::alloc::{AllocError, Global};
use std::marker::Model;
use templates::Plan;

/// A plan under a key, seen as the plan and the key's bytes. A plan stands for its driver, the name of its instance
/// without `pcrypt` and `cryptd`.
#[derive(Drop)]
pub struct Keyed {
    pub(crate) plan: Plan,
    pub(crate) key: Bytes,
    /// On cache lines of its own: each job that is made counts a reference beside it, and each that is run reads it.
    inner: CachePadded<Inner>,
}

impl Model for Keyed {
    ghost use Rattle.std.specs.Prelude.{ℕ, List};
    ghost use Rattle.templates.specs.declared.driver_plans.Plan.{Plan};
    ghost use Rattle.crossbeam_utils.specs.Padded.{padded_value};
    ghost use Rattle.transforms.specs.Keys.{IsKeyed};

    ghost Value = { Plan × List ℕ };

    ghost view = { λ keyed. (keyed.plan, keyed.key) };

    ghost invariant = { λ keyed. IsKeyed (padded_value keyed.inner) keyed.plan keyed.key };
}

impl Keyed {
    ghost use Rattle.transforms.specs.Forms.{form_of, key_of};
    ghost use Rattle.transforms.specs.Keys.{IsKeyed};

    /// Sets a key. Unless memory ran out (`Memory`), `Inval` exactly where the plan doesn't take it: AES takes 16, 24
    /// or 32 bytes, RFC 3686 and RFC 4106 4 bytes more, XTS 32 or 64, HMAC any number, and authenc a blob with a cipher
    /// key that its cipher takes.
    pub fn set(alloc: Global, plan: &Plan, key: &[u8]) -> Result<Keyed, TfmErr>
        ensures { MatchResult result
            (λ keyed. (keyed ≡ (plan.now, key.now)) × (takes_key plan.now key.now ≡ true))
            (λ e. (e ≡ TfmErr.Memory) ⊎ ((e ≡ TfmErr.Inval) × (takes_key plan.now key.now ≡ false))) }
    {
        let inner = inner_of(alloc, plan, key)?;
        let key = Bytes::copy_of(alloc, key)?;
        Ok(Keyed {
            plan: *plan,
            key,
            inner: CachePadded::new(inner),
        })
    }

    /// The cipher that the plan's form of AES keeps, or none where there is no AES, or are two under XTS.
    pub fn cipher(&self) -> Option<&AnyAes>
        ensures { MatchOption result
            ((form_in self.now.0 ≡ None) × (aes_key_in self.now.0 self.now.1 ≡ None))
            (λ a. (form_in self.now.0 ≡ Some (form_of a.now)) × (aes_key_in self.now.0 self.now.1 ≡ Some (key_of a.now))) }
    {
        match &*self.inner {
            Inner::Skcipher(cipher) => cipher.aes(),
            Inner::Mac(mac) => mac.aes(),
            Inner::Aead(aead) => aead.aes(),
        }
    }

    /// What is kept of the key.
    pub fn inner(&self) -> &Inner
        ensures { IsKeyed result.now self.now.0 self.now.1 }
    {
        &self.inner
    }

    /// Whether a request is taken, for a tag size.
    pub(crate) fn takes(&self, authsize: usize, request: &Request) -> bool
        ensures { result ≡ takes self.now.0 authsize request.now }
    {
        match &*self.inner {
            Inner::Skcipher(cipher) => takes_plain(request, cipher.iv_len()),
            Inner::Mac(_) => takes_mac(request),
            Inner::Aead(aead) => takes_aead(aead, request, authsize),
        }
    }

    /// How many bytes a job's buffer has for the answer to a request, which begins with its text.
    fn room_length(&self, authsize: usize, request: &Request) -> usize
        requires tag_fits { fits_tag self.now.0 authsize ≡ true }
        requires text_short { length request.now.text.text < 2 ^ 32 }
        ensures { result ≡ length (room_of self.now.0 authsize request.now) }
    {
        match &*self.inner {
            Inner::Skcipher(_) => request.text.len(),
            Inner::Mac(mac) => mac.room_length(&request.text),
            Inner::Aead(_) => length_with_tag(authsize, request),
        }
    }

    /// An empty buffer with room for the answer to a request.
    pub(crate) fn room(
        &self,
        alloc: Global,
        authsize: usize,
        request: &Request,
    ) -> Result<Vec<u8>, AllocError>
        requires tag_fits { fits_tag self.now.0 authsize ≡ true }
        requires text_short { length request.now.text.text < 2 ^ 32 }
        ensures { IfOk result (λ buffer. (buffer.items ≡ []) × (length (room_of self.now.0 authsize request.now) ≤ vec_capacity buffer)) }
    {
        Vec::with_capacity(alloc, self.room_length(authsize, request))
    }

    /// Writes what the buffer of a job begins with. No memory is taken.
    pub(crate) fn fill(&self, authsize: usize, request: &Request, buffer: &mut Vec<u8>)
        requires empty { buffer.old.items ≡ [] }
        requires reserved { length (room_of self.now.0 authsize request.now) ≤ vec_capacity buffer.old }
        ensures { buffer.new.items ≡ room_of self.now.0 authsize request.now }
    {
        match &*self.inner {
            Inner::Skcipher(_) => add_text(buffer, &request.text),
            Inner::Mac(mac) => mac.fill(&request.text, buffer),
            Inner::Aead(_) => add_with_tag(buffer, authsize, request),
        }
    }

    /// The value of a request.
    pub(crate) fn run(&self, authsize: usize, request: &Request, buffer: Vec<u8>) -> Finished
        requires taken { takes self.now.0 authsize request.now ≡ true }
        requires tag_fits { fits_tag self.now.0 authsize ≡ true }
        requires aad_short { length request.now.aad < 2 ^ 32 }
        requires text_short { length request.now.text.text < 2 ^ 32 }
        requires room { buffer.items ≡ room_of self.now.0 authsize request.now }
        ensures { finished_value result ≡ request_value (driver_of self.now.0) self.now.1 authsize request.now }
    {
        match &*self.inner {
            Inner::Skcipher(cipher) => run_cipher(cipher, request, buffer),
            Inner::Mac(mac) => run_mac(mac, request, buffer),
            Inner::Aead(aead) => run_aead(aead, authsize, request, buffer),
        }
    }
}
