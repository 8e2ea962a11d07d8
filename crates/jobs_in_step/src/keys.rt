//! What of a key seals eight texts in step.

ghost use Rattle.std.specs.Prelude.{◌≡◌, ◌≤◌, ◌==◌, ℕ, ⊤, true, MatchOption, length};
ghost use Rattle.transforms.specs.Asked.{room_of, takes};
ghost use Rattle.transforms.specs.Drivers.{driver_of};
ghost use Rattle.transforms.specs.RequestValue.{request_value};
ghost use Rattle.transforms.specs.declared.request.Dir.TheVariants.{Enc};
ghost use Rattle.transforms.specs.declared.request.Request.{Request};

use cbc_mode::Cbc;
use hmac_sha::Mac;
use transforms::{AnyAead, AnyAes, AnyCipher, Inner, Keyed};

/// CBC, or authenc over it.
#[derive(Clone, Copy)]
pub enum StepKey<'a> {
    Cbc(&'a Cbc<AnyAes>),
    Authenc(&'a Mac, &'a Cbc<AnyAes>),
}

ghost use Rattle.jobs_in_step.specs.Steps.{sealed_by, room_by, tag_room, takes_associated};

/// What of a key seals eight texts in step, or none where its plan is another than CBC and authenc over it.
pub fn step_key(key: &Keyed) -> Option<StepKey<'_>>
    ensures values { MatchOption result ⊤ (λ k. (n : ℕ) (q : Request) → q.dir ≡ Enc
        → sealed_by k n q ≡ request_value (driver_of key.now.0) key.now.1 n q) }
    ensures taken { MatchOption result ⊤ (λ k. (n : ℕ) (q : Request) → q.dir ≡ Enc → length q.iv ≡ 16
        → takes_associated k (length q.aad) ≡ true → takes key.now.0 n q ≡ true) }
    ensures rooms { MatchOption result ⊤ (λ k. (n : ℕ) (q : Request) → q.dir ≡ Enc → room_by k n q ≡ room_of key.now.0 n q) }
{
    match key.inner() {
        Inner::Skcipher(AnyCipher::Cbc(mode)) => Some(StepKey::Cbc(mode)),
        Inner::Aead(aead) => match aead {
            AnyAead::Authenc(both) => match both.cipher() {
                AnyCipher::Cbc(mode) => Some(StepKey::Authenc(both.mac(), mode)),
                _ => None,
            },
            _ => None,
        },
        _ => None,
    }
}

impl StepKey<'_> {
    /// The greatest tag in bytes: none under CBC.
    pub fn most_tag(self) -> usize
        ensures size { result ≡ tag_room self.entry }
        ensures most { result ≤ 32 }
    {
        match self {
            StepKey::Cbc(_) => 0,
            StepKey::Authenc(_, _) => 32,
        }
    }

    /// Whether so many associated bytes are taken: CBC takes none.
    pub fn takes_associated(self, n: usize) -> bool
        ensures { result ≡ takes_associated self.entry n }
    {
        match self {
            StepKey::Cbc(_) => n == 0,
            StepKey::Authenc(_, _) => true,
        }
    }
}
