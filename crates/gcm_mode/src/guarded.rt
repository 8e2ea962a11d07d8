//! GCM over a text that comes in pieces, behind a guard: a call that a stream doesn't take ends it.

ghost use Rattle.std.specs.Prelude.{◌≡◌, ◌+◌, ◌-◌, ◌^◌, ◌<◌, ◌≤◌, ◌++◌, ℕ, List, [], length, MatchResult, Some, true, false};
ghost use Rattle.std_defs.specs.Gcm.{gcm_seal, gcm_open};
ghost use Rattle.gcm_mode.specs.Streams.{Holds};
ghost use Rattle.gcm_mode.specs.Guarded.{PhaseHolds, IsSealing, IsOpening, IsEnded, IsLive, text_in};
ghost use Rattle.gcm_mode.specs.Guarded.{RefusesAssociated, RefusesText, RefusesTag, has_ended};

use crate::gcm::{Gcm, takes_gcm_tag};
use crate::stream::{GcmBegun, GcmText};
use aes_block::{BlockCipher, tags_differ};
use ghash_field::GhashKey;
use std::mem::replace;
use thiserror::Error;

/// Why a stream refuses.
#[derive(Clone, Copy, Debug, PartialEq, Eq, Error)]
pub enum Refusal {
    /// It has ended, by its tag or by another refusal.
    #[error("the stream has ended")]
    Ended,
    /// Its text has begun: associated bytes come too late.
    #[error("associated bytes behind the first of the text")]
    TooLate,
    /// More than 2^36 - 32 bytes of text would have come, or 2^61 associated bytes (5.2.1.1).
    #[error("more bytes than GCM takes")]
    TooLong,
    /// A tag has 4, 8, or 12 to 16 bytes.
    #[error("a tag of GCM has 4, 8, or 12 to 16 bytes")]
    TagLength,
    /// The tag is wrong.
    #[error("the tag is wrong")]
    WrongTag,
}

/// How far a stream has come.
#[derive(Drop)]
pub enum Phase {
    Associated(GcmBegun),
    Text(GcmText),
    Ended,
}

/// The greatest number of associated bytes: 2^64 - 1 bits (5.2.1.1).
const MOST_ASSOCIATED: u64 = 0x1fff_ffff_ffff_ffff;

/// The greatest number of bytes of a text: 2^39 - 256 bits (5.2.1.1).
const MOST_TEXT: u64 = 0xf_ffff_ffe0;

/// Whether at most so many bytes have come when some more have.
fn is_within(before: u64, more: usize, most: u64) -> bool
    requires { most < 2 ^ 64 - 1 }
    ensures fits { result ≡ true → before + more ≤ most }
    ensures too_long { result ≡ false → most < before + more }
{
    before.saturating_add(more as u64) <= most
}

impl Phase {
    /// Takes more associated bytes.
    fn add<C: BlockCipher + Drop, H: GhashKey + Drop>(
        &mut self,
        gcm: &Gcm<C, H>,
        bytes: &[u8],
    ) -> Result<(), Refusal>
        ensures { let cipher = C.sealed gcm.now in MatchResult result
            (λ _. IsLive self.old × (IsLive self.new × ((iv a t sealed : List ℕ) → PhaseHolds cipher iv a t sealed self.old
            → (t ≡ []) × PhaseHolds cipher iv (a ++ bytes.now) t sealed self.new)))
            (λ e. IsEnded self.new × RefusesAssociated e self.old (length bytes.now)) }
    {
        match replace(self, Phase::Ended) {
            Phase::Associated(begun) => {
                let mut begun = begun;
                if !is_within(begun.len(), bytes.len(), MOST_ASSOCIATED) {
                    return Err(Refusal::TooLong);
                }
                begun.add(gcm, bytes);
                *self = Phase::Associated(begun);
                Ok(())
            }
            Phase::Text(_) => Err(Refusal::TooLate),
            Phase::Ended => Err(Refusal::Ended),
        }
    }

    /// Takes the text out, which begins if it hasn't. What stays has ended.
    fn take<C: BlockCipher + Drop, H: GhashKey + Drop>(
        &mut self,
        gcm: &Gcm<C, H>,
    ) -> Result<GcmText, Refusal>
        ensures taken { let cipher = C.sealed gcm.now in MatchResult result
            (λ text. IsLive self.old × ((text.hash.len ≡ text_in self.old)
            × ((iv a t sealed : List ℕ) → PhaseHolds cipher iv a t sealed self.old → Holds cipher iv a t sealed text)))
            (λ e. (e ≡ has_ended) × IsEnded self.old) }
        ensures ended { IsEnded self.new }
    {
        match replace(self, Phase::Ended) {
            Phase::Associated(begun) => Ok(begun.text(gcm)),
            Phase::Text(text) => Ok(text),
            Phase::Ended => Err(Refusal::Ended),
        }
    }
}

impl Phase {
    /// A second one that has come as far.
    fn copy(&self) -> Phase
        ensures { result ≡ self.now }
    {
        match self {
            Phase::Associated(begun) => Phase::Associated(begun.copy()),
            Phase::Text(text) => Phase::Text(text.copy()),
            Phase::Ended => Phase::Ended,
        }
    }
}

/// A text that is sealed as it comes.
#[derive(Drop)]
pub struct GcmSealing {
    phase: Phase,
}

/// A text that is unsealed as it comes. What it writes is no one's until its tag is verified.
#[derive(Drop)]
pub struct GcmOpening {
    phase: Phase,
}

impl GcmSealing {
    /// A second stream that has come as far. Both go on apart.
    pub fn copy(&self) -> GcmSealing
        ensures { result ≡ self.now }
    {
        GcmSealing {
            phase: self.phase.copy(),
        }
    }

    /// Nothing came yet. `iv` must be new under the key.
    pub fn begin(iv: &[u8; 12]) -> GcmSealing
        ensures { (cipher : List ℕ → List ℕ) → IsSealing cipher iv.now [] [] [] result.phase }
    {
        GcmSealing {
            phase: Phase::Associated(GcmBegun::new(iv)),
        }
    }

    /// Takes more associated bytes.
    pub fn add<C: BlockCipher + Drop, H: GhashKey + Drop>(
        &mut self,
        gcm: &Gcm<C, H>,
        bytes: &[u8],
    ) -> Result<(), Refusal>
        ensures { let cipher = C.sealed gcm.now in MatchResult result
            (λ _. IsLive self.old.phase × (IsLive self.new.phase × ((iv a t made : List ℕ) → IsSealing cipher iv a t made self.old.phase
            → (t ≡ []) × IsSealing cipher iv (a ++ bytes.now) t made self.new.phase)))
            (λ e. IsEnded self.new.phase × RefusesAssociated e self.old.phase (length bytes.now)) }
    {
        self.phase.add(gcm, bytes)
    }

    /// Seals more of the text in its place.
    pub fn update<C: BlockCipher + Drop, H: GhashKey + Drop>(
        &mut self,
        gcm: &Gcm<C, H>,
        piece: &mut [u8],
    ) -> Result<(), Refusal>
        ensures { let cipher = C.sealed gcm.now in MatchResult result
            (λ _. IsLive self.old.phase × (IsLive self.new.phase × ((iv a t made : List ℕ) → IsSealing cipher iv a t made self.old.phase
            → IsSealing cipher iv a (t ++ piece.old) (made ++ piece.new) self.new.phase)))
            (λ e. IsEnded self.new.phase × ((piece.new ≡ piece.old) × RefusesText e self.old.phase (length piece.old))) }
    {
        let mut text = self.phase.take(gcm)?;
        if !is_within(text.len(), piece.len(), MOST_TEXT) {
            return Err(Refusal::TooLong);
        }
        text.seal(gcm, piece);
        self.phase = Phase::Text(text);
        Ok(())
    }

    /// The full tag of what came. The stream has ended.
    pub fn tag<C: BlockCipher + Drop, H: GhashKey + Drop>(
        &mut self,
        gcm: &Gcm<C, H>,
    ) -> Result<[u8; 16], Refusal>
        ensures told { let cipher = C.sealed gcm.now in MatchResult result
            (λ tag. IsLive self.old.phase × ((iv a t made : List ℕ) → IsSealing cipher iv a t made self.old.phase
            → (made, tag) ≡ gcm_seal cipher iv a t))
            (λ e. (e ≡ has_ended) × IsEnded self.old.phase) }
        ensures ended { IsEnded self.new.phase }
    {
        Ok(self.phase.take(gcm)?.tag(gcm))
    }
}

impl GcmOpening {
    /// A second stream that has come as far. Both go on apart.
    pub fn copy(&self) -> GcmOpening
        ensures { result ≡ self.now }
    {
        GcmOpening {
            phase: self.phase.copy(),
        }
    }

    /// Nothing came yet.
    pub fn begin(iv: &[u8; 12]) -> GcmOpening
        ensures { (cipher : List ℕ → List ℕ) → IsOpening cipher iv.now [] [] [] result.phase }
    {
        GcmOpening {
            phase: Phase::Associated(GcmBegun::new(iv)),
        }
    }

    /// Takes more associated bytes.
    pub fn add<C: BlockCipher + Drop, H: GhashKey + Drop>(
        &mut self,
        gcm: &Gcm<C, H>,
        bytes: &[u8],
    ) -> Result<(), Refusal>
        ensures { let cipher = C.sealed gcm.now in MatchResult result
            (λ _. IsLive self.old.phase × (IsLive self.new.phase × ((iv a t made : List ℕ) → IsOpening cipher iv a t made self.old.phase
            → (t ≡ []) × IsOpening cipher iv (a ++ bytes.now) t made self.new.phase)))
            (λ e. IsEnded self.new.phase × RefusesAssociated e self.old.phase (length bytes.now)) }
    {
        self.phase.add(gcm, bytes)
    }

    /// Unseals more of the text in its place. Whether it is the sender's, `verify` tells.
    pub fn update<C: BlockCipher + Drop, H: GhashKey + Drop>(
        &mut self,
        gcm: &Gcm<C, H>,
        piece: &mut [u8],
    ) -> Result<(), Refusal>
        ensures { let cipher = C.sealed gcm.now in MatchResult result
            (λ _. IsLive self.old.phase × (IsLive self.new.phase × ((iv a t made : List ℕ) → IsOpening cipher iv a t made self.old.phase
            → IsOpening cipher iv a (t ++ piece.old) (made ++ piece.new) self.new.phase)))
            (λ e. IsEnded self.new.phase × ((piece.new ≡ piece.old) × RefusesText e self.old.phase (length piece.old))) }
    {
        let mut text = self.phase.take(gcm)?;
        if !is_within(text.len(), piece.len(), MOST_TEXT) {
            return Err(Refusal::TooLong);
        }
        text.unseal(gcm, piece);
        self.phase = Phase::Text(text);
        Ok(())
    }

    /// Whether the tag is the front of the full tag of what came: then all that was written is the sender's. The stream
    /// has ended. Each byte of the tag is compared, wherever the first difference is.
    pub fn verify<C: BlockCipher + Drop, H: GhashKey + Drop>(
        &mut self,
        gcm: &Gcm<C, H>,
        tag: &[u8],
    ) -> Result<(), Refusal>
        ensures told { let cipher = C.sealed gcm.now in MatchResult result
            (λ _. IsLive self.old.phase × ((iv a t made : List ℕ) → IsOpening cipher iv a t made self.old.phase
            → gcm_open cipher iv a t tag.now ≡ Some made))
            (λ e. RefusesTag e cipher self.old.phase tag.now) }
        ensures ended { IsEnded self.new.phase }
    {
        let text = self.phase.take(gcm)?;
        if !takes_gcm_tag(tag.len()) {
            return Err(Refusal::TagLength);
        }
        if tags_differ(&text.tag(gcm), tag) {
            return Err(Refusal::WrongTag);
        }
        Ok(())
    }
}
