//! GCM as ESP has it (RFC 4106).

ghost use Rattle.std.specs.Prelude.{◌≡◌, ◌^◌, ◌<◌, ◌≤◌, ℕ, List, length, take, IsTrue, OnOk, MatchResult, Some, None};
ghost use Rattle.std_defs.specs.Rfc4106.{rfc4106_takes, rfc4106_associated, rfc4106_takes_tag, rfc4106_iv, rfc4106_seal, rfc4106_open};
ghost use Rattle.std_defs.specs.Value.Value.{bytes};
ghost use Rattle.aes_block.specs.Opened.{Opens};

use crate::gcm::Gcm;
use aes_block::BlockCipher;
use ghash_field::GhashKey;
use kc_base::Errno;
use sg_walk::Segs;
use std::marker::Model;

/// Whether a tag of `len` bytes is taken: 8, 12 or 16 of them (6).
pub fn takes_rfc4106_tag(len: usize) -> bool
    ensures { result ≡ rfc4106_takes_tag len }
{
    matches!(len, 8 | 12 | 16)
}

/// Whether these associated bytes are taken: 16 or 20 of them, the standard's 8 or 12 and behind them the IV's eight.
pub fn takes_rfc4106_associated(associated: &[u8]) -> bool
    ensures { result ≡ rfc4106_takes associated.now }
{
    associated.len() == 16 || associated.len() == 20
}

/// The associated bytes that are authenticated, 8 or 12: those of a request without the IV's eight (5).
pub fn authenticated_bytes(associated: &[u8]) -> &[u8]
    requires { IsTrue (rfc4106_takes associated.now) }
    ensures { result.now ≡ rfc4106_associated associated.now }
{
    &associated[..associated.len() - 8]
}

/// GCM and the salt of its IVs. Contracts see the cipher and the salt.
///
/// An IV serves once under a key and a salt (RFC 4106, 3.1): a packet's number is such an IV, and a key ends where the
/// numbers do. `Gcm` has what a short tag is worth. A tag says nothing of order: against packets that are sent again
/// the receiver keeps a window of numbers.
#[derive(Drop)]
pub struct Rfc4106<C: BlockCipher + Drop, H: GhashKey + Drop> {
    gcm: Gcm<C, H>,
    salt: [u8; 4],
}

impl<C: BlockCipher + Drop, H: GhashKey + Drop> Model for Rfc4106<C, H> {
    ghost use Rattle.std.specs.Prelude.{ℕ, List};

    ghost Value = { C × List ℕ };

    ghost view = { λ mode. (mode.gcm, mode.salt) };
}

impl<C: BlockCipher + Drop, H: GhashKey + Drop> Rfc4106<C, H> {
    /// The salt is the last four bytes of the key material (8.1).
    pub fn new(gcm: Gcm<C, H>, salt: [u8; 4]) -> Rfc4106<C, H>
        ensures { result ≡ (gcm, salt) }
    {
        Rfc4106 { gcm, salt }
    }

    /// The cipher of the GCM that was given.
    pub fn cipher(&self) -> &C
        ensures { result.now ≡ self.now.0 }
    {
        self.gcm.cipher()
    }

    /// The GCM that was given. It takes `nonce` and `authenticated_bytes` of a packet.
    pub fn gcm(&self) -> &Gcm<C, H>
        ensures { result.now ≡ self.now.0 }
    {
        &self.gcm
    }

    /// The IV of GCM, 12 bytes, for the IV of a packet (4).
    pub fn nonce(&self, iv: &[u8; 8]) -> [u8; 12]
        ensures { result ≡ rfc4106_iv self.now.1 iv.now }
    {
        salted(&self.salt, iv)
    }

    /// The length of an IV in bytes: 8.
    pub fn iv_len(&self) -> usize
        ensures { result ≡ 8 }
    {
        8
    }

    /// Makes the ciphertext of `text`, of fewer than 2^32 bytes, in its place, and its full tag. The last eight bytes
    /// of `associated`, where ESP's caller puts the IV, are ignored: the nonce of GCM has the salt and `iv` (RFC 4106,
    /// 4 and 5). `EINVAL` exactly where `associated` hasn't 16 or 20 bytes: all is then unchanged. `iv` must be new
    /// under this key and salt (RFC 4106, 3.1).
    pub fn seal(
        &self,
        iv: &[u8; 8],
        associated: &[u8],
        text: &mut [u8],
        tag: &mut [u8; 16],
    ) -> Result<(), Errno>
        requires { length text.old < 2 ^ 32 }
        ensures sealed { let given = rfc4106_seal (C.sealed self.now.0) self.now.1 iv.now associated.now text.old in
            MatchResult result
            (λ _. given ≡ Some (text.new, tag.new))
            (λ e. (e ≡ Errno.EINVAL) × (given ≡ None) × (text.new ≡ text.old) × (tag.new ≡ tag.old)) }
        ensures opens_whole { OnOk result
            (rfc4106_open (C.sealed self.now.0) self.now.1 iv.now associated.now text.new tag.new ≡ bytes text.old) }
        ensures opens { OnOk result ((n : ℕ) → n ≤ 16
            → rfc4106_open (C.sealed self.now.0) self.now.1 iv.now associated.now text.new (take n tag.new) ≡ bytes text.old) }
    {
        if !takes_rfc4106_associated(associated) {
            return Err(Errno::EINVAL);
        }
        let nonce = salted(&self.salt, iv);
        self.gcm
            .seal(&nonce, authenticated_bytes(associated), text, tag);
        Ok(())
    }

    /// Makes the plaintext of `text`, of fewer than 2^32 bytes, in its place, under a tag of 8, 12 or 16 bytes.
    /// `EINVAL` exactly where `associated` hasn't 16 or 20 bytes, and then `EBADMSG` exactly where `tag` isn't the
    /// front of the full tag: the text is unchanged in both cases.
    pub fn unseal(
        &self,
        iv: &[u8; 8],
        associated: &[u8],
        text: &mut [u8],
        tag: &[u8],
    ) -> Result<(), Errno>
        requires text_short { length text.old < 2 ^ 32 }
        requires tag_taken { IsTrue (rfc4106_takes_tag (length tag.now)) }
        ensures { Opens result (rfc4106_open (C.sealed self.now.0) self.now.1 iv.now associated.now text.old tag.now) text.old text.new }
    {
        if !takes_rfc4106_associated(associated) {
            return Err(Errno::EINVAL);
        }
        let nonce = salted(&self.salt, iv);
        self.gcm
            .unseal(&nonce, authenticated_bytes(associated), text, tag)
    }

    /// Makes the ciphertext of `text`, of fewer than 2^32 bytes, in its place, and its full tag, as `seal` does.
    /// `EINVAL` exactly where `associated` hasn't 16 or 20 bytes: all is then unchanged. Each segment keeps its length.
    pub fn seal_segs(
        &self,
        iv: &[u8; 8],
        associated: &[u8],
        text: &mut Segs,
        tag: &mut [u8; 16],
    ) -> Result<(), Errno>
        requires { length text.old.text < 2 ^ 32 }
        ensures sealed { let given = rfc4106_seal (C.sealed self.now.0) self.now.1 iv.now associated.now text.old.text in
            MatchResult result
            (λ _. given ≡ Some (text.new.text, tag.new))
            (λ e. (e ≡ Errno.EINVAL) × (given ≡ None) × (text.new.text ≡ text.old.text) × (tag.new ≡ tag.old)) }
        ensures sizes { text.new.sizes ≡ text.old.sizes }
    {
        if !takes_rfc4106_associated(associated) {
            return Err(Errno::EINVAL);
        }
        let nonce = salted(&self.salt, iv);
        self.gcm
            .seal_segs(&nonce, authenticated_bytes(associated), text, tag);
        Ok(())
    }

    /// Makes the plaintext of `text`, of fewer than 2^32 bytes, in its place, as `unseal` does, under a tag of 8, 12 or
    /// 16 bytes. `EINVAL` exactly where `associated` hasn't 16 or 20 bytes, and then `EBADMSG` exactly where `tag`
    /// isn't the front of the full tag: no segment is opened in both cases. Each segment keeps its length.
    pub fn unseal_segs(
        &self,
        iv: &[u8; 8],
        associated: &[u8],
        text: &mut Segs,
        tag: &[u8],
    ) -> Result<(), Errno>
        requires text_short { length text.old.text < 2 ^ 32 }
        requires tag_taken { IsTrue (rfc4106_takes_tag (length tag.now)) }
        ensures text { Opens result
            (rfc4106_open (C.sealed self.now.0) self.now.1 iv.now associated.now text.old.text tag.now)
            text.old.text text.new.text }
        ensures sizes { text.new.sizes ≡ text.old.sizes }
    {
        if !takes_rfc4106_associated(associated) {
            return Err(Errno::EINVAL);
        }
        let nonce = salted(&self.salt, iv);
        self.gcm
            .unseal_segs(&nonce, authenticated_bytes(associated), text, tag)
    }
}

/// The IV of GCM: the salt, then the IV of the packet (4).
fn salted(salt: &[u8; 4], iv: &[u8; 8]) -> [u8; 12]
    ensures { result ≡ rfc4106_iv salt.now iv.now }
{
    let mut whole = [0u8; 12];
    whole[..4].copy_from_slice(salt);
    whole[4..].copy_from_slice(iv);
    whole
}
