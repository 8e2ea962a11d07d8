//! Sealing and opening.

ghost use Rattle.std.specs.Prelude.{◌≡◌, ◌≤◌, ◌<◌, length};
ghost use Rattle.std_defs.specs.Authenc.{authenc_seal, authenc_open};
ghost use Rattle.aes_block.specs.Opened.{Opens};
ghost use Rattle.aes_block.specs.Outcome.{Becomes};

use aes_block::{Skcipher, tags_differ};
use hmac_sha::Mac;
use kc_base::Errno;
use seg_modes::SegCipher;
use sg_walk::Segs;
use std::marker::Model;

/// A cipher and a MAC, each under its key, seen as the MAC's key block and the cipher. No call takes memory.
///
/// The two keys are independent of each other. An IV serves once under a key, and for CBC nobody can foretell it: see
/// the cipher. A forger's guess at a tag of n bytes is right once in 256^n tries, so one of 12 to 32 bytes is taken,
/// and a shorter one only where each try is seen and few are let in. The tag says nothing of order: a packet that is
/// sent again opens again.
#[derive(Drop)]
pub struct Authenc<S: Skcipher + Drop> {
    mac: Mac,
    cipher: S,
}

impl<S: Skcipher + Drop> Model for Authenc<S> {
    ghost use Rattle.std.specs.Prelude.{ℕ, List};

    ghost Value = { List ℕ × S };

    ghost view = { λ a. (a.mac, a.cipher) };
}

impl<S: Skcipher + Drop> Authenc<S> {
    /// authenc over a MAC and a cipher.
    pub fn new(mac: Mac, cipher: S) -> Authenc<S>
        ensures { result ≡ (mac, cipher) }
    {
        Authenc { mac, cipher }
    }

    /// The MAC that it was made with.
    pub fn mac(&self) -> &Mac
        ensures { result.now ≡ self.now.0 }
    {
        &self.mac
    }

    /// The cipher that it was made with.
    pub fn cipher(&self) -> &S
        ensures { result.now ≡ self.now.1 }
    {
        &self.cipher
    }

    /// Seals the text `b` in place under an IV of the cipher's length, and writes the whole MAC of the associated bytes
    /// and behind them the ciphertext into `tag`. The IV is covered only where it stands among the associated bytes, as
    /// in ESP: where it doesn't, a changed IV changes the text unseen. `EINVAL` exactly where the cipher doesn't take a
    /// text of that length; `b` and `tag` are then unchanged.
    pub fn seal(
        &self,
        iv: &[u8],
        associated: &[u8],
        b: &mut [u8],
        tag: &mut [u8; 32],
    ) -> Result<(), Errno>
        requires { length iv.now ≡ S.iv_size self.now.1 }
        ensures { Becomes result
            (authenc_seal self.now.0 (S.seals self.now.1 iv.now) associated.now b.old)
            (b.old, tag.old) (b.new, tag.new) }
    {
        self.cipher.seal(iv, b)?;
        *tag = self.mac.mac(associated, b);
        Ok(())
    }

    /// Opens the text `b` in place under an IV of the cipher's length and a tag of 1 to 32 bytes. The tag is compared
    /// first: `EBADMSG` exactly where it isn't the front of the MAC of the associated bytes and `b`. Then `EINVAL`
    /// exactly where the cipher doesn't take a text of that length. `b` is unchanged after both.
    pub fn unseal(
        &self,
        iv: &[u8],
        associated: &[u8],
        b: &mut [u8],
        tag: &[u8],
    ) -> Result<(), Errno>
        requires iv_fits { length iv.now ≡ S.iv_size self.now.1 }
        requires tag_fits { (0 < length tag.now) × (length tag.now ≤ 32) }
        ensures { Opens result (authenc_open self.now.0 (S.unseals self.now.1 iv.now) associated.now b.old tag.now) b.old b.new }
    {
        let full = self.mac.mac(associated, b);
        if tags_differ(&full, tag) {
            return Err(Errno::EBADMSG);
        }
        self.cipher.unseal(iv, b)
    }
}

impl<S: SegCipher + Drop> Authenc<S> {
    /// Seals the text in place as `seal` does. `EINVAL` exactly where the cipher doesn't take a text of that length;
    /// the text and `tag` are then unchanged. Each segment keeps its length.
    pub fn seal_segs(
        &self,
        iv: &[u8],
        associated: &[u8],
        b: &mut Segs,
        tag: &mut [u8; 32],
    ) -> Result<(), Errno>
        requires { length iv.now ≡ S.iv_size self.now.1 }
        ensures text { Becomes result (authenc_seal self.now.0 (S.seals self.now.1 iv.now) associated.now b.old.text)
            (b.old.text, tag.old) (b.new.text, tag.new) }
        ensures sizes { b.new.sizes ≡ b.old.sizes }
    {
        self.cipher.seal_segs(iv, b)?;
        *tag = self.mac.mac_segs(associated, b);
        Ok(())
    }

    /// Opens the text in place as `unseal` does, under a tag of 1 to 32 bytes: `EBADMSG` exactly where it isn't the
    /// front of the MAC of the associated bytes and the text, then `EINVAL` exactly where the cipher doesn't take a
    /// text of that length. The text is unchanged after both. Each segment keeps its length.
    pub fn unseal_segs(
        &self,
        iv: &[u8],
        associated: &[u8],
        b: &mut Segs,
        tag: &[u8],
    ) -> Result<(), Errno>
        requires iv_fits { length iv.now ≡ S.iv_size self.now.1 }
        requires tag_fits { (0 < length tag.now) × (length tag.now ≤ 32) }
        ensures text { Opens result
            (authenc_open self.now.0 (S.unseals self.now.1 iv.now) associated.now b.old.text tag.now)
            b.old.text b.new.text }
        ensures sizes { b.new.sizes ≡ b.old.sizes }
    {
        let whole = self.mac.mac_segs(associated, b);
        if tags_differ(&whole, tag) {
            return Err(Errno::EBADMSG);
        }
        self.cipher.unseal_segs(iv, b)
    }
}
