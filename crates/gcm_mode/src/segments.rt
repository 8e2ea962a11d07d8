//! GCM over a text in segments.

ghost use Rattle.std.specs.Prelude.{◌≡◌, ◌^◌, ◌<◌, All, length, IsTrue};
ghost use Rattle.std_defs.specs.Gcm.{inc32, pre_counter_block, gctr, gcm_tag, gcm_seal, gcm_open, gcm_takes_tag, padded_blocks};
ghost use Rattle.std_defs.specs.Value.{or_bad_message};
ghost use Rattle.std_defs.proofs.Horner.{horner};
ghost use Rattle.aes_block.specs.Opened.{Opens};
ghost use Rattle.gcm_mode.specs.Segments.{Counts, counts_none, counts_on, Hashes, hashes_none, hashes_on};

use crate::counter::{apply_key_stream, counter_after, first_counter};
use crate::gcm::Gcm;
use aes_block::{BlockCipher, tags_differ};
use ghash_field::{GhashKey, absorb};
use kc_base::Errno;
use sg_walk::{Segs, Walker};
use std::marker::Model;

/// The key stream on its way over a text (7.1, step 3): contracts see the cipher and the counter block of what comes
/// next, as a number.
#[derive(Drop)]
pub struct KeyStream<'a, C: BlockCipher + Drop> {
    cipher: &'a C,
    next: u128,
}

impl<'a, C: BlockCipher + Drop> Model for KeyStream<'a, C> {
    ghost use Rattle.std.specs.Prelude.{ℕ};

    ghost Value = { C × ℕ };

    ghost view = { λ at. (at.cipher.now, at.next) };
}

impl<'a, C: BlockCipher + Drop> KeyStream<'a, C> {
    /// The key stream of a whole text. `iv` must be new under this key.
    pub fn new(cipher: &'a C, iv: &[u8; 12]) -> KeyStream<'a, C>
        ensures { result ≡ (cipher.now, inc32 (pre_counter_block iv.now)) }
    {
        KeyStream {
            cipher,
            next: first_counter(iv),
        }
    }
}

impl<'a, C: BlockCipher + Drop> Walker for KeyStream<'a, C> {
    ghost makes = { λ u text made v. Counts C.sealed u text made v };

    ghost stays = { λ walker. counts_none C.sealed walker };

    ghost joins = { λ u v w a b made_a made_b whole first second. counts_on C.sealed u v w a b made_a made_b whole first second };

    fn step(&mut self, piece: &mut [u8]) {
        apply_key_stream(self.cipher, self.next, piece);
        self.next = counter_after(self.next, (piece.len() / 16) as u64);
    }
}

/// GHASH on its way over a ciphertext, which stays: contracts see the key and the hash of what was gone over.
#[derive(Drop)]
pub struct TextHash<'a, H: GhashKey + Drop> {
    key: &'a H,
    hash: u128,
}

impl<'a, H: GhashKey + Drop> Model for TextHash<'a, H> {
    ghost use Rattle.std.specs.Prelude.{ℕ, ◌<◌, ◌^◌};

    ghost Value = { H × ℕ };

    ghost view = { λ at. (at.key.now, at.hash) };

    ghost invariant = { λ at. at.hash < 2 ^ 128 };
}

/// What the type of a text says: each of its elements is a byte.
fn are_bytes(text: &[u8])
    ensures { All (λ x. x < 256) text.now }
{}

impl<'a, H: GhashKey + Drop> TextHash<'a, H> {
    /// GHASH of the associated bytes, padded to whole blocks.
    pub fn new(key: &'a H, associated: &[u8]) -> TextHash<'a, H>
        ensures { result ≡ (key.now, horner (H.block key.now) 0 (padded_blocks associated.now)) }
    {
        are_bytes(associated);
        let hash = absorb(key, 0, associated);
        TextHash { key, hash }
    }

    /// What was gone over, hashed.
    pub fn hash(&self) -> u128
        ensures { result ≡ self.now.1 }
    {
        self.hash
    }
}

impl<'a, H: GhashKey + Drop> Walker for TextHash<'a, H> {
    ghost makes = { λ u text made v. Hashes H.block u text made v };

    ghost stays = { λ walker. hashes_none H.block walker };

    ghost joins = { λ u v w a b made_a made_b whole first second. hashes_on H.block u v w a b made_a made_b whole first second };

    fn step(&mut self, piece: &mut [u8]) {
        are_bytes(piece);
        self.hash = absorb(self.key, self.hash, piece);
    }
}

/// Xors the text with the ciphers of the counter blocks from `initial` on.
fn count_over<C: BlockCipher + Drop>(cipher: &C, initial: u128, text: &mut Segs)
    ensures text { text.new.text ≡ gctr (C.sealed cipher.now) initial text.old.text }
    ensures sizes { text.new.sizes ≡ text.old.sizes }
    ensures len { length text.new.text ≡ length text.old.text }
{
    let mut stream = KeyStream {
        cipher,
        next: initial,
    };
    text.walk(&mut stream);
}

/// GHASH carried on from `hash` over the text, which stays.
fn hash_over<H: GhashKey + Drop>(key: &H, hash: u128, text: &mut Segs) -> u128
    ensures hash { result ≡ horner (H.block key.now) hash (padded_blocks text.old.text) }
    ensures bytes { All (λ x. x < 256) text.old.text }
    ensures text { text.new.text ≡ text.old.text }
    ensures sizes { text.new.sizes ≡ text.old.sizes }
{
    let mut hashed = TextHash { key, hash };
    text.walk(&mut hashed);
    hashed.hash
}

impl<C: BlockCipher + Drop, H: GhashKey + Drop> Gcm<C, H> {
    /// Makes the ciphertext of `text` in its place, and its full tag, as `seal` does. `associated` and `text` have
    /// fewer than 2^32 bytes each. Each segment keeps its length. `iv` must be new under this key.
    pub fn seal_segs(&self, iv: &[u8; 12], associated: &[u8], text: &mut Segs, tag: &mut [u8; 16])
        requires associated_short { length associated.now < 2 ^ 32 }
        requires text_short { length text.old.text < 2 ^ 32 }
        ensures sealed { (text.new.text, tag.new) ≡ gcm_seal (C.sealed self.now) iv.now associated.now text.old.text }
        ensures sizes { text.new.sizes ≡ text.old.sizes }
    {
        count_over(self.cipher(), first_counter(iv), text);
        *tag = self.tag_of_segs(iv, associated, text);
    }

    /// Makes the plaintext of `text` in its place, as `unseal` does, under a tag of 4, 8 or 12 to 16 bytes.
    /// `associated` and `text` have fewer than 2^32 bytes each. `EBADMSG` exactly where `tag` isn't the front of the
    /// full tag: no segment is opened then. Each segment keeps its length.
    pub fn unseal_segs(
        &self,
        iv: &[u8; 12],
        associated: &[u8],
        text: &mut Segs,
        tag: &[u8],
    ) -> Result<(), Errno>
        requires associated_short { length associated.now < 2 ^ 32 }
        requires text_short { length text.old.text < 2 ^ 32 }
        requires tag_taken { IsTrue (gcm_takes_tag (length tag.now)) }
        ensures text { Opens result
            (or_bad_message (gcm_open (C.sealed self.now) iv.now associated.now text.old.text tag.now))
            text.old.text text.new.text }
        ensures sizes { text.new.sizes ≡ text.old.sizes }
    {
        let full = self.tag_of_segs(iv, associated, text);
        if tags_differ(&full, tag) {
            return Err(Errno::EBADMSG);
        }
        count_over(self.cipher(), first_counter(iv), text);
        Ok(())
    }

    /// The full tag of a ciphertext, which stays.
    fn tag_of_segs(&self, iv: &[u8; 12], associated: &[u8], text: &mut Segs) -> [u8; 16]
        requires associated_short { length associated.now < 2 ^ 32 }
        requires text_short { length text.old.text < 2 ^ 32 }
        ensures tag { result ≡ gcm_tag (C.sealed self.now) iv.now associated.now text.old.text }
        ensures text { text.new.text ≡ text.old.text }
        ensures sizes { text.new.sizes ≡ text.old.sizes }
    {
        let text_len = text.len();
        let key = self.key();
        let after_associated = absorb(key, 0, associated);
        let after_text = hash_over(key, after_associated, text);
        self.seal_hash(iv, after_text, associated.len(), text_len)
    }
}
