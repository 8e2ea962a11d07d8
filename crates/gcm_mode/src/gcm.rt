//! GCM under a key.

ghost use Rattle.std.specs.Prelude.{◌≡◌, ◌+◌, ◌*◌, ◌^◌, ◌<◌, ◌≤◌, ℕ, List, length, take, IsTrue, Some, bit_xor};
ghost use Rattle.std_defs.specs.Blocks.{block_bytes as bytes_of};
ghost use Rattle.std_defs.specs.GhashField.{field_product};
ghost use Rattle.std_defs.specs.Gcm.{hash_subkey, pre_counter_block, gctr, gcm_tag, gcm_seal, gcm_open, gcm_takes_tag};
ghost use Rattle.std_defs.specs.Value.{or_bad_message};
ghost use Rattle.aes_block.specs.Opened.{Opens};

use crate::counter::{apply_behind_first, apply_key_stream, first_ciphers, pre_counter};
use aes_block::{BlockCipher, tags_differ, xor_block};
use ghash_field::{GhashKey, ghash_of};
use kc_base::Errno;
use std::marker::Model;
use std_defs::block_bytes;

/// Whether a tag of `len` bytes is taken: 4, 8, or 12 to 16 of them (5.2.1.2). Those of 4 and 8 are for uses that
/// appendix C allows.
pub fn takes_gcm_tag(len: usize) -> bool
    ensures { result ≡ gcm_takes_tag len }
{
    matches!(len, 4 | 8 | 12..=16)
}

/// The block of the two lengths, in bits (7.1, step 5).
fn lengths_of(associated_len: usize, text_len: usize) -> u128
    requires associated_short { associated_len < 2 ^ 61 }
    requires text_short { text_len < 2 ^ 61 }
    ensures { result ≡ associated_len * 8 * 2 ^ 64 + text_len * 8 }
{
    (associated_len as u128 * 8) * 0x1_0000_0000_0000_0000 + text_len as u128 * 8
}

/// A block cipher under a key, and the hash subkey that it gives. Contracts see it as the cipher.
///
/// An IV serves once under a key (8): two texts under one IV give away the sum of both and the hash subkey, by which
/// anyone forges tags. A counter is such an IV; IVs drawn at random serve for at most 2^32 texts (8.3). A forger's
/// chance at a tag of n bytes is 1 in 256^n or better: it grows with the length of the text, and a right guess at 4 or
/// 8 bytes helps with the next (appendix C). So take 16. A tag says nothing of order: a text that is sent again opens
/// again.
#[derive(Drop)]
pub struct Gcm<C: BlockCipher + Drop, H: GhashKey + Drop> {
    cipher: C,
    key: H,
}

impl<C: BlockCipher + Drop, H: GhashKey + Drop> Model for Gcm<C, H> {
    ghost Value = { C };

    ghost view = { λ gcm. gcm.cipher };

    ghost invariant = { λ gcm. H.block gcm.key ≡ hash_subkey (C.sealed gcm.cipher) };
}

impl<C: BlockCipher + Drop, H: GhashKey + Drop> Gcm<C, H> {
    /// Seals the block of zeros for the hash subkey (7.1, step 1).
    pub fn new(cipher: C) -> Gcm<C, H>
        ensures { result ≡ cipher }
    {
        let mut subkey = [0u8; 16];
        cipher.seal_block(&mut subkey);
        let key = H::new(subkey);
        Gcm { cipher, key }
    }

    /// The cipher that was given.
    pub fn cipher(&self) -> &C
        ensures { result.now ≡ self.now }
    {
        &self.cipher
    }

    /// The length of an IV in bytes: 12.
    pub fn iv_len(&self) -> usize
        ensures { result ≡ 12 }
    {
        12
    }

    /// Makes the ciphertext of `text` in its place, and its full tag (7.1), which covers `associated` and the
    /// ciphertext. Both have fewer than 2^32 bytes. What is sealed opens again, under the whole tag and under each
    /// front of it. `iv` must be new under this key (8), and at most 2^32 texts may have IVs drawn at random (8.3).
    pub fn seal(&self, iv: &[u8; 12], associated: &[u8], text: &mut [u8], tag: &mut [u8; 16])
        requires associated_short { length associated.now < 2 ^ 32 }
        requires text_short { length text.old < 2 ^ 32 }
        ensures sealed { (text.new, tag.new) ≡ gcm_seal (C.sealed self.now) iv.now associated.now text.old }
        ensures opens_whole { gcm_open (C.sealed self.now) iv.now associated.now text.new tag.new ≡ Some text.old }
        ensures opens { (n : ℕ) → n ≤ 16 → gcm_open (C.sealed self.now) iv.now associated.now text.new (take n tag.new) ≡ Some text.old }
    {
        let first = first_ciphers(&self.cipher, iv, text.len());
        apply_behind_first(&self.cipher, iv, &first, text);
        *tag = self.tag(&first[0], associated, text);
    }

    /// Makes the plaintext of `text` in its place (7.2). `associated` and `text` have fewer than 2^32 bytes each, `tag`
    /// has 4, 8 or 12 to 16 bytes. `EBADMSG` exactly where `tag` isn't the front of the full tag: the text is then
    /// unchanged. Each byte of the tag is compared, wherever the first difference is. A tag of 4 or 8 bytes is within a
    /// forger's reach (appendix C).
    pub fn unseal(
        &self,
        iv: &[u8; 12],
        associated: &[u8],
        text: &mut [u8],
        tag: &[u8],
    ) -> Result<(), Errno>
        requires associated_short { length associated.now < 2 ^ 32 }
        requires text_short { length text.old < 2 ^ 32 }
        requires tag_taken { IsTrue (gcm_takes_tag (length tag.now)) }
        ensures { Opens result (or_bad_message (gcm_open (C.sealed self.now) iv.now associated.now text.old tag.now)) text.old text.new }
    {
        let first = first_ciphers(&self.cipher, iv, text.len());
        let full = self.tag(&first[0], associated, text);
        if tags_differ(&full, tag) {
            return Err(Errno::EBADMSG);
        }
        apply_behind_first(&self.cipher, iv, &first, text);
        Ok(())
    }

    /// The full tag of a ciphertext: GHASH of the associated bytes, the ciphertext and their lengths in bits, and the
    /// cipher of J0 (7.1, steps 4 to 6).
    fn tag(&self, sealed: &[u8; 16], associated: &[u8], text: &[u8]) -> [u8; 16]
        requires associated_short { length associated.now < 2 ^ 32 }
        requires text_short { length text.now < 2 ^ 32 }
        ensures { (iv : List ℕ) → sealed.now ≡ C.sealed self.now (bytes_of (pre_counter_block iv))
            → result ≡ gcm_tag (C.sealed self.now) iv associated.now text.now }
    {
        let lengths = lengths_of(associated.len(), text.len());
        let mut tag = block_bytes(ghash_of(&self.key, associated, text, lengths));
        xor_block(&mut tag, sealed);
        tag
    }

    /// The full tag, from GHASH of the associated bytes and of the ciphertext, each padded to whole blocks, and from
    /// the lengths of both in bytes (7.1, steps 4 to 6).
    pub fn seal_hash(
        &self,
        iv: &[u8; 12],
        hash: u128,
        associated_len: usize,
        text_len: usize,
    ) -> [u8; 16]
        requires associated_short { associated_len < 2 ^ 61 }
        requires text_short { text_len < 2 ^ 61 }
        ensures { result ≡ gctr (C.sealed self.now) (pre_counter_block iv.now) (bytes_of (field_product
            (bit_xor hash (associated_len * 8 * 2 ^ 64 + text_len * 8)) (hash_subkey (C.sealed self.now)))) }
    {
        let lengths = lengths_of(associated_len, text_len);
        let mut tag = block_bytes(self.key.product(hash ^ lengths));
        apply_key_stream(&self.cipher, pre_counter(iv), &mut tag);
        tag
    }

    /// The hash subkey, as the key of GHASH.
    pub fn key(&self) -> &H
        ensures { H.block result.now ≡ hash_subkey (C.sealed self.now) }
    {
        &self.key
    }
}
