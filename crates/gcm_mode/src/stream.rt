//! GCM over a text that comes in pieces of any length.

ghost use Rattle.std.specs.Prelude.{◌≡◌, ◌+◌, ◌-◌, ◌^◌, ◌<◌, ◌≤◌, ◌++◌, ℕ, List, [], length};
ghost use Rattle.std_defs.specs.Gcm.{hash_subkey, gcm_tag};

use crate::byte_hash::ByteHash;
use crate::counter::{Counter, first_counter};
use crate::gcm::Gcm;
use aes_block::BlockCipher;
use ctr_mode::KeyStream;
use ghash_field::GhashKey;

/// An IV, and the associated bytes behind which a text comes.
#[derive(Drop)]
pub struct GcmBegun {
    iv: [u8; 12],
    associated: ByteHash,
}

impl GcmBegun {
    ghost use Rattle.gcm_mode.specs.Streams.{Begun, Holds};

    /// No associated bytes yet.
    pub fn new(iv: &[u8; 12]) -> GcmBegun
        ensures none { (h : ℕ) → Begun h iv.now [] result }
        ensures len { result.associated.len ≡ 0 }
    {
        GcmBegun {
            iv: *iv,
            associated: ByteHash::new(0),
        }
    }

    /// How many associated bytes came.
    pub fn len(&self) -> u64
        ensures { result ≡ self.now.associated.len }
    {
        self.associated.len()
    }

    /// Takes more associated bytes, fewer than 2^61 in all (5.2.1.1).
    pub fn add<C: BlockCipher + Drop, H: GhashKey + Drop>(&mut self, gcm: &Gcm<C, H>, bytes: &[u8])
        requires short { self.old.associated.len + length bytes.now < 2 ^ 61 }
        ensures more { let h = hash_subkey (C.sealed gcm.now) in (iv a : List ℕ)
            → Begun h iv a self.old → Begun h iv (a ++ bytes.now) self.new }
        ensures len { self.new.associated.len ≡ self.old.associated.len + length bytes.now }
    {
        self.associated.add(gcm.key(), bytes);
    }

    /// The text begins.
    pub fn text<C: BlockCipher + Drop, H: GhashKey + Drop>(&self, gcm: &Gcm<C, H>) -> GcmText
        ensures none { let cipher = C.sealed gcm.now in
            (iv a : List ℕ) → Begun (hash_subkey cipher) iv a self.now → Holds cipher iv a [] [] result }
        ensures len { result.hash.len ≡ 0 }
    {
        GcmText {
            iv: self.iv,
            associated_len: self.associated.len(),
            stream: KeyStream::new(Counter {
                next: first_counter(&self.iv),
            }),
            hash: ByteHash::new(self.associated.hash(gcm.key())),
        }
    }

    /// A second one that has come as far.
    pub fn copy(&self) -> GcmBegun
        ensures { result ≡ self.now }
    {
        GcmBegun {
            iv: self.iv,
            associated: self.associated.copy(),
        }
    }
}

/// A text on its way. The IV must be new under the key, for one text alone, and each call is to be under the same key.
#[derive(Drop)]
pub struct GcmText {
    iv: [u8; 12],
    associated_len: u64,
    stream: KeyStream<Counter>,
    hash: ByteHash,
    ghost short: { associated_len < 2 ^ 61 },
}

impl GcmText {
    ghost use Rattle.gcm_mode.specs.Streams.{Holds, Seals, Unseals};

    /// How many bytes of text came.
    pub fn len(&self) -> u64
        ensures { result ≡ self.now.hash.len }
    {
        self.hash.len()
    }

    /// Seals more of the text in its place, of at most 2^36 - 32 bytes in all (5.2.1.1).
    pub fn seal<C: BlockCipher + Drop, H: GhashKey + Drop>(
        &mut self,
        gcm: &Gcm<C, H>,
        piece: &mut [u8],
    )
        requires short { self.old.hash.len + length piece.old ≤ 2 ^ 36 - 32 }
        ensures more { let cipher = C.sealed gcm.now in (iv a t made : List ℕ) → Seals cipher iv a t made self.old
            → Seals cipher iv a (t ++ piece.old) (made ++ piece.new) self.new }
        ensures len { self.new.hash.len ≡ self.old.hash.len + length piece.old }
    {
        self.stream.apply(gcm.cipher(), piece);
        self.hash.add(gcm.key(), piece);
    }

    /// Unseals more of the text in its place, of at most 2^36 - 32 bytes in all (5.2.1.1). Whether it is the sender's,
    /// the tag will tell.
    pub fn unseal<C: BlockCipher + Drop, H: GhashKey + Drop>(
        &mut self,
        gcm: &Gcm<C, H>,
        piece: &mut [u8],
    )
        requires short { self.old.hash.len + length piece.old ≤ 2 ^ 36 - 32 }
        ensures more { let cipher = C.sealed gcm.now in (iv a t made : List ℕ) → Unseals cipher iv a t made self.old
            → Unseals cipher iv a (t ++ piece.old) (made ++ piece.new) self.new }
        ensures len { self.new.hash.len ≡ self.old.hash.len + length piece.old }
    {
        self.hash.add(gcm.key(), piece);
        self.stream.apply(gcm.cipher(), piece);
    }

    /// The full tag of what came.
    pub fn tag<C: BlockCipher + Drop, H: GhashKey + Drop>(&self, gcm: &Gcm<C, H>) -> [u8; 16]
        ensures { let cipher = C.sealed gcm.now in
            (iv a t sealed : List ℕ) → Holds cipher iv a t sealed self.now → result ≡ gcm_tag cipher iv a sealed }
    {
        let hash = self.hash.hash(gcm.key());
        gcm.seal_hash(
            &self.iv,
            hash,
            self.associated_len as usize,
            self.hash.len() as usize,
        )
    }

    /// A second text that has come as far.
    pub fn copy(&self) -> GcmText
        ensures { result ≡ self.now }
    {
        GcmText {
            iv: self.iv,
            associated_len: self.associated_len,
            stream: KeyStream::resume(
                Counter {
                    next: self.stream.counters().next,
                },
                self.stream.used(),
            ),
            hash: self.hash.copy(),
        }
    }
}
