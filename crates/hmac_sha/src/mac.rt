//! The MAC under a key.

ghost use Rattle.std.specs.Prelude.{◌≡◌, ◌++◌, ℕ, List};
ghost use Rattle.std.specs.List.{concat};
ghost use Rattle.std_defs.specs.Hmac.{block_key, xor_pad, hmac_under};
ghost use Rattle.sha_lanes.specs.Hashers.{HasAbsorbed};

use crate::key_block::{add_pad, block_of};
use kc_base::Bytes;
use sg_walk::Segs;
use sha_lanes::Sha256;
use sha2::Digest;
use std::marker::Model;

/// The pad of the inner hash.
const INNER_PAD: u8 = 0x36;

/// The pad of the outer hash.
const OUTER_PAD: u8 = 0x5c;

/// A hasher that has taken the block with the pad.
fn hasher_of(block: &[u8; 64], pad: u8) -> Sha256
    ensures { HasAbsorbed result (xor_pad pad block.now) }
{
    let mut padded = *block;
    add_pad(&mut padded, pad);
    let mut hasher = Sha256::new();
    hasher.update(padded.as_slice());
    hasher
}

/// A key of HMAC (FIPS 198-1, 4) of any length, seen as a block of 64 bytes (K0). Both hashers have taken their padded
/// block already, so a MAC hashes no block of the key again.
///
/// Draw a key of 32 bytes at random; a shorter one is worth no more than its guess. The front of a MAC may serve as a
/// tag: a guess at n bytes is right once in 256^n tries, so take 12 or more, and compare them by `tags_differ` of
/// `aes_block`. A MAC says nothing of order: against a text that is sent again put a number into it.
#[derive(Drop)]
pub struct Mac {
    block: [u8; 64],
    pub(crate) inner: Sha256,
    pub(crate) outer: Sha256,
}

impl Model for Mac {
    ghost use Rattle.std.specs.Prelude.{ℕ, List};
    ghost use Rattle.sha_lanes.specs.Hashers.{HasAbsorbed};
    ghost use Rattle.std_defs.specs.Hmac.{xor_pad};

    ghost Value = { List ℕ };

    ghost view = { λ mac. mac.block };

    ghost invariant = { λ mac. HasAbsorbed mac.inner (xor_pad 0x36 mac.block) × HasAbsorbed mac.outer (xor_pad 0x5c mac.block) };
}

impl Mac {
    /// The MAC under a key of any length.
    pub fn new(key: &[u8]) -> Mac
        ensures { result ≡ block_key key.now }
    {
        let block = block_of(key);
        let inner = hasher_of(&block, INNER_PAD);
        let outer = hasher_of(&block, OUTER_PAD);
        Mac {
            block,
            inner,
            outer,
        }
    }

    /// The whole MAC, of 32 bytes, of the two pieces as one message: where they meet isn't covered. It takes no memory.
    pub fn mac(&self, first: &[u8], second: &[u8]) -> [u8; 32]
        ensures { result ≡ hmac_under self.now (first.now ++ second.now) }
    {
        // copying a hasher takes no memory, so it is always `Ok`
        let mut inner = self.inner.clone().unwrap();
        inner.update(first);
        inner.update(second);
        self.finish(inner)
    }

    /// The whole MAC, of 32 bytes, of the piece and the text behind it as one message. It takes no memory.
    pub fn mac_segs(&self, first: &[u8], second: &Segs) -> [u8; 32]
        ensures { result ≡ hmac_under self.now (first.now ++ second.now.text) }
    {
        let mut hasher = self.inner.clone().unwrap();
        hasher.update(first);
        hash_parts(&mut hasher, second.parts());
        self.finish(hasher)
    }

    /// The MAC of what the inner hasher has taken behind its block.
    fn finish(&self, inner: Sha256) -> [u8; 32]
        ensures { (message : List ℕ) → HasAbsorbed inner (xor_pad 0x36 self.now ++ message) → result ≡ hmac_under self.now message }
    {
        outer_digest(&self.outer, inner)
    }
}

/// The MAC of what the inner hasher has taken behind its block, by the outer one, which has taken its block.
#[tactic(auto, unfolding(std_defs::specs::Hmac::hmac_under))]
pub(crate) fn outer_digest(outer: &Sha256, inner: Sha256) -> [u8; 32]
    ensures { (key message : List ℕ) → HasAbsorbed inner (xor_pad 0x36 key ++ message) → HasAbsorbed outer.now (xor_pad 0x5c key)
        → result ≡ hmac_under key message }
{
    let digest = inner.finalize();
    let mut outer = outer.clone().unwrap();
    outer.update(digest.as_slice());
    outer.finalize()
}

/// Hashes the pieces one after another.
fn hash_parts(hasher: &mut Sha256, parts: &[Bytes])
    ensures { (m : List ℕ) → HasAbsorbed hasher.old m → HasAbsorbed hasher.new (m ++ concat parts.now) }
{
    for part in parts {
        hasher.update(part.as_slice());
    }
}
