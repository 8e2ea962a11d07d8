//! GHASH over bytes that come in pieces of any length.

ghost use Rattle.std.specs.Prelude.{◌≡◌, ◌+◌, ◌%◌, ◌^◌, ◌<◌, ◌≤◌, ◌++◌, ℕ, List, [], All, length, take};
ghost use Rattle.std_defs.specs.Gcm.{padded_blocks};
ghost use Rattle.std_defs.proofs.Horner.{horner};

use ghash_field::{GhashKey, absorb};

/// GHASH on its way over bytes: the hash of the whole blocks so far, the bytes behind them, and how many came in all.
#[derive(Drop)]
pub struct ByteHash {
    hash: u128,
    rest: [u8; 16],
    len: u64,
    ghost short: { len < 2 ^ 61 },
}

/// What the type of a text says: each of its elements is a byte.
fn are_bytes(text: &[u8])
    ensures { All (λ x. x < 256) text.now }
{}

/// GHASH carried on over bytes, with zeros behind them to a whole block.
fn carry<H: GhashKey>(key: &H, y: u128, bytes: &[u8]) -> u128
    ensures { result ≡ horner (H.block key.now) y (padded_blocks bytes.now) }
{
    are_bytes(bytes);
    absorb(key, y, bytes)
}

/// Writes bytes into the block from `used` on.
fn place(rest: &mut [u8; 16], used: usize, bytes: &[u8])
    requires { used + length bytes.now ≤ 16 }
    ensures { take (used + length bytes.now) rest.new ≡ take used rest.old ++ bytes.now }
{
    rest[used..used + bytes.len()].copy_from_slice(bytes);
}

impl ByteHash {
    ghost use Rattle.gcm_mode.specs.Streams.{Hashed};

    /// No bytes yet, behind the value `y`.
    pub fn new(y: u128) -> ByteHash
        ensures none { (h : ℕ) → Hashed h y result [] }
        ensures len { result.len ≡ 0 }
    {
        ByteHash {
            hash: y,
            rest: [0; 16],
            len: 0,
        }
    }

    /// How many bytes came.
    pub fn len(&self) -> u64
        ensures { result ≡ self.now.len }
    {
        self.len
    }

    /// Hashes more bytes.
    pub fn add<H: GhashKey>(&mut self, key: &H, bytes: &[u8])
        requires short { self.old.len + length bytes.now < 2 ^ 61 }
        ensures more { let h = H.block key.now in (y : ℕ) (m : List ℕ) → Hashed h y self.old m → Hashed h y self.new (m ++ bytes.now) }
        ensures len { self.new.len ≡ self.old.len + length bytes.now }
    {
        let front = bytes.len().min((16 - (self.len % 16) as usize) % 16);
        self.add_within(key, &bytes[..front]);
        if front == bytes.len() {
            return;
        }
        let end = bytes.len() - (bytes.len() - front) % 16;
        self.add_blocks(key, &bytes[front..end]);
        self.add_within(key, &bytes[end..]);
    }

    /// Hashes bytes that end in the block in which the hash stands.
    fn add_within<H: GhashKey>(&mut self, key: &H, bytes: &[u8])
        requires within { self.old.len % 16 + length bytes.now ≤ 16 }
        requires short { self.old.len + length bytes.now < 2 ^ 61 }
        ensures more { let h = H.block key.now in (y : ℕ) (m : List ℕ) → Hashed h y self.old m → Hashed h y self.new (m ++ bytes.now) }
        ensures len { self.new.len ≡ self.old.len + length bytes.now }
    {
        are_bytes(bytes);
        let used = (self.len % 16) as usize;
        place(&mut self.rest, used, bytes);
        self.len += bytes.len() as u64;
        if used + bytes.len() == 16 {
            self.hash = carry(key, self.hash, &self.rest);
        }
    }

    /// Hashes whole blocks, where the hash stands between two.
    fn add_blocks<H: GhashKey>(&mut self, key: &H, bytes: &[u8])
        requires between { self.old.len % 16 ≡ 0 }
        requires whole { length bytes.now % 16 ≡ 0 }
        requires short { self.old.len + length bytes.now < 2 ^ 61 }
        ensures more { let h = H.block key.now in (y : ℕ) (m : List ℕ) → Hashed h y self.old m → Hashed h y self.new (m ++ bytes.now) }
        ensures len { self.new.len ≡ self.old.len + length bytes.now }
    {
        are_bytes(bytes);
        self.len += bytes.len() as u64;
        self.hash = carry(key, self.hash, bytes);
    }

    /// The hash of all bytes, with zeros behind them to a whole block.
    pub fn hash<H: GhashKey>(&self, key: &H) -> u128
        ensures { let h = H.block key.now in (y : ℕ) (m : List ℕ) → Hashed h y self.now m → result ≡ horner h y (padded_blocks m) }
    {
        carry(key, self.hash, &self.rest[..(self.len % 16) as usize])
    }
    /// A second hash that has come as far.
    pub fn copy(&self) -> ByteHash
        ensures { result ≡ self.now }
    {
        ByteHash {
            hash: self.hash,
            rest: self.rest,
            len: self.len,
        }
    }
}
