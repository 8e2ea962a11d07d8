//! Bytes that are not whole groups of four blocks.

ghost use Rattle.std.specs.Prelude.{◌≡◌, ℕ, ◌-◌, ◌/◌, ◌%◌, ◌^◌, ◌<◌, ◌≤◌, ◌∷◌, ◌++◌, length, replicate, slice_index};
ghost use Rattle.std.specs.Int.{div_ceil};
ghost use Rattle.std_defs.specs.Gcm.{padded};
ghost use Rattle.std_defs.specs.Poly1305.{prime, accumulated, message_block};
ghost use Rattle.poly1305.specs.Limbs.{value_of};

use crate::powers::{Powers, WHOLE};

/// At most 64 bytes, and zeros behind them.
fn filled(bytes: &[u8]) -> [u8; 64]
    requires { length bytes.now ≤ 64 }
    ensures { result ≡ bytes.now ++ replicate (64 - length bytes.now) 0 }
{
    let mut block = [0u8; 64];
    block[..bytes.len()].copy_from_slice(bytes);
    block
}

/// Fewer than 64 bytes, a byte 01 and zeros behind them.
fn marked(bytes: &[u8]) -> [u8; 64]
    requires { length bytes.now < 64 }
    ensures { result ≡ bytes.now ++ 1 ∷ replicate (63 - length bytes.now) 0 }
{
    let mut block = filled(bytes);
    block[bytes.len()] = 1;
    block
}

impl Powers {
    /// The value after whole groups of four blocks, or none.
    fn after_whole(&self, value: [u64; 5], bytes: &[u8]) -> [u64; 5]
        requires whole { length bytes.now % 64 ≡ 0 }
        requires below { (k : ℕ) → slice_index value k < 2 ^ 29 }
        ensures value { value_of result % prime
            ≡ accumulated self.now.r (message_block bytes.now) (value_of value) (length bytes.now / 16) % prime }
        ensures below { (k : ℕ) → slice_index result k < 2 ^ 29 }
    {
        if bytes.is_empty() {
            return value;
        }
        self.after_groups(value, bytes)
    }

    /// The value after fewer than 64 bytes, with zeros behind them to whole blocks.
    fn after_rest(&self, value: [u64; 5], rest: &[u8]) -> [u64; 5]
        requires short { length rest.now < 64 }
        requires below { (k : ℕ) → slice_index value k < 2 ^ 29 }
        ensures value { value_of result % prime
            ≡ accumulated self.now.r (message_block (padded rest.now)) (value_of value) (length (padded rest.now) / 16) % prime }
        ensures below { (k : ℕ) → slice_index result k < 2 ^ 29 }
    {
        if rest.is_empty() {
            return value;
        }
        self.after_blocks(value, &filled(rest), rest.len().div_ceil(16), WHOLE)
    }

    /// The value after bytes, with zeros behind them to whole blocks.
    pub(crate) fn after_padded(&self, value: [u64; 5], bytes: &[u8]) -> [u64; 5]
        requires below { (k : ℕ) → slice_index value k < 2 ^ 29 }
        ensures value { value_of result % prime
            ≡ accumulated self.now.r (message_block (padded bytes.now)) (value_of value) (length (padded bytes.now) / 16) % prime }
        ensures below { (k : ℕ) → slice_index result k < 2 ^ 29 }
    {
        let (groups, rest) = bytes.split_at(bytes.len() / 64 * 64);
        let after = self.after_whole(value, groups);
        self.after_rest(after, rest)
    }

    /// The value after a last block of fewer than sixteen bytes, or none.
    pub(crate) fn after_short(&self, value: [u64; 5], last: &[u8]) -> [u64; 5]
        requires short { length last.now < 16 }
        requires below { (k : ℕ) → slice_index value k < 2 ^ 29 }
        ensures value { value_of result % prime
            ≡ accumulated self.now.r (message_block last.now) (value_of value) (div_ceil (length last.now) 16) % prime }
        ensures below { (k : ℕ) → slice_index result k < 2 ^ 29 }
    {
        if last.is_empty() {
            return value;
        }
        self.after_blocks(value, &marked(last), 1, 0)
    }
}
