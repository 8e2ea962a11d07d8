//! The tag of a message, whole or in parts.

ghost use Rattle.std.specs.Prelude.{◌≡◌, ◌+◌, ◌*◌, ◌/◌, ◌<◌, length, take, drop};
ghost use Rattle.std.specs.Int.{div_ceil};
ghost use Rattle.std_defs.specs.Gcm.{padded};
ghost use Rattle.std_defs.specs.Poly1305.{little_endian, accumulated, message_block, key_r, poly_tag, poly1305};

use crate::lanes::four_words;
use crate::powers::Powers;
use crate::sums::reduced;
use std::marker::Model;

/// Both halves of a one-time key as numbers: r, not yet clamped, and s (2.5.1).
fn key_halves(key: &[u8; 32]) -> (u128, u128)
    ensures first { result.0 ≡ little_endian (take 16 key.now) }
    ensures second { result.1 ≡ little_endian (take 16 (drop 16 key.now)) }
{
    let [a, b, c, d] = four_words(key, 0).to_array();
    (
        a as u128 + b as u128 * (1 << 64),
        c as u128 + d as u128 * (1 << 64),
    )
}

/// Poly1305 under a one-time key, on its way over a message. Contracts see the key and the accumulator, a number below
/// the prime (2.5.1).
#[derive(Drop)]
pub struct Poly1305 {
    key: [u8; 32],
    powers: Powers,
    limbs: [u64; 5],
}

impl Model for Poly1305 {
    ghost use Rattle.std.specs.Prelude.{◌≡◌, ℕ, ◌%◌, ◌^◌, ◌<◌, List, slice_index};
    ghost use Rattle.std_defs.specs.Poly1305.{prime, key_r};
    ghost use Rattle.poly1305.specs.Limbs.{value_of};

    ghost Value = { List ℕ × ℕ };

    ghost view = { λ p. (p.key, value_of p.limbs % prime) };

    ghost invariant = { λ p. (p.powers.r ≡ key_r p.key) × ((k : ℕ) → slice_index p.limbs k < 2 ^ 29) };
}

impl Poly1305 {
    /// Before the first byte of a message. The one-time key serves for this message alone.
    pub fn new(key: &[u8; 32]) -> Poly1305
        ensures { result ≡ (key.now, 0) }
    {
        let (r, _) = key_halves(key);
        Poly1305 {
            key: *key,
            powers: Powers::new(r),
            limbs: [0; 5],
        }
    }

    /// Takes bytes more, and zeros behind them to whole blocks of sixteen bytes: none where the bytes are whole blocks.
    pub fn add_padded(&mut self, bytes: &[u8])
        ensures { self.new
            ≡ (self.old.0, accumulated (key_r self.old.0) (message_block (padded bytes.now)) self.old.1 (length (padded bytes.now) / 16)) }
    {
        self.limbs = self.powers.after_padded(self.limbs, bytes);
    }

    /// The tag, after a last block of fewer than sixteen bytes, or none.
    pub fn finish(self, last: &[u8]) -> [u8; 16]
        requires { length last.now < 16 }
        ensures { result ≡ poly_tag self.0 (accumulated (key_r self.0) (message_block last.now) self.1 (div_ceil (length last.now) 16)) }
    {
        let limbs = self.powers.after_short(self.limbs, last);
        let (_, s) = key_halves(&self.key);
        reduced(limbs, s).to_le_bytes()
    }
}

/// The tag of a message under a one-time key (2.5).
pub fn message_tag(key: &[u8; 32], message: &[u8]) -> [u8; 16]
    ensures { result ≡ poly1305 key.now message.now }
{
    let (whole, last) = message.split_at(message.len() / 16 * 16);
    let mut tag = Poly1305::new(key);
    tag.add_padded(whole);
    tag.finish(last)
}
