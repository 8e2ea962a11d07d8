//! Tweaks: blocks of the field of 2^128 elements (5.2).

ghost use Rattle.std.specs.Prelude.{◌≡◌, ◌<◌, ◌≤◌, ℕ, [], length, map, slice_index_or};
ghost use Rattle.std.specs.List.{range_with_len};
ghost use Rattle.std_defs.specs.Xts.{times_alpha, times_alpha_power};

use std::marker::Model;

/// The block T of one place of a data unit, in two halves of its bits. Contracts see its sixteen bytes.
#[derive(Drop)]
pub(crate) struct Tweak {
    low: u64,
    high: u64,
}

impl Model for Tweak {
    ghost use Rattle.std.specs.Prelude.{ℕ, List, ◌++◌};
    ghost use Rattle.std.specs.Int.{to_le_bytes, w64};

    ghost Value = { List ℕ };

    ghost view = { λ tweak. to_le_bytes w64 tweak.low ++ to_le_bytes w64 tweak.high };
}

impl Tweak {
    /// The tweak of sixteen bytes, of which the first is the lowest.
    pub(crate) fn from_bytes(bytes: &[u8]) -> Tweak
        requires { length bytes.now ≡ 16 }
        ensures { result ≡ bytes.now }
    {
        let mut low = [0u8; 8];
        low.copy_from_slice(&bytes[..8]);
        let mut high = [0u8; 8];
        high.copy_from_slice(&bytes[8..]);
        Tweak {
            low: u64::from_le_bytes(low),
            high: u64::from_le_bytes(high),
        }
    }

    /// Its bytes.
    #[inline(always)]
    pub(crate) fn block(&self) -> [u8; 16]
        ensures { result ≡ self.now }
    {
        let mut block = [0u8; 16];
        block[..8].copy_from_slice(&self.low.to_le_bytes());
        block[8..].copy_from_slice(&self.high.to_le_bytes());
        block
    }

    /// The tweak of the next place: a bit that falls out at the top is folded into the lowest byte.
    #[inline(always)]
    pub(crate) fn next(&self) -> Tweak
        ensures { result ≡ times_alpha self.now }
    {
        Tweak {
            low: (self.low << 1) ^ (0x87 * (self.high >> 63)),
            high: (self.high << 1) ^ (self.low >> 63),
        }
    }

    /// The blocks of this place and of the seven after it. The tweak becomes that of the place behind them.
    #[inline(always)]
    pub(crate) fn take_eight(&mut self) -> [[u8; 16]; 8]
        ensures blocks { result ≡ map (times_alpha_power self.old) (range_with_len 0 8) }
        ensures tweak { self.new ≡ times_alpha_power self.old 8 }
    {
        let mut eight = [[0u8; 16]; 8];
        for j in 0..8usize {
            eight[j] = self.block();
            *self = self.next();
        }
        eight
    }

    /// The blocks of this place and of those after it, `count` in all, and blocks of no meaning behind them. The tweak
    /// becomes that of the place behind these.
    #[inline(always)]
    pub(crate) fn take_some(&mut self, count: usize) -> [[u8; 16]; 8]
        requires { count ≤ 8 }
        ensures blocks { (j : ℕ) → j < count → slice_index_or result j [] ≡ times_alpha_power self.old j }
        ensures tweak { self.new ≡ times_alpha_power self.old count }
    {
        let mut some = [[0u8; 16]; 8];
        for j in 0..count {
            some[j] = self.block();
            *self = self.next();
        }
        some
    }
}
