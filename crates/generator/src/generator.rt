//! The generator.

ghost use Rattle.std.specs.Prelude.{◌≡◌, length};
ghost use Rattle.rand_xoshiro.specs.SplitMix64.{mix_u64};
ghost use Rattle.generator.specs.Draws.{drawn};

use rand_core::SeedableRng;
use rand_core::utils::NextWord;
use rand_xoshiro::SplitMix64;
use std::marker::Model;

/// SplitMix64, seen as its state of 64 bits.
#[derive(Debug, Drop)]
pub struct Generator {
    words: SplitMix64,
}

impl Model for Generator {
    ghost use Rattle.std.specs.Prelude.{ℕ};

    ghost Value = { ℕ };

    ghost view = { λ generator. generator.words };
}

impl Generator {
    /// The generator whose state is the seed.
    pub fn new(seed: u64) -> Generator
        ensures { result ≡ seed }
    {
        Generator {
            words: SplitMix64::seed_from_u64(seed),
        }
    }

    /// The next draw.
    pub fn next_u64(&mut self) -> u64
        ensures { (result, self.new) ≡ mix_u64 self.old }
    {
        self.words.next_word()
    }

    /// Overwrites the bytes with draws, each with its high byte first. Where the length is no multiple of 8, what the
    /// last draw has over is dropped.
    pub fn fill(&mut self, bytes: &mut [u8])
        ensures { (bytes.new, self.new) ≡ drawn self.old (length bytes.old) }
    {
        let whole = bytes.len() / 8;
        for i in 0..whole {
            let word = self.next_u64();
            bytes[8 * i..8 * i + 8].copy_from_slice(&word.to_be_bytes());
        }
        let over = bytes.len() % 8;
        if over > 0 {
            let last = self.next_u64().to_be_bytes();
            bytes[8 * whole..].copy_from_slice(&last[..over]);
        }
    }
}
