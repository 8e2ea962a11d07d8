//! Round keys in vectors.

ghost use Rattle.std.specs.Prelude.{◌≡◌, ◌<◌};
ghost use Rattle.aes_block.specs.KeyBlock.{key_block, sixty_words};
ghost use Rattle.aes_ni.specs.RoundKeys.{schedule_of, AreBlocks, AreBackKeys};

use instructions::aesimc;
use std::simd::prelude::*;

/// A round key.
#[derive(Clone, Copy)]
pub(crate) struct RoundKey {
    pub(crate) bytes: u8x16,
}

/// A round key of a schedule.
fn round_key(words: &[[u8; 4]; 60], round: usize) -> RoundKey
    requires { round < 15 }
    ensures { result.bytes ≡ key_block words.now round }
{
    let [a, b, c, d] = words[4 * round];
    let [e, f, g, h] = words[4 * round + 1];
    let [i, j, k, l] = words[4 * round + 2];
    let [m, n, o, p] = words[4 * round + 3];
    RoundKey {
        bytes: u8x16::from_array([a, b, c, d, e, f, g, h, i, j, k, l, m, n, o, p]),
    }
}

/// The round keys of a schedule.
pub(crate) fn round_keys(words: &[[u8; 4]; 60]) -> [RoundKey; 15]
    ensures schedule { schedule_of result ≡ sixty_words words.now }
    ensures blocks { AreBlocks result }
{
    let mut keys = [RoundKey {
        bytes: u8x16::splat(0),
    }; 15];
    for round in 0..15usize {
        keys[round] = round_key(words, round);
    }
    keys
}

/// The round keys of the equivalent inverse cipher (FIPS 197, 5.3.5), which adds the first and the last as they were.
pub(crate) fn back_keys(keys: &[RoundKey; 15]) -> [RoundKey; 15]
    ensures { AreBackKeys keys.now result }
{
    let mut back = [RoundKey {
        bytes: u8x16::splat(0),
    }; 15];
    for round in 0..15usize {
        back[round] = RoundKey {
            bytes: aesimc(keys[round].bytes),
        };
    }
    back
}
