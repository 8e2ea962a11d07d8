//! Round keys in vectors.

ghost use Rattle.std.specs.Prelude.{◌≡◌, ◌<◌, ◌++◌};
ghost use Rattle.aes_block.specs.KeyBlock.{key_block, sixty_words};
ghost use Rattle.aes_lanes.specs.RoundKeys.{schedule_of, AreTwice};

use crate::pairs::joined;
use std::simd::prelude::*;

/// A round key, for both blocks of a vector.
#[derive(Clone, Copy)]
pub(crate) struct RoundKey {
    pub(crate) twice: u8x32,
}

/// The bytes of a round key.
fn round_key(words: &[[u8; 4]; 60], round: usize) -> [u8; 16]
    requires { round < 15 }
    ensures { result ≡ key_block words.now round }
{
    let [a, b, c, d] = words[4 * round];
    let [e, f, g, h] = words[4 * round + 1];
    let [i, j, k, l] = words[4 * round + 2];
    let [m, n, o, p] = words[4 * round + 3];
    [a, b, c, d, e, f, g, h, i, j, k, l, m, n, o, p]
}

/// A round key of a schedule, in a vector.
fn round_key_twice(words: &[[u8; 4]; 60], round: usize) -> RoundKey
    requires { round < 15 }
    ensures { result.twice ≡ key_block words.now round ++ key_block words.now round }
{
    let key = round_key(words, round);
    RoundKey {
        twice: joined(key, key),
    }
}

/// The round keys of a schedule.
pub(crate) fn round_keys(words: &[[u8; 4]; 60]) -> [RoundKey; 15]
    ensures schedule { schedule_of result ≡ sixty_words words.now }
    ensures twice { AreTwice result }
{
    let mut keys = [RoundKey {
        twice: u8x32::splat(0),
    }; 15];
    for round in 0..15usize {
        keys[round] = round_key_twice(words, round);
    }
    keys
}
