//! Eight vectors, transposed.

ghost use Rattle.std.specs.Prelude.{◌≡◌, ◌+◌, [], ◌∷◌, ◌++◌, map};
ghost use Rattle.std.specs.List.{range_with_len};
ghost use Rattle.chacha_lanes.specs.Rows.{in_lane};

use std::simd::prelude::*;

/// The first two words of each half of two vectors, in turn.
const LOW_WORDS: [usize; 8] = [0, 8, 1, 9, 4, 12, 5, 13];

const HIGH_WORDS: [usize; 8] = [2, 10, 3, 11, 6, 14, 7, 15];

/// The first pair of words of each half of two vectors.
const LOW_PAIRS: [usize; 8] = [0, 1, 8, 9, 4, 5, 12, 13];

const HIGH_PAIRS: [usize; 8] = [2, 3, 10, 11, 6, 7, 14, 15];

/// The first halves of two vectors.
const LOW_HALVES: [usize; 8] = [0, 1, 2, 3, 8, 9, 10, 11];

const HIGH_HALVES: [usize; 8] = [4, 5, 6, 7, 12, 13, 14, 15];

/// Each half of four vectors as a matrix of four by four words, transposed.
#[inline(always)]
fn crossed(a: u32x8, b: u32x8, c: u32x8, d: u32x8) -> [u32x8; 4]
    ensures { result ≡ map (λ k. in_lane (a ∷ b ∷ c ∷ d ∷ []) k ++ in_lane (a ∷ b ∷ c ∷ d ∷ []) (k + 4)) (range_with_len 0 4) }
{
    let low_first = a.shuffle(b, LOW_WORDS);
    let high_first = a.shuffle(b, HIGH_WORDS);
    let low_second = c.shuffle(d, LOW_WORDS);
    let high_second = c.shuffle(d, HIGH_WORDS);
    [
        low_first.shuffle(low_second, LOW_PAIRS),
        low_first.shuffle(low_second, HIGH_PAIRS),
        high_first.shuffle(high_second, LOW_PAIRS),
        high_first.shuffle(high_second, HIGH_PAIRS),
    ]
}

/// Eight vectors as a matrix, transposed.
#[inline(always)]
pub(crate) fn transposed(
    a: u32x8,
    b: u32x8,
    c: u32x8,
    d: u32x8,
    e: u32x8,
    f: u32x8,
    g: u32x8,
    h: u32x8,
) -> [u32x8; 8]
    ensures { result ≡ map (in_lane (a ∷ b ∷ c ∷ d ∷ e ∷ f ∷ g ∷ h ∷ [])) (range_with_len 0 8) }
{
    let first = crossed(a, b, c, d);
    let second = crossed(e, f, g, h);
    [
        first[0].shuffle(second[0], LOW_HALVES),
        first[1].shuffle(second[1], LOW_HALVES),
        first[2].shuffle(second[2], LOW_HALVES),
        first[3].shuffle(second[3], LOW_HALVES),
        first[0].shuffle(second[0], HIGH_HALVES),
        first[1].shuffle(second[1], HIGH_HALVES),
        first[2].shuffle(second[2], HIGH_HALVES),
        first[3].shuffle(second[3], HIGH_HALVES),
    ]
}
