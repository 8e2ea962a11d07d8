//! One block, each of whose words is computed before its round.

ghost use Rattle.std.specs.Prelude.{◌≡◌, ℕ, ◌+◌, ◌*◌, ◌<◌, ◌≤◌, List, length, slice_index};
ghost use Rattle.sha2.specs.Sha256.{small_sigma0, small_sigma1, next_word, word_at, compress, rounds, schedule};
ghost use Rattle.sha_lanes.specs.Words.{IsRoundsAt};

use crate::constants::ROUND_CONSTANTS;
use crate::rounds::{added, round};

/// The word at byte `i` (5.2.1).
#[inline(always)]
pub(crate) fn word_at(bytes: &[u8], i: usize) -> u32
    requires { i + 4 ≤ length bytes.now }
    ensures { result ≡ word_at bytes.now i }
{
    u32::from_be_bytes([bytes[i], bytes[i + 1], bytes[i + 2], bytes[i + 3]])
}

/// The lower case σ 0 (4.1.2).
#[inline(always)]
fn lower_sigma0(x: u32) -> u32
    ensures { result ≡ small_sigma0 x }
{
    x.rotate_right(7) ^ x.rotate_right(18) ^ (x >> 3)
}

/// The lower case σ 1 (4.1.2).
#[inline(always)]
fn lower_sigma1(x: u32) -> u32
    ensures { result ≡ small_sigma1 x }
{
    x.rotate_right(17) ^ x.rotate_right(19) ^ (x >> 10)
}

/// W `t` from the words before it (6.2.2, step 1).
#[inline(always)]
fn next_word(words: &[u32; 64], t: usize) -> u32
    requires from { 16 ≤ t }
    requires to { t < 64 }
    ensures { result ≡ next_word words.now t }
{
    lower_sigma1(words[t - 2])
        .wrapping_add(words[t - 7])
        .wrapping_add(lower_sigma0(words[t - 15]))
        .wrapping_add(words[t - 16])
}

/// Round `t`, with its word, which is kept for the words behind it.
#[inline(always)]
fn step(words: &mut [u32; 64], v: [u32; 8], t: usize, word: u32) -> [u32; 8]
    requires { t < 64 }
    ensures { (h b : List ℕ) → word ≡ slice_index (schedule b 48) t → IsRoundsAt h b words.old v t
        → IsRoundsAt h b words.new result (t + 1) }
{
    words[t] = word;
    round(v, word.wrapping_add(ROUND_CONSTANTS[t]))
}

/// One of the first 16 rounds, whose words are the block's.
#[inline(always)]
fn first_step(words: &mut [u32; 64], block: &[u8], v: [u32; 8], t: usize) -> [u32; 8]
    requires block { length block.now ≡ 64 }
    requires round { t < 16 }
    ensures { (h : List ℕ) → IsRoundsAt h block.now words.old v t → IsRoundsAt h block.now words.new result (t + 1) }
{
    step(words, v, t, word_at(block, 4 * t))
}

/// One of the others.
#[inline(always)]
fn next_step(words: &mut [u32; 64], v: [u32; 8], t: usize) -> [u32; 8]
    requires from { 16 ≤ t }
    requires to { t < 64 }
    ensures { (h b : List ℕ) → IsRoundsAt h b words.old v t → IsRoundsAt h b words.new result (t + 1) }
{
    let word = next_word(words, t);
    step(words, v, t, word)
}

/// Eight of the first rounds, from `t` on.
#[inline(always)]
fn eight_first_steps(words: &mut [u32; 64], block: &[u8], v: [u32; 8], t: usize) -> [u32; 8]
    requires block { length block.now ≡ 64 }
    requires rounds { t + 8 ≤ 16 }
    ensures { (h : List ℕ) → IsRoundsAt h block.now words.old v t → IsRoundsAt h block.now words.new result (t + 8) }
{
    let v = first_step(words, block, v, t);
    let v = first_step(words, block, v, t + 1);
    let v = first_step(words, block, v, t + 2);
    let v = first_step(words, block, v, t + 3);
    let v = first_step(words, block, v, t + 4);
    let v = first_step(words, block, v, t + 5);
    let v = first_step(words, block, v, t + 6);
    first_step(words, block, v, t + 7)
}

/// Eight of the others, after which each working variable is in its place again.
#[inline(always)]
fn eight_next_steps(words: &mut [u32; 64], v: [u32; 8], t: usize) -> [u32; 8]
    requires from { 16 ≤ t }
    requires to { t + 8 ≤ 64 }
    ensures { (h b : List ℕ) → IsRoundsAt h b words.old v t → IsRoundsAt h b words.new result (t + 8) }
{
    let v = next_step(words, v, t);
    let v = next_step(words, v, t + 1);
    let v = next_step(words, v, t + 2);
    let v = next_step(words, v, t + 3);
    let v = next_step(words, v, t + 4);
    let v = next_step(words, v, t + 5);
    let v = next_step(words, v, t + 6);
    next_step(words, v, t + 7)
}

/// The working variables behind all rounds of a block.
#[inline(always)]
fn all_steps(state: [u32; 8], block: &[u8]) -> [u32; 8]
    requires { length block.now ≡ 64 }
    ensures { result ≡ rounds state (schedule block.now 48) 64 }
{
    let mut words = [0u32; 64];
    let v = eight_first_steps(&mut words, block, state, 0);
    let mut v = eight_first_steps(&mut words, block, v, 8);
    for turn in 2..8usize {
        let next = eight_next_steps(&mut words, v, 8 * turn);
        v = next;
    }
    v
}

/// The hash value behind a block (6.2.2).
#[tactic(auto, unfolding(sha2::specs::Sha256::compress))]
pub fn compressed(state: [u32; 8], block: &[u8]) -> [u32; 8]
    requires { length block.now ≡ 64 }
    ensures { result ≡ compress state block.now }
{
    let v = all_steps(state, block);
    added(state, v)
}
