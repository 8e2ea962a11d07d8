//! A key schedule in words of 32 bits, and the cipher under it.

ghost use Rattle.std.specs.Prelude.{◌≡◌, map};
ghost use Rattle.std_defs.specs.Aes.{seal, unseal};
ghost use Rattle.aes_block.specs.Schedule.{IsSchedule, is_schedule-prop};
ghost use Rattle.aes_table.specs.Words.{bytes_of, AreMixedBack};

use crate::columns::word_mixed_back;
use crate::state::{
    block_of, columns_of, key_added, sealed_last, sealed_round, unsealed_first, unsealed_round,
};

/// The words of the key schedule of a key, which has that many rounds, and the words after InvMixColumns.
#[derive(Drop)]
pub(crate) struct TableSchedule {
    pub(crate) rounds: usize,
    pub(crate) words: [u32; 60],
    pub(crate) back_words: [u32; 60],
    ghost scheduled: { IsSchedule rounds (map bytes_of words) } by { is_schedule-prop rounds (map bytes_of words) },
    ghost back: { AreMixedBack words back_words },
}

/// A word as a number.
fn number_of(word: &[u8; 4]) -> u32
    ensures { bytes_of result ≡ word.now }
{
    u32::from_le_bytes(*word)
}

/// Words as numbers.
pub(crate) fn numbers_of(words: &[[u8; 4]; 60]) -> [u32; 60]
    ensures { map bytes_of result ≡ words.now }
{
    let mut numbers = [0; 60];
    for n in 0..60usize {
        numbers[n] = number_of(&words[n]);
    }
    numbers
}

/// Each word after InvMixColumns.
pub(crate) fn mixed_back_all(words: &[u32; 60]) -> [u32; 60]
    ensures { AreMixedBack words.now result }
{
    let mut back = [0; 60];
    for n in 0..60usize {
        back[n] = word_mixed_back(words[n]);
    }
    back
}

impl TableSchedule {
    ghost use Rattle.aes_table.specs.Key.{table_key};

    /// Seals a block. The rounds are an even number, and two go in a turn: so the columns need not be moved back to the
    /// registers that a round took them from.
    #[inline(always)]
    pub(crate) fn seal(&self, b: &[u8; 16]) -> [u8; 16]
        ensures { result ≡ seal (table_key self.now) b.now }
    {
        let mut state = sealed_round(key_added(columns_of(b), &self.words, 0), &self.words, 1);
        for pair in 1..self.rounds / 2 {
            let between = sealed_round(state, &self.words, 2 * pair);
            state = sealed_round(between, &self.words, 2 * pair + 1);
        }
        block_of(sealed_last(state, &self.words, self.rounds))
    }

    /// Unseals a block. InvMixColumns goes over a sum, so that a round may add words which went through it.
    #[inline(always)]
    pub(crate) fn unseal(&self, b: &[u8; 16]) -> [u8; 16]
        ensures { result ≡ unseal (table_key self.now) b.now }
    {
        let mut state = key_added(columns_of(b), &self.words, self.rounds);
        for round in (1..self.rounds).rev() {
            state = unsealed_round(state, &self.back_words, round);
        }
        block_of(unsealed_first(state, &self.words))
    }
}
