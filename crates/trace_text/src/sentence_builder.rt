//! A line of words, made one word after another.

ghost use Rattle.std.specs.Prelude.{◌≡◌, ◌∷◌, ◌++◌, [], codes, IfOk, OnOk};
ghost use Rattle.std.specs.Fmt.{decimal};
ghost use Rattle.trace_text.specs.Sentences.{with_words};

use kc_base::Bytes;
use std::alloc::{AllocError, Global};
use std::marker::Model;

/// The words of a line so far, with a blank between each two.
#[derive(Drop)]
pub(crate) struct SentenceBuilder {
    alloc: Global,
    text: Bytes,
}

impl Model for SentenceBuilder {
    ghost use Rattle.std.specs.Prelude.{List, ℕ};

    ghost Value = { List ℕ };

    ghost view = { λ line. line.text };
}

impl SentenceBuilder {
    /// The first word.
    pub(crate) fn new(alloc: Global, first: &[u8]) -> Result<SentenceBuilder, AllocError>
        ensures { IfOk result (λ line. line ≡ first.now) }
    {
        Ok(SentenceBuilder {
            alloc,
            text: Bytes::copy_of(alloc, first)?,
        })
    }

    /// What the line takes its memory from.
    pub(crate) fn alloc(&self) -> Global {
        self.alloc
    }

    /// Adds a word.
    pub(crate) fn word(&mut self, word: &[u8]) -> Result<(), AllocError>
        ensures { OnOk result (self.new ≡ with_words self.old (word.now ∷ [])) }
    {
        self.text.push(b' ')?;
        self.text.append(word)
    }

    /// Adds a number in digits.
    pub(crate) fn number(&mut self, number: u64) -> Result<(), AllocError>
        ensures { OnOk result (self.new ≡ with_words self.old (decimal number ∷ [])) }
    {
        let digits = number.to_string(self.alloc)?;
        self.word(digits.as_bytes())
    }

    /// Adds a word and a number.
    pub(crate) fn numbered(&mut self, word: &[u8], number: u64) -> Result<(), AllocError>
        ensures { OnOk result (self.new ≡ with_words self.old (word.now ∷ decimal number ∷ [])) }
    {
        self.word(word)?;
        self.number(number)
    }

    /// Adds a caller and the word of its call.
    pub(crate) fn call(&mut self, caller: u32, call: &[u8]) -> Result<(), AllocError>
        ensures { OnOk result (self.new ≡ with_words self.old (decimal caller ∷ call.now ∷ [])) }
    {
        self.number(u64::from(caller))?;
        self.word(call)
    }

    /// Ends the line.
    pub(crate) fn end(self) -> Result<Bytes, AllocError>
        ensures { IfOk result (λ text. text ≡ self ++ codes "\n") }
    {
        let mut text = self.text;
        text.push(b'\n')?;
        Ok(text)
    }
}
