//! A script's lines out of a source, each before more is read.

ghost use Rattle.std.specs.Prelude.{◌≡◌, ◌<◌, ◌≤◌, ◌⊎◌, List, ℕ, [], Some, true, false, length, vec_len, Contains, MatchBool, IfSome, IfOk, OnOk, IfErr, IsErrOf};
ghost use Rattle.kc_base.specs.Streams.{Rose};
ghost use Rattle.script_text.specs.NextLine.{StandsAt, ReadsPiece, FindsNext};
ghost use Rattle.script_text.specs.LineCutter.{IsPending, CutsNext, CutsLast};
ghost use Rattle.script_text.specs.Sizes.{IsShortLine};

use crate::commands::Line;
use crate::cutter::LineCutter;
use kc_base::{InputError, ReadAnswer, Source};
use std::alloc::{AllocError, Global};
use std::marker::Model;

/// The most bytes that are read at once.
pub const MAX_PIECE: usize = 65_536;

/// Reads a script line by line. It reads on only where no whole line is left of what was read.
#[derive(Drop)]
pub struct LineReader {
    cutter: LineCutter,
    buffer: Vec<u8>,
    // how many bytes may still come
    room: usize,
    ended: bool,
}

impl Model for LineReader {
    ghost use Rattle.std.specs.Prelude.{◌≡◌, vec_len};
    ghost use Rattle.script_text.specs.NextLine.{Place};

    ghost Value = { Place };

    ghost view = { λ r. record { kept = r.cutter; room = r.room; ended = r.ended } };

    ghost invariant = { λ r. vec_len r.buffer ≡ 65536 };
}

// A buffer. Its length is a parameter, so that no proof counts it out.
fn zeros(alloc: Global, count: usize) -> Result<Vec<u8>, AllocError>
    ensures { IfOk result (λ buffer. vec_len buffer ≡ count) }
{
    vec![in alloc; 0u8; count]
}

impl LineReader {
    /// Nothing was read yet, and at most `limit` bytes may come. It takes memory for one read of 65,536 bytes, and
    /// fails where there is none.
    pub fn new(alloc: Global, limit: usize) -> Result<LineReader, AllocError>
        ensures { IfOk result (λ reader. reader ≡ record { kept = record { begun = Some []; unseen = [] }; room = limit; ended = false }) }
    {
        Ok(LineReader {
            cutter: LineCutter::new(alloc),
            buffer: zeros(alloc, MAX_PIECE)?,
            room: limit,
            ended: false,
        })
    }

    fn has_ended(&self) -> bool
        ensures { result ≡ self.now.ended }
    {
        self.ended
    }

    /// Whether a whole line is left of what was read.
    pub fn has_line(&self) -> bool
        ensures { (pending : List ℕ) → IsPending pending self.now.kept → MatchBool result (Contains pending 10) (Contains pending 10 → ⊥) }
    {
        self.cutter.has_line()
    }

    // The next whole line of what was read.
    fn cut_next(&mut self) -> Result<Option<Line>, InputError>
        ensures line { IfOk result (CutsNext self.old.kept self.new.kept) }
        ensures room { self.new.room ≡ self.old.room }
        ensures ended { self.new.ended ≡ self.old.ended }
        ensures short { IfOk result (λ answer. IfSome answer IsShortLine) }
        ensures memory { IfErr result (λ e. e ≡ InputError.NoMemory) }
    {
        match self.cutter.next() {
            Ok(answer) => Ok(answer),
            Err(_) => Err(InputError::NoMemory),
        }
    }

    // The last line, which no line feed ends.
    fn cut_last(&mut self) -> Result<Option<Line>, InputError>
        ensures line { IfOk result (CutsLast self.old.kept self.new.kept) }
        ensures room { self.new.room ≡ self.old.room }
        ensures ended { self.new.ended ≡ self.old.ended }
        ensures short { IfOk result (λ answer. IfSome answer IsShortLine) }
        ensures memory { IfErr result (λ e. e ≡ InputError.NoMemory) }
    {
        match self.cutter.last() {
            Ok(answer) => Ok(answer),
            Err(_) => Err(InputError::NoMemory),
        }
    }

    // Reads once.
    fn fill<S: Source>(&mut self, src: &mut S) -> Result<(), InputError>
        requires { self.old.ended ≡ false }
        ensures piece { ReadsPiece self.old self.new (S.left src.old) (S.left src.new) result }
        ensures on { OnOk result ((self.new.ended ≡ true) ⊎ (self.new.room < self.old.room)) }
        ensures later { S.faults src.old ≤ S.faults src.new }
        ensures cause { IsErrOf result InputError.Failed → Rose (S.faults src.old) (S.faults src.new) }
    {
        match src.read(&mut self.buffer) {
            ReadAnswer::Got(count) => {
                if count > self.room {
                    return Err(InputError::TooLong);
                }
                self.room -= count;
                match self.cutter.feed(&self.buffer[..count]) {
                    Ok(()) => Ok(()),
                    Err(_) => Err(InputError::NoMemory),
                }
            }
            ReadAnswer::Ended => {
                self.ended = true;
                Ok(())
            }
            ReadAnswer::Failed => Err(InputError::Failed),
        }
    }

    /// The next line, or `None` at the end of the script. It reads only where no whole line is left, and hands out the
    /// rest without a line feed where the source has ended. `Failed` comes where the source failed, and each whole line
    /// was handed out before; `TooLong` exactly where it gave more bytes than may come; `NoMemory` where memory is
    /// wanting. After an error what is left isn't told.
    pub fn next<S: Source>(&mut self, src: &mut S) -> Result<Option<Line>, InputError>
        ensures line { (pending : List ℕ) → StandsAt pending self.old (S.left src.old)
            → FindsNext pending self.old self.new (S.left src.old) (S.left src.new) result }
        ensures short { IfOk result (λ answer. IfSome answer IsShortLine) }
        ensures later { S.faults src.old ≤ S.faults src.new }
        ensures cause { IsErrOf result InputError.Failed → Rose (S.faults src.old) (S.faults src.new) }
    {
        while !self.has_ended() {
            if let Some(line) = self.cut_next()? {
                return Ok(Some(line));
            }
            self.fill(src)?;
        }
        self.cut_last()
    }
}
