//! Lines out of pieces that come one after another.

ghost use Rattle.std.specs.Prelude.{◌≡◌, ◌||◌, ◌&&◌, not, length, nat_eq, nat_lt, ◌≤◌, ◌++◌, List, ℕ, [], ◌∷◌, Some, drop, true, false, vec_len, Contains, MatchBool, IfSome, IfOk, OnOk, OnErr};
ghost use Rattle.script_text.specs.LineCutter.{all_seen, IsPending, CutsNext, CutsLast};
ghost use Rattle.script_text.specs.Script.{line_of};
ghost use Rattle.script_text.specs.Sizes.{IsShortLine};

use crate::commands::Line;
use crate::line_parser::{MAX_LINE, read_line};
use crate::split::feed_place;
use std::alloc::{AllocError, Global};
use std::marker::Model;

/// Cuts a script into its lines as it comes, piece by piece. Of a line that has more than 65,536 bytes before its line
/// feed it keeps none.
#[derive(Drop)]
pub struct LineCutter {
    alloc: Global,
    bytes: Vec<u8>,
    // where the line begins that has begun
    at: usize,
    // up to where no line feed stands in it
    seen: usize,
    // it is too long already, and what stands up to there counts no more
    long: bool,
}

impl Model for LineCutter {
    ghost use Rattle.std.specs.Prelude.{◌≤◌, vec_len};
    ghost use Rattle.script_text.specs.LineCutter.{CutterState, kept_in};

    ghost Value = { CutterState };

    ghost view = { λ c. kept_in c.bytes.items c.at c.seen c.long };

    ghost invariant = { λ c. (c.at ≤ c.seen) × (c.seen ≤ vec_len c.bytes) };
}

// Takes so many bytes off the front. Where there are none, nothing is moved, since a line may come in many short
// pieces.
fn drop_front(bytes: &mut Vec<u8>, count: usize)
    requires { count ≤ vec_len bytes.old }
    ensures { bytes.new.items ≡ drop count bytes.old.items }
{
    if count == 0 {
        return;
    }
    let rest = bytes.len() - count;
    bytes.copy_within(count.., 0);
    bytes.truncate(rest);
}

// What a line says that a line feed ends.
fn read_whole(alloc: Global, long: bool, line: &[u8]) -> Result<Line, AllocError>
    ensures long { long ≡ true → IfOk result (λ said. said ≡ Line.Malformed) }
    ensures line { long ≡ false → IfOk result (λ said. said ≡ line_of line.now) }
    ensures short { IfOk result IsShortLine }
{
    if long {
        return Ok(Line::Malformed);
    }
    read_line(alloc, line)
}

// Whether nothing is left: no bytes, and none of a line that is too long.
fn is_nothing(long: bool, rest: &[u8]) -> bool
    ensures { result ≡ (not long && nat_eq (length rest.now) 0) }
{
    !long && rest.is_empty()
}

// Whether a line that has begun with so many bytes is too long, or was before.
fn is_too_long(long: bool, count: usize) -> bool
    ensures { result ≡ (long || nat_lt 65536 count) }
{
    long || count > MAX_LINE
}

impl LineCutter {
    /// Nothing has come yet. No memory is taken.
    pub fn new(alloc: Global) -> LineCutter
        ensures { result ≡ record { begun = Some []; unseen = [] } }
    {
        LineCutter {
            alloc,
            bytes: Vec::new(alloc),
            at: 0,
            seen: 0,
            long: false,
        }
    }

    /// Takes the next piece. Want of memory changes nothing.
    pub fn feed(&mut self, piece: &[u8]) -> Result<(), AllocError>
        ensures ok { OnOk result (self.new ≡ record { begun = self.old.begun; unseen = self.old.unseen ++ piece.now }) }
        ensures err { OnErr result (self.new ≡ self.old) }
    {
        drop_front(&mut self.bytes, self.at);
        self.seen -= self.at;
        self.at = 0;
        self.bytes.extend_from_slice(piece)
    }

    /// Whether a line feed ends a line of what is left.
    pub fn has_line(&self) -> bool
        ensures { (bytes : List ℕ) → IsPending bytes self.now → MatchBool result (Contains bytes 10) (Contains bytes 10 → ⊥) }
    {
        feed_place(&self.bytes[self.seen..]).is_some()
    }

    // No line feed stands in what has come.
    fn see_all(&mut self)
        ensures { self.new ≡ all_seen self.old }
    {
        let length = self.bytes.len();
        if is_too_long(self.long, length - self.at) {
            self.long = true;
            self.at = length;
            self.seen = length;
            return;
        }
        self.seen = length;
    }

    /// The next line that a line feed ends, or `None` exactly where none is left. It looks for a line feed in no byte
    /// twice. Want of memory changes nothing.
    pub fn next(&mut self) -> Result<Option<Line>, AllocError>
        ensures line { IfOk result (CutsNext self.old self.new) }
        ensures short { IfOk result (λ answer. IfSome answer IsShortLine) }
        ensures err { OnErr result (self.new ≡ self.old) }
    {
        let Some(place) = feed_place(&self.bytes[self.seen..]) else {
            self.see_all();
            return Ok(None);
        };
        let end = self.seen + place + 1;
        let said = read_whole(self.alloc, self.long, &self.bytes[self.at..end])?;
        self.at = end;
        self.seen = end;
        self.long = false;
        Ok(Some(said))
    }

    /// What is left where the input ends, as a line, or `None` exactly where no byte is left. Want of memory changes
    /// nothing.
    pub fn last(&mut self) -> Result<Option<Line>, AllocError>
        ensures line { IfOk result (CutsLast self.old self.new) }
        ensures short { IfOk result (λ answer. IfSome answer IsShortLine) }
        ensures err { OnErr result (self.new ≡ self.old) }
    {
        let rest = &self.bytes[self.at..];
        if is_nothing(self.long, rest) {
            return Ok(None);
        }
        let said = read_whole(self.alloc, self.long, rest)?;
        let end = self.bytes.len();
        self.at = end;
        self.seen = end;
        self.long = false;
        Ok(Some(said))
    }
}
