//! From which line of which client a request is.

ghost use Rattle.std.specs.Prelude.{◌≡◌, ◌∷◌, ◌++◌, ◌≤◌, length, drop};
ghost use Rattle.std.specs.Fmt.{decimal};
ghost use Rattle.reply_text.specs.Origins.{origin_word};

use itoa::write_digits;
use std::marker::Model;

/// A line of a script, and the client whose script it is: 0 for the first, or the only one.
#[derive(Clone, Copy, Debug, PartialEq, Eq)]
pub struct Origin {
    pub client: u32,
    pub line: u32,
}

/// The word of an origin, of at most 21 bytes.
#[derive(Drop)]
pub(crate) struct OriginWord {
    bytes: [u8; 21],
    start: usize,
}

impl Model for OriginWord {
    ghost use Rattle.std.specs.Prelude.{ℕ, ◌≤◌, List, drop};

    ghost Value = { List ℕ };

    ghost view = { λ w. drop w.start w.bytes };

    ghost invariant = { λ w. w.start ≤ 21 };
}

// Writes the line so that it ends with the bytes, and says where it begins.
fn put_line(line: u32, bytes: &mut [u8; 21]) -> usize
    ensures start { (11 ≤ result) × (result ≤ 21) }
    ensures word { drop result bytes.new ≡ decimal line }
{
    write_digits(u64::from(line), bytes, 21)
}

// Writes the client and a dot so that they end where the line begins, and says where they begin.
fn put_client(client: u32, bytes: &mut [u8; 21], line: usize) -> usize
    requires { (11 ≤ line) × (line ≤ 21) }
    ensures start { result ≤ line }
    ensures word { drop result bytes.new ≡ decimal client ++ 46 ∷ drop line bytes.old }
{
    bytes[line - 1] = b'.';
    write_digits(u64::from(client), bytes, line - 1)
}

impl OriginWord {
    /// The word of this origin.
    pub(crate) fn of(origin: Origin) -> OriginWord
        ensures { result ≡ origin_word origin }
    {
        let mut bytes = [0u8; 21];
        let mut start = put_line(origin.line, &mut bytes);
        if origin.client != 0 {
            start = put_client(origin.client, &mut bytes, start);
        }
        OriginWord { bytes, start }
    }

    pub(crate) fn as_slice(&self) -> &[u8]
        ensures { result.now ≡ self.now }
    {
        &self.bytes[self.start..]
    }
}
