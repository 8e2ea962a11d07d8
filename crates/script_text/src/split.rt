//! Where a line ends.

ghost use Rattle.std.specs.Prelude.{◌≡◌, ◌∷◌, [], ◌++◌, ◌<◌, ◌≤◌, length, take, drop, Contains, IfSome, MatchOption};
ghost use Rattle.script_text.specs.Lines.{lines_of};
ghost use Rattle.script_text.specs.LineCutter.{IsFirstFeed};
ghost use Rattle.script_text.specs.Whole.{WholeLinesStay, NoWholeLine};

use memchr::memchr;

/// Where the first line feed stands, or `None` where there is none.
pub fn feed_place(bytes: &[u8]) -> Option<usize>
    ensures { MatchOption result (Contains bytes.now 10 → ⊥) (IsFirstFeed bytes.now) }
{
    memchr(b'\n', bytes)
}

// How long the first line is, with its line feed.
pub(crate) fn line_len(bytes: &[u8]) -> usize
    requires { 0 < length bytes.now }
    ensures within { (0 < result) × (result ≤ length bytes.now) }
    ensures line { lines_of bytes.now ≡ take result bytes.now ∷ lines_of (drop result bytes.now) }
{
    match feed_place(bytes) {
        Some(place) => place + 1,
        None => bytes.len(),
    }
}

/// The first line, with the line feed that ends it where one does, and what stands behind it. `None` exactly where no
/// byte is left.
pub fn split_line(bytes: &[u8]) -> Option<(&[u8], &[u8])>
    ensures line { MatchOption result (bytes.now ≡ []) (λ cut. lines_of bytes.now ≡ cut.0.now ∷ lines_of cut.1.now) }
    ensures bytes { IfSome result (λ cut. (0 < length cut.0.now) × (bytes.now ≡ cut.0.now ++ cut.1.now)) }
{
    if bytes.is_empty() {
        return None;
    }
    Some(bytes.split_at(line_len(bytes)))
}

/// A law of the lines that a line feed ends: those of a front are the first of all.
pub fn whole_lines_stay()
    ensures stay { WholeLinesStay }
    ensures none { NoWholeLine }
{}
