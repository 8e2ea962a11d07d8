//! Which texts are names, with no limits, and how many levels a name has.
ghost use Rattle.std.specs.Prelude.{◌≡◌, ◌<◌, ◌≤◌, length, MatchOption, IfOk, IfErr};
ghost use Rattle.alg_names.specs.Name.{Tree, IsName, IsNoName, IsLongestBeginning, depth, is_word_byte};
ghost use Rattle.alg_names.specs.Reader.{Reading, lost, step};
ghost use Rattle.alg_names.specs.Scan.{Shows};

/// What stands in front of the next byte.
#[derive(Clone, Copy)]
enum Spot {
    Begins,
    InWord,
    Closed,
}

/// How far a text has been read: how many templates are open, and how many levels there are already.
#[derive(Clone, Copy)]
struct Scan {
    spot: Spot,
    unclosed: usize,
    levels: usize,
}

/// Whether a word may have the byte: an ASCII letter, a digit, `-` or `_`.
pub(crate) fn is_in_word(byte: u8) -> bool
    ensures { result ≡ is_word_byte byte }
{
    matches!(byte, b'a'..=b'z' | b'A'..=b'Z' | b'0'..=b'9' | b'-' | b'_')
}

/// The scan behind one more byte, if a name can go on so.
fn next(scan: Scan, byte: u8) -> Option<Scan>
    requires { scan.unclosed < 127 }
    ensures { (r : Reading) → Shows r scan → MatchOption result (step r byte ≡ lost) (Shows (step r byte)) }
{
    if is_in_word(byte) {
        if matches!(scan.spot, Spot::Closed) {
            return None;
        }
        return Some(Scan {
            spot: Spot::InWord,
            ..scan
        });
    }
    if matches!(scan.spot, Spot::Begins) {
        return None;
    }
    if byte == b'(' {
        if matches!(scan.spot, Spot::Closed) {
            return None;
        }
        return Some(Scan {
            spot: Spot::Begins,
            unclosed: scan.unclosed + 1,
            levels: scan.levels.max(scan.unclosed + 2),
        });
    }
    if scan.unclosed == 0 {
        return None;
    }
    match byte {
        b',' => Some(Scan {
            spot: Spot::Begins,
            ..scan
        }),
        b')' => Some(Scan {
            spot: Spot::Closed,
            unclosed: scan.unclosed - 1,
            ..scan
        }),
        _ => None,
    }
}

/// How many levels the text has, if it is a name; else how many of its bytes begin one.
pub(crate) fn levels_of(text: &[u8]) -> Result<usize, usize>
    requires { length text.now ≤ 127 }
    ensures name { IfOk result (λ n. (t : Tree) × IsName text.now t × (n ≡ depth t)) }
    ensures place { IfErr result (λ p. IsNoName text.now × IsLongestBeginning p text.now) }
{
    let mut scan = Scan {
        spot: Spot::Begins,
        unclosed: 0,
        levels: 1,
    };
    for (i, byte) in text.iter().enumerate() {
        match next(scan, *byte) {
            Some(further) => scan = further,
            None => return Err(i),
        }
    }
    if scan.unclosed == 0 && !matches!(scan.spot, Spot::Begins) {
        Ok(scan.levels)
    } else {
        Err(text.len())
    }
}
