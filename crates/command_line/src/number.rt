//! Numbers as the command line writes them.

ghost use Rattle.std.specs.Prelude.{◌≡◌, ◌≤◌, IfSome, option_map};
ghost use Rattle.command_line.specs.CommandLine.{number_or, from_one};
ghost use Rattle.command_line.specs.Number.{number_up_to};
ghost use Rattle.command_line.specs.Steps.{has_plain_start};

// The text begins as a number with no sign and no leading zero does.
fn starts_plainly(text: &str) -> bool
    ensures { result ≡ has_plain_start text.now }
{
    let bytes = text.as_bytes();
    !bytes.is_empty() && bytes[0] != b'+' && (bytes.len() == 1 || bytes[0] != b'0')
}

// The number that a text writes, if it is at most `most`.
pub(crate) fn number_at_most(text: &str, most: u64) -> Option<u64>
    ensures value { result ≡ number_up_to most text.now }
    ensures bound { IfSome result (λ n. n ≤ most) }
{
    let is_plain = starts_plainly(text);
    match text.parse::<u64>() {
        Ok(n) => if is_plain && n <= most { Some(n) } else { None },
        Err(_) => None,
    }
}

// The number that a text writes, if it is at least 1 and at most `most`.
pub(crate) fn number_from_one(text: &str, most: u32) -> Option<u32>
    ensures value { result ≡ from_one (number_up_to most text.now) }
    ensures bound { IfSome result (λ n. (1 ≤ n) × (n ≤ most)) }
{
    match number_at_most(text, most as u64) {
        Some(n) => if n == 0 { None } else { Some(n as u32) },
        None => None,
    }
}

// An option's number, or its default.
pub(crate) fn number_given(default: u32, most: u32, text: Option<&str>) -> Option<u32>
    requires { default ≤ most }
    ensures value { result ≡ number_or default most (option_map (λ s. s.now) text.entry) }
    ensures bound { IfSome result (λ n. n ≤ most) }
{
    match text {
        Some(text) => match number_at_most(text, most as u64) {
            Some(n) => Some(n as u32),
            None => None,
        },
        None => Some(default),
    }
}
