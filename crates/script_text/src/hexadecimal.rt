//! Bytes out of hexadecimal digits. Neither loop stops before its end or branches, so that many digits are looked at at
//! once.

ghost use Rattle.std.specs.Prelude.{◌≡◌, ◌/◌, ◌%◌, ◌==◌, ◌&&◌, ℕ, IsTrue, length, Ok, Some};
ghost use Rattle.std.specs.List.{list_all};
ghost use Rattle.hex.specs.Hex.{decode_pairs, hex_digit_value, is_hex_digit, pair_value};

fn are_hex_digits(text: &[u8]) -> bool
    ensures { result ≡ list_all is_hex_digit text.now }
{
    text.iter().fold(true, |all, b| all & b.is_ascii_hexdigit())
}

/// Whether these are pairs of hexadecimal digits, in either case.
pub fn are_pairs(text: &[u8]) -> bool
    ensures { result ≡ (length text.now % 2 == 0 && list_all is_hex_digit text.now) }
{
    text.len() % 2 == 0 && are_hex_digits(text)
}

fn digit_value(digit: u8) -> u8
    requires { IsTrue (is_hex_digit digit) }
    ensures { hex_digit_value digit ≡ Some result }
{
    match digit {
        b'0'..=b'9' => digit - b'0',
        b'A'..=b'F' => digit - b'A' + 10,
        _ => digit - b'a' + 10,
    }
}

fn byte_of(high: u8, low: u8) -> u8
    requires high { IsTrue (is_hex_digit high) }
    requires low { IsTrue (is_hex_digit low) }
    ensures { (i : ℕ) → pair_value high low i ≡ Ok result }
{
    digit_value(high) * 16 + digit_value(low)
}

/// Writes the byte of each two digits.
pub fn write_bytes(digits: &[u8], bytes: &mut [u8])
    requires pairs { IsTrue (length digits.now % 2 == 0 && list_all is_hex_digit digits.now) }
    requires length { length bytes.old ≡ length digits.now / 2 }
    ensures { decode_pairs 0 digits.now ≡ Ok bytes.new }
{
    'bytes: for i in 0..bytes.len() {
        bytes[i] = byte_of(digits[2 * i], digits[2 * i + 1]);
    }
}
