//! Columns of a state, times the matrices of MixColumns and InvMixColumns.

ghost use Rattle.std.specs.Prelude.{◌≡◌, ◌∷◌, [], map};
ghost use Rattle.std.specs.List.{range_with_len};
ghost use Rattle.std_defs.specs.Aes.{mul8, mixed_byte};

/// Twice a byte in the field (FIPS 197, 4.2).
fn double(a: u8) -> u8
    ensures { result ≡ mul8 2 a }
{
    if a < 0x80 {
        a << 1
    } else {
        ((a & 0x7f) << 1) ^ 0x1b
    }
}

/// A column, from its top, after MixColumns (5.1.3). Three times a byte is twice it and the byte, so a sum of two is
/// doubled.
pub fn mixed_column(a: u8, b: u8, c: u8, d: u8) -> [u8; 4]
    ensures { result ≡ map (mixed_byte (0x02 ∷ 0x03 ∷ 0x01 ∷ 0x01 ∷ []) (a ∷ b ∷ c ∷ d ∷ [])) (range_with_len 0 4) }
{
    let ab = a ^ b;
    let bc = b ^ c;
    let cd = c ^ d;
    let da = d ^ a;
    [
        double(ab) ^ b ^ cd,
        double(bc) ^ c ^ da,
        double(cd) ^ d ^ ab,
        double(da) ^ a ^ bc,
    ]
}

/// A column, from its top, after InvMixColumns (5.3.3): MixColumns of the column to which four times the sum of each
/// byte and the one two below it is added.
pub fn inverse_mixed_column(a: u8, b: u8, c: u8, d: u8) -> [u8; 4]
    ensures { result ≡ map (mixed_byte (0x0e ∷ 0x0b ∷ 0x0d ∷ 0x09 ∷ []) (a ∷ b ∷ c ∷ d ∷ [])) (range_with_len 0 4) }
{
    let u = double(double(a ^ c));
    let v = double(double(b ^ d));
    mixed_column(a ^ u, b ^ v, c ^ u, d ^ v)
}
