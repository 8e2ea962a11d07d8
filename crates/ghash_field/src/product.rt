//! The product of the field.

ghost use Rattle.std.specs.Prelude.{◌≡◌, ◌<◌, ◌^◌, ◌==◌, ℕ, bit_xor, if◌then◌else◌};
ghost use Rattle.std_defs.specs.GhashField.{polynomial_of, product, IsCongruent, field_one, field_product};

use crate::multiples::halved;

/// The product of two blocks, given by their numbers (NIST SP 800-38D, 6.3).
pub fn multiply(x: u128, y: u128) -> u128
    ensures product { result ≡ field_product x y }

    // It is the block that is congruent to the product of the polynomials, modulo x^128 + x^7 + x^2 + x + 1, and the
    // only one.
    ensures congruent { IsCongruent (product (polynomial_of x) (polynomial_of y)) (polynomial_of result) }
    ensures only { (r : ℕ) → r < 2 ^ 128 → IsCongruent (product (polynomial_of x) (polynomial_of y)) (polynomial_of r) → r ≡ result }

    // The laws of a field's product.
    ensures commutes { result ≡ field_product y x }
    ensures associates { (z : ℕ) → z < 2 ^ 128 → field_product result z ≡ field_product x (field_product y z) }
    ensures distributes { (z : ℕ) → z < 2 ^ 128 → field_product x (bit_xor y z) ≡ bit_xor result (field_product x z) }
    ensures one { x ≡ field_one → result ≡ y }
{
    shift_and_fold(x, y)
}

/// The block where the bit is 1, and zeros where it is 0, by a product. A compiler may make a branch of it.
fn times_bit(bit: u128, v: u128) -> u128
    requires { bit < 2 }
    ensures { result ≡ (if bit == 1 then v else 0) }
{
    bit * v
}

/// The product, bit by bit: the sum of `y` times x^i for each bit i of `x`.
#[tactic(auto, using(crate::proofs::ShiftAndFold::shift_and_fold))]
fn shift_and_fold(x: u128, y: u128) -> u128
    ensures { result ≡ field_product x y }
{
    let mut z = 0u128;
    let mut v = y;
    for i in 0..128u32 {
        z ^= times_bit((x >> (127 - i)) & 1, v);
        v = halved(v);
    }
    z
}
