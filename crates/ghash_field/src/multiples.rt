//! The products of the half bytes with a block.

ghost use Rattle.std.specs.Prelude.{◌≡◌};
ghost use Rattle.std_defs.proofs.Multiples.{times_x};
ghost use Rattle.ghash_field.specs.ByteRows.{row_of};

/// The digits 11100001 and 120 zeros (NIST SP 800-38D, 6.3: R), by which a 1 that falls out on the right is folded
/// back.
const FOLD: u128 = 0xe1 << 120;

/// The block times x.
pub(crate) fn halved(v: u128) -> u128
    ensures { result ≡ times_x v }
{
    (v >> 1) ^ ((v & 1) * FOLD)
}

/// The products of all half bytes at a place, from that of 8.
pub(crate) fn multiples_of(eight: u128) -> [u128; 16]
    ensures { result ≡ row_of eight }
{
    let a = eight;
    let b = halved(a);
    let c = halved(b);
    let d = halved(c);
    let ab = a ^ b;
    let ac = a ^ c;
    let bc = b ^ c;
    let abc = ab ^ c;
    [
        0,
        d,
        c,
        c ^ d,
        b,
        b ^ d,
        bc,
        bc ^ d,
        a,
        a ^ d,
        ac,
        ac ^ d,
        ab,
        ab ^ d,
        abc,
        abc ^ d,
    ]
}
