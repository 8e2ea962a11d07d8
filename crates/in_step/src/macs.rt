//! The MACs of eight messages.

ghost use Rattle.std.specs.Prelude.{◌≡◌, ℕ, List, [], ◌+◌, ◌^◌, ◌<◌, ◌++◌, length, slice_index_or};
ghost use Rattle.std_defs.specs.Hmac.{hmac_under};
ghost use Rattle.in_step.specs.Pieces.{AreShort, piece};

use crate::digests::digests_in_step;
use hmac_sha::Mac;

/// The digests, as pieces.
fn as_pieces(digests: &[[u8; 32]; 8]) -> [&[u8]; 8]
    ensures pieces { (n : ℕ) → n < 8 → piece result n ≡ slice_index_or digests.now n [] }
    ensures size { (n : ℕ) → n < 8 → length (piece result n) ≡ 32 }
{
    [
        &digests[0],
        &digests[1],
        &digests[2],
        &digests[3],
        &digests[4],
        &digests[5],
        &digests[6],
        &digests[7],
    ]
}

/// Pieces of no bytes.
fn no_pieces<'a>() -> [&'a [u8]; 8]
    ensures { (n : ℕ) → n < 8 → piece result n ≡ [] }
{
    [&[], &[], &[], &[], &[], &[], &[], &[]]
}

/// The whole MACs, of 32 bytes, of eight messages: each is of the lane's two pieces as one message. These have fewer
/// than 2^63 bytes together. No memory is taken.
pub fn macs_in_step(mac: &Mac, firsts: &[&[u8]; 8], seconds: &[&[u8]; 8]) -> [[u8; 32]; 8]
    requires { AreShort firsts.now seconds.now }
    ensures { (n : ℕ) → n < 8 → slice_index_or result n [] ≡ hmac_under mac.now (piece firsts.now n ++ piece seconds.now n) }
{
    let inner = digests_in_step(mac.inner(), firsts, seconds);
    digests_in_step(mac.outer(), &as_pieces(&inner), &no_pieces())
}
