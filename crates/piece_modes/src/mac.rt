//! HMAC over pieces.

ghost use Rattle.std.specs.Prelude.{◌≡◌, ◌++◌, ℕ, List, take};
ghost use Rattle.std_defs.specs.Hmac.{hmac_under};
ghost use Rattle.sha_lanes.specs.Hashers.{HasAbsorbed};
ghost use Rattle.piece_modes.specs.Pieces.{text_by};

use crate::piece::ReadPiece;
use hmac_sha::Mac;
use sha_lanes::Sha256;
use sha2::Digest;

/// Hashes the first `n` bytes of the pieces.
fn hash_front<P: ReadPiece>(hasher: &mut Sha256, pieces: &[P], n: usize)
    ensures { (m : List ℕ) → HasAbsorbed hasher.old m → HasAbsorbed hasher.new (m ++ take n (text_by P.bytes_of pieces.now)) }
{
    let mut left = n;
    for piece in pieces {
        let part = piece.as_bytes();
        let count = left.min(part.len());
        hasher.update(&part[..count]);
        left -= count;
    }
}

/// The whole MAC of the associated bytes and the first `n` bytes of the pieces behind them, as one message. It takes no
/// memory.
#[tactic(auto, unfolding(std_defs::specs::Hmac::hmac_under))]
pub fn mac_of_front<P: ReadPiece>(mac: &Mac, associated: &[u8], pieces: &[P], n: usize) -> [u8; 32]
    ensures { result ≡ hmac_under mac.now (associated.now ++ take n (text_by P.bytes_of pieces.now)) }
{
    // copying a hasher takes no memory, so it is always `Ok`
    let mut inner = mac.inner().clone().unwrap();
    inner.update(associated);
    hash_front(&mut inner, pieces, n);
    let digest = inner.finalize();
    let mut outer = mac.outer().clone().unwrap();
    outer.update(digest.as_slice());
    outer.finalize()
}
