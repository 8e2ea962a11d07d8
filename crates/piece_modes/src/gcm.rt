//! GCM over a text in pieces.

ghost use Rattle.std.specs.Prelude.{◌≡◌, ◌^◌, ◌<◌, ◌≤◌, length, map, take, drop, IsTrue};
ghost use Rattle.std_defs.specs.Gcm.{gcm_text, gcm_tag, gcm_seal, gcm_open, gcm_takes_tag};
ghost use Rattle.std_defs.specs.Value.{or_bad_message};
ghost use Rattle.aes_block.specs.Opened.{Opens};
ghost use Rattle.piece_modes.specs.Pieces.{text_over, size_of};

use crate::front::walk_front;
use crate::piece::PieceMut;
use aes_block::{BlockCipher, tags_differ};
use gcm_mode::{Gcm, KeyStream, TextHash};
use ghash_field::GhashKey;
use kc_base::Errno;

/// Xors the first `n` bytes with the key stream.
fn count_over<C: BlockCipher + Drop>(
    cipher: &C,
    iv: &[u8; 12],
    pieces: &mut [PieceMut<'_>],
    n: usize,
)
    requires { n ≤ length (text_over pieces.old) }
    ensures text { take n (text_over pieces.new) ≡ gcm_text (C.sealed cipher.now) iv.now (take n (text_over pieces.old)) }
    ensures rest { drop n (text_over pieces.new) ≡ drop n (text_over pieces.old) }
    ensures sizes { map size_of pieces.new ≡ map size_of pieces.old }
{
    walk_front(pieces, n, KeyStream::new(cipher, iv));
}

/// The full tag of the first `n` bytes, a ciphertext, which stays.
fn tag_over<C: BlockCipher + Drop, H: GhashKey + Drop>(
    gcm: &Gcm<C, H>,
    iv: &[u8; 12],
    associated: &[u8],
    pieces: &mut [PieceMut<'_>],
    n: usize,
) -> [u8; 16]
    requires within { n ≤ length (text_over pieces.old) }
    requires associated_short { length associated.now < 2 ^ 32 }
    requires text_short { n < 2 ^ 32 }
    ensures tag { result ≡ gcm_tag (C.sealed gcm.now) iv.now associated.now (take n (text_over pieces.old)) }
    ensures text { take n (text_over pieces.new) ≡ take n (text_over pieces.old) }
    ensures rest { drop n (text_over pieces.new) ≡ drop n (text_over pieces.old) }
    ensures sizes { map size_of pieces.new ≡ map size_of pieces.old }
{
    let hashed = walk_front(pieces, n, TextHash::new(gcm.key(), associated));
    gcm.seal_hash(iv, hashed.hash(), associated.len(), n)
}

/// Makes the ciphertext of the first `n` bytes in their place, and their full tag, as `Gcm::seal` does. `associated`
/// and the text have fewer than 2^32 bytes each. `iv` must be new under this key.
pub fn seal_gcm<C: BlockCipher + Drop, H: GhashKey + Drop>(
    gcm: &Gcm<C, H>,
    iv: &[u8; 12],
    associated: &[u8],
    pieces: &mut [PieceMut<'_>],
    n: usize,
) -> [u8; 16]
    requires within { n ≤ length (text_over pieces.old) }
    requires associated_short { length associated.now < 2 ^ 32 }
    requires text_short { n < 2 ^ 32 }
    ensures sealed { (take n (text_over pieces.new), result)
        ≡ gcm_seal (C.sealed gcm.now) iv.now associated.now (take n (text_over pieces.old)) }
    ensures rest { drop n (text_over pieces.new) ≡ drop n (text_over pieces.old) }
    ensures sizes { map size_of pieces.new ≡ map size_of pieces.old }
{
    count_over(gcm.cipher(), iv, pieces, n);
    tag_over(gcm, iv, associated, pieces, n)
}

/// Makes the plaintext of the first `n` bytes in their place, as `Gcm::unseal` does, under a tag of 4, 8 or 12 to 16
/// bytes. `EBADMSG` exactly where `tag` isn't the front of the full tag: no byte is changed then.
pub fn open_gcm<C: BlockCipher + Drop, H: GhashKey + Drop>(
    gcm: &Gcm<C, H>,
    iv: &[u8; 12],
    associated: &[u8],
    pieces: &mut [PieceMut<'_>],
    n: usize,
    tag: &[u8],
) -> Result<(), Errno>
    requires within { n ≤ length (text_over pieces.old) }
    requires associated_short { length associated.now < 2 ^ 32 }
    requires text_short { n < 2 ^ 32 }
    requires tag_taken { IsTrue (gcm_takes_tag (length tag.now)) }
    ensures text { Opens result (or_bad_message (gcm_open (C.sealed gcm.now) iv.now associated.now (take n (text_over pieces.old)) tag.now))
        (take n (text_over pieces.old)) (take n (text_over pieces.new)) }
    ensures rest { drop n (text_over pieces.new) ≡ drop n (text_over pieces.old) }
    ensures sizes { map size_of pieces.new ≡ map size_of pieces.old }
{
    let full = tag_over(gcm, iv, associated, pieces, n);
    if tags_differ(&full, tag) {
        return Err(Errno::EBADMSG);
    }
    count_over(gcm.cipher(), iv, pieces, n);
    Ok(())
}
