//! Requests whose text is changed where its pieces lie, by modes that go over pieces. Others are left to a copy.

ghost use Rattle.std.specs.Prelude.{◌≡◌, ◌≤◌, ◌<◌, ◌^◌, ◌+◌, ◌++◌, ◌==◌, ◌&&◌, length, map, take, drop, true, Some, IsTrue, IsFalse, MatchOption};
ghost use Rattle.std_defs.specs.Gcm.{gcm_takes_tag};
ghost use Rattle.std_defs.specs.Rfc4106.{rfc4106_takes_tag};
ghost use Rattle.std_defs.specs.Value.Value.{bytes};
ghost use Rattle.std_defs.specs.Hmac.{hmac_under};
ghost use Rattle.transforms.specs.Ciphers as ciphers;
ghost use Rattle.transforms.specs.Forms.{key_of};
ghost use Rattle.transforms.specs.InPlace as in_place;
ghost use Rattle.transforms.specs.InPlace.{sealing, unsealing, opening};
ghost use Rattle.transforms.specs.Modes.{gcm_seals, gcm_opens, rfc4106_seals, rfc4106_opens, authenc_seals, authenc_opens};
ghost use Rattle.transforms.specs.Plans.{fits_tag, authenc_takes_tag};
ghost use Rattle.transforms.specs.declared.inner.Inner.TheVariants as inner;
ghost use Rattle.piece_modes.specs.Pieces.{text_over, size_of};
ghost use Rattle.perdoaze_calls.specs.Over.{OpensOver, OpensIn, Opens};

use aes_block::{Skcipher, tags_differ};
use authenc::Authenc;
use gcm_mode::{Gcm, Rfc4106, authenticated_bytes, takes_rfc4106_associated};
use ghash_field::GhashKey;
use hmac_sha::Mac;
use piece_modes::{PieceCipher, PieceMut, mac_of_front, open_gcm, seal_gcm, write_at};
use transforms::{AnyAead, AnyAes, AnyCipher, Inner, Keyed};

/// Seals the first `n` bytes under GCM and an IV of 12 bytes, and writes the tag behind them.
fn seal_by_gcm<H: GhashKey + Drop>(
    gcm: &Gcm<AnyAes, H>,
    iv: &[u8],
    aad: &[u8],
    pieces: &mut [PieceMut<'_>],
    n: usize,
    tag_size: usize,
)
    requires iv { length iv.now ≡ 12 }
    requires within { n + tag_size ≤ length (text_over pieces.old) }
    requires tag_short { tag_size ≤ 16 }
    requires aad_short { length aad.now < 2 ^ 32 }
    requires text_short { n < 2 ^ 32 }
    ensures sealed { gcm_seals (key_of gcm.now) tag_size iv.now aad.now (take n (text_over pieces.old))
        ≡ bytes (take (n + tag_size) (text_over pieces.new)) }
    ensures rest { drop (n + tag_size) (text_over pieces.new) ≡ drop (n + tag_size) (text_over pieces.old) }
    ensures sizes { map size_of pieces.new ≡ map size_of pieces.old }
{
    let mut nonce = [0u8; 12];
    nonce.copy_from_slice(iv);
    let tag = seal_gcm(gcm, &nonce, aad, pieces, n);
    write_at(pieces, n, &tag[..tag_size]);
}

/// The same where the IV has 12 bytes. Otherwise nothing is done.
fn seal_gcm_over<H: GhashKey + Drop>(
    gcm: &Gcm<AnyAes, H>,
    iv: &[u8],
    aad: &[u8],
    pieces: &mut [PieceMut<'_>],
    n: usize,
    tag_size: usize,
) -> bool
    requires within { n + tag_size ≤ length (text_over pieces.old) }
    requires tag_taken { IsTrue (gcm_takes_tag tag_size) }
    requires aad_short { length aad.now < 2 ^ 32 }
    requires text_short { n < 2 ^ 32 }
    ensures sealed { IsTrue result → (length iv.now ≡ 12)
        × (gcm_seals (key_of gcm.now) tag_size iv.now aad.now (take n (text_over pieces.old))
        ≡ bytes (take (n + tag_size) (text_over pieces.new))) }
    ensures rest { drop (n + tag_size) (text_over pieces.new) ≡ drop (n + tag_size) (text_over pieces.old) }
    ensures undone { IsFalse result → text_over pieces.new ≡ text_over pieces.old }
    ensures sizes { map size_of pieces.new ≡ map size_of pieces.old }
{
    if iv.len() != 12 {
        return false;
    }
    seal_by_gcm(gcm, iv, aad, pieces, n, tag_size);
    true
}

/// Opens the first `n` bytes under GCM and an IV of 12 bytes, and answers whether the tag is right. Where it is wrong
/// they stay.
fn open_by_gcm<H: GhashKey + Drop>(
    gcm: &Gcm<AnyAes, H>,
    iv: &[u8],
    aad: &[u8],
    pieces: &mut [PieceMut<'_>],
    n: usize,
    tag: &[u8],
) -> bool
    requires iv { length iv.now ≡ 12 }
    requires within { n ≤ length (text_over pieces.old) }
    requires tag_taken { IsTrue (gcm_takes_tag (length tag.now)) }
    requires aad_short { length aad.now < 2 ^ 32 }
    requires text_short { n < 2 ^ 32 }
    ensures opened { OpensOver result (gcm_opens (key_of gcm.now) iv.now aad.now (take n (text_over pieces.old)) tag.now) n
        (text_over pieces.old) (text_over pieces.new) }
    ensures rest { drop n (text_over pieces.new) ≡ drop n (text_over pieces.old) }
    ensures sizes { map size_of pieces.new ≡ map size_of pieces.old }
{
    let mut nonce = [0u8; 12];
    nonce.copy_from_slice(iv);
    match open_gcm(gcm, &nonce, aad, pieces, n, tag) {
        Ok(()) => true,
        Err(_) => false,
    }
}

/// The same where the IV has 12 bytes. Otherwise nothing is done.
fn open_gcm_over<H: GhashKey + Drop>(
    gcm: &Gcm<AnyAes, H>,
    iv: &[u8],
    aad: &[u8],
    pieces: &mut [PieceMut<'_>],
    n: usize,
    tag: &[u8],
) -> Option<bool>
    requires within { n ≤ length (text_over pieces.old) }
    requires tag_taken { IsTrue (gcm_takes_tag (length tag.now)) }
    requires aad_short { length aad.now < 2 ^ 32 }
    requires text_short { n < 2 ^ 32 }
    ensures opened { MatchOption result (text_over pieces.new ≡ text_over pieces.old) (λ right. (length iv.now ≡ 12)
        × OpensOver right (gcm_opens (key_of gcm.now) iv.now aad.now (take n (text_over pieces.old)) tag.now) n (text_over pieces.old)
        (text_over pieces.new)) }
    ensures rest { drop n (text_over pieces.new) ≡ drop n (text_over pieces.old) }
    ensures sizes { map size_of pieces.new ≡ map size_of pieces.old }
{
    if iv.len() != 12 {
        return None;
    }
    Some(open_by_gcm(gcm, iv, aad, pieces, n, tag))
}

/// Seals the first `n` bytes under RFC 4106, and writes the tag behind them, where the IV has 8 bytes, and 16 or 20 are
/// associated. Otherwise nothing is done.
fn seal_rfc4106_over<H: GhashKey + Drop>(
    mode: &Rfc4106<AnyAes, H>,
    iv: &[u8],
    aad: &[u8],
    pieces: &mut [PieceMut<'_>],
    n: usize,
    tag_size: usize,
) -> bool
    requires within { n + tag_size ≤ length (text_over pieces.old) }
    requires tag_taken { IsTrue (rfc4106_takes_tag tag_size) }
    requires text_short { n < 2 ^ 32 }
    ensures sealed { IsTrue result → (length iv.now ≡ 8)
        × (rfc4106_seals (key_of mode.now.0) mode.now.1 tag_size iv.now aad.now (take n (text_over pieces.old))
        ≡ bytes (take (n + tag_size) (text_over pieces.new))) }
    ensures rest { drop (n + tag_size) (text_over pieces.new) ≡ drop (n + tag_size) (text_over pieces.old) }
    ensures undone { IsFalse result → text_over pieces.new ≡ text_over pieces.old }
    ensures sizes { map size_of pieces.new ≡ map size_of pieces.old }
{
    if iv.len() != 8 {
        return false;
    }
    if !takes_rfc4106_associated(aad) {
        return false;
    }
    let mut packet_iv = [0u8; 8];
    packet_iv.copy_from_slice(iv);
    let nonce = mode.nonce(&packet_iv);
    let associated = authenticated_bytes(aad);
    seal_by_gcm(mode.gcm(), &nonce, associated, pieces, n, tag_size);
    true
}

/// Opens the first `n` bytes under RFC 4106, and answers whether the tag is right, where the IV has 8 bytes, and 16 or
/// 20 are associated. Otherwise, and where the tag is wrong, they stay.
fn open_rfc4106_over<H: GhashKey + Drop>(
    mode: &Rfc4106<AnyAes, H>,
    iv: &[u8],
    aad: &[u8],
    pieces: &mut [PieceMut<'_>],
    n: usize,
    tag: &[u8],
) -> Option<bool>
    requires within { n ≤ length (text_over pieces.old) }
    requires tag_taken { IsTrue (rfc4106_takes_tag (length tag.now)) }
    requires text_short { n < 2 ^ 32 }
    ensures opened { MatchOption result (text_over pieces.new ≡ text_over pieces.old) (λ right. (length iv.now ≡ 8)
        × OpensOver right (rfc4106_opens (key_of mode.now.0) mode.now.1 iv.now aad.now (take n (text_over pieces.old)) tag.now) n
        (text_over pieces.old) (text_over pieces.new)) }
    ensures rest { drop n (text_over pieces.new) ≡ drop n (text_over pieces.old) }
    ensures sizes { map size_of pieces.new ≡ map size_of pieces.old }
{
    if iv.len() != 8 {
        return None;
    }
    if !takes_rfc4106_associated(aad) {
        return None;
    }
    let mut packet_iv = [0u8; 8];
    packet_iv.copy_from_slice(iv);
    let nonce = mode.nonce(&packet_iv);
    let associated = authenticated_bytes(aad);
    Some(open_by_gcm(mode.gcm(), &nonce, associated, pieces, n, tag))
}

/// Seals the first `n` bytes by a mode that goes over pieces. Whether it takes a text of that length: otherwise nothing
/// is done.
fn seal_by<S: PieceCipher>(mode: &S, iv: &[u8], pieces: &mut [PieceMut<'_>], n: usize) -> bool
    requires iv_fits { length iv.now ≡ S.iv_size mode.now }
    requires within { n ≤ length (text_over pieces.old) }
    ensures sealed { IsTrue result → S.seals mode.now iv.now (take n (text_over pieces.old)) ≡ Some (take n (text_over pieces.new)) }
    ensures rest { drop n (text_over pieces.new) ≡ drop n (text_over pieces.old) }
    ensures undone { IsFalse result → text_over pieces.new ≡ text_over pieces.old }
    ensures sizes { map size_of pieces.new ≡ map size_of pieces.old }
{
    match mode.seal_pieces(iv, pieces, n) {
        Ok(()) => true,
        Err(_) => false,
    }
}

/// The same of opening.
fn open_by<S: PieceCipher>(mode: &S, iv: &[u8], pieces: &mut [PieceMut<'_>], n: usize) -> bool
    requires iv_fits { length iv.now ≡ S.iv_size mode.now }
    requires within { n ≤ length (text_over pieces.old) }
    ensures opened { IsTrue result → S.unseals mode.now iv.now (take n (text_over pieces.old)) ≡ Some (take n (text_over pieces.new)) }
    ensures rest { drop n (text_over pieces.new) ≡ drop n (text_over pieces.old) }
    ensures undone { IsFalse result → text_over pieces.new ≡ text_over pieces.old }
    ensures sizes { map size_of pieces.new ≡ map size_of pieces.old }
{
    match mode.unseal_pieces(iv, pieces, n) {
        Ok(()) => true,
        Err(_) => false,
    }
}

/// Seals the first `n` bytes by a mode without a tag, where it goes over pieces and takes a text of that length.
/// Otherwise nothing is done.
fn seal_cipher(cipher: &AnyCipher, iv: &[u8], pieces: &mut [PieceMut<'_>], n: usize) -> bool
    requires iv_fits { length iv.now ≡ ciphers.iv_size_of cipher.now }
    requires within { n ≤ length (text_over pieces.old) }
    ensures sealed { IsTrue result → ciphers.seals_of cipher.now iv.now (take n (text_over pieces.old))
        ≡ Some (take n (text_over pieces.new)) }
    ensures rest { drop n (text_over pieces.new) ≡ drop n (text_over pieces.old) }
    ensures undone { IsFalse result → text_over pieces.new ≡ text_over pieces.old }
    ensures sizes { map size_of pieces.new ≡ map size_of pieces.old }
{
    match cipher {
        AnyCipher::Cbc(mode) => seal_by(mode, iv, pieces, n),
        AnyCipher::Ctr(mode) => seal_by(mode, iv, pieces, n),
        AnyCipher::Rfc3686(mode) => seal_by(mode, iv, pieces, n),
        AnyCipher::Xts(_) => false,
    }
}

/// The same of opening.
fn open_cipher(cipher: &AnyCipher, iv: &[u8], pieces: &mut [PieceMut<'_>], n: usize) -> bool
    requires iv_fits { length iv.now ≡ ciphers.iv_size_of cipher.now }
    requires within { n ≤ length (text_over pieces.old) }
    ensures opened { IsTrue result → ciphers.unseals_of cipher.now iv.now (take n (text_over pieces.old))
        ≡ Some (take n (text_over pieces.new)) }
    ensures rest { drop n (text_over pieces.new) ≡ drop n (text_over pieces.old) }
    ensures undone { IsFalse result → text_over pieces.new ≡ text_over pieces.old }
    ensures sizes { map size_of pieces.new ≡ map size_of pieces.old }
{
    match cipher {
        AnyCipher::Cbc(mode) => open_by(mode, iv, pieces, n),
        AnyCipher::Ctr(mode) => open_by(mode, iv, pieces, n),
        AnyCipher::Rfc3686(mode) => open_by(mode, iv, pieces, n),
        AnyCipher::Xts(_) => false,
    }
}

/// An IV of that size and no associated bytes.
fn is_plain(iv: &[u8], aad: &[u8], size: usize) -> bool
    ensures { result ≡ (length iv.now == size && length aad.now == 0) }
{
    iv.len() == size && aad.len() == 0
}

/// The same as `seal_cipher`, where the IV has the mode's size and nothing is associated.
fn seal_plain(
    cipher: &AnyCipher,
    iv: &[u8],
    aad: &[u8],
    pieces: &mut [PieceMut<'_>],
    n: usize,
) -> bool
    requires { n ≤ length (text_over pieces.old) }
    ensures sealed { IsTrue result
        → in_place.HasValueIn (inner.Skcipher cipher.now) 0 (sealing iv.now aad.now (take n (text_over pieces.old)))
        (bytes (take n (text_over pieces.new))) }
    ensures rest { drop n (text_over pieces.new) ≡ drop n (text_over pieces.old) }
    ensures undone { IsFalse result → text_over pieces.new ≡ text_over pieces.old }
    ensures sizes { map size_of pieces.new ≡ map size_of pieces.old }
{
    if !is_plain(iv, aad, cipher.iv_len()) {
        return false;
    }
    seal_cipher(cipher, iv, pieces, n)
}

/// The same of opening.
fn open_plain(
    cipher: &AnyCipher,
    iv: &[u8],
    aad: &[u8],
    pieces: &mut [PieceMut<'_>],
    n: usize,
) -> bool
    requires { n ≤ length (text_over pieces.old) }
    ensures opened { IsTrue result
        → in_place.HasValueIn (inner.Skcipher cipher.now) 0 (unsealing iv.now aad.now (take n (text_over pieces.old)))
        (bytes (take n (text_over pieces.new))) }
    ensures rest { drop n (text_over pieces.new) ≡ drop n (text_over pieces.old) }
    ensures undone { IsFalse result → text_over pieces.new ≡ text_over pieces.old }
    ensures sizes { map size_of pieces.new ≡ map size_of pieces.old }
{
    if !is_plain(iv, aad, cipher.iv_len()) {
        return false;
    }
    open_cipher(cipher, iv, pieces, n)
}

/// Writes the front of the MAC behind a ciphertext of `n` bytes.
fn put_mac_behind(mac: &Mac, aad: &[u8], pieces: &mut [PieceMut<'_>], n: usize, tag_size: usize)
    requires within { n + tag_size ≤ length (text_over pieces.old) }
    requires tag_short { tag_size ≤ 32 }
    ensures made { take (n + tag_size) (text_over pieces.new)
        ≡ take n (text_over pieces.old) ++ take tag_size (hmac_under mac.now (aad.now ++ take n (text_over pieces.old))) }
    ensures rest { drop (n + tag_size) (text_over pieces.new) ≡ drop (n + tag_size) (text_over pieces.old) }
    ensures sizes { map size_of pieces.new ≡ map size_of pieces.old }
{
    let tag = mac_of_front(mac, aad, pieces, n);
    write_at(pieces, n, &tag[..tag_size]);
}

/// Seals the first `n` bytes under authenc, and writes the tag behind them, where its cipher goes over pieces, and
/// takes the IV and a text of that length. Otherwise nothing is done.
fn seal_authenc(
    mode: &Authenc<AnyCipher>,
    iv: &[u8],
    aad: &[u8],
    pieces: &mut [PieceMut<'_>],
    n: usize,
    tag_size: usize,
) -> bool
    requires within { n + tag_size ≤ length (text_over pieces.old) }
    requires tag_taken { IsTrue (authenc_takes_tag tag_size) }
    ensures sealed { IsTrue result → (length iv.now ≡ ciphers.iv_size_of mode.now.1)
        × (authenc_seals mode.now.0 (ciphers.seals_of mode.now.1) tag_size iv.now aad.now (take n (text_over pieces.old))
        ≡ bytes (take (n + tag_size) (text_over pieces.new))) }
    ensures rest { drop (n + tag_size) (text_over pieces.new) ≡ drop (n + tag_size) (text_over pieces.old) }
    ensures undone { IsFalse result → text_over pieces.new ≡ text_over pieces.old }
    ensures sizes { map size_of pieces.new ≡ map size_of pieces.old }
{
    let cipher = mode.cipher();
    if iv.len() != cipher.iv_len() {
        return false;
    }
    if !seal_cipher(cipher, iv, pieces, n) {
        return false;
    }
    put_mac_behind(mode.mac(), aad, pieces, n, tag_size);
    true
}

/// Opens the first `n` bytes under authenc and that tag, and answers whether it is right; or nothing where the cipher
/// doesn't go over pieces, or doesn't take the IV or a text of that length. Where they aren't opened they stay.
fn open_authenc(
    mode: &Authenc<AnyCipher>,
    iv: &[u8],
    aad: &[u8],
    pieces: &mut [PieceMut<'_>],
    n: usize,
    tag: &[u8],
) -> Option<bool>
    requires within { n ≤ length (text_over pieces.old) }
    requires tag_taken { IsTrue (authenc_takes_tag (length tag.now)) }
    ensures opened { MatchOption result (text_over pieces.new ≡ text_over pieces.old) (λ right. (length iv.now
        ≡ ciphers.iv_size_of mode.now.1)
        × OpensOver right (authenc_opens mode.now.0 (ciphers.unseals_of mode.now.1) iv.now aad.now (take n (text_over pieces.old))
        tag.now) n (text_over pieces.old) (text_over pieces.new)) }
    ensures rest { drop n (text_over pieces.new) ≡ drop n (text_over pieces.old) }
    ensures sizes { map size_of pieces.new ≡ map size_of pieces.old }
{
    let cipher = mode.cipher();
    if iv.len() != cipher.iv_len() {
        return None;
    }
    let full = mac_of_front(mode.mac(), aad, pieces, n);
    if tags_differ(&full, tag) {
        return Some(false);
    }
    if !open_cipher(cipher, iv, pieces, n) {
        return None;
    }
    Some(true)
}

/// `seal_plain`, by a tag of no bytes.
fn seal_untagged(
    cipher: &AnyCipher,
    iv: &[u8],
    aad: &[u8],
    pieces: &mut [PieceMut<'_>],
    n: usize,
    tag_size: usize,
) -> bool
    requires within { n + tag_size ≤ length (text_over pieces.old) }
    requires none { (tag_size == 0) ≡ true }
    ensures sealed { IsTrue result
        → in_place.HasValueIn (inner.Skcipher cipher.now) tag_size (sealing iv.now aad.now (take n (text_over pieces.old)))
        (bytes (take (n + tag_size) (text_over pieces.new))) }
    ensures rest { drop (n + tag_size) (text_over pieces.new) ≡ drop (n + tag_size) (text_over pieces.old) }
    ensures undone { IsFalse result → text_over pieces.new ≡ text_over pieces.old }
    ensures sizes { map size_of pieces.new ≡ map size_of pieces.old }
{
    seal_plain(cipher, iv, aad, pieces, n)
}

/// `open_plain`, by a tag of no bytes.
fn open_untagged(
    cipher: &AnyCipher,
    iv: &[u8],
    aad: &[u8],
    pieces: &mut [PieceMut<'_>],
    n: usize,
    tag: &[u8],
) -> Option<bool>
    requires within { n ≤ length (text_over pieces.old) }
    requires none { (length tag.now == 0) ≡ true }
    ensures opened { MatchOption result (text_over pieces.new ≡ text_over pieces.old)
        (λ right. OpensIn right (inner.Skcipher cipher.now) (length tag.now)
        (opening iv.now aad.now (take n (text_over pieces.old)) tag.now) n (text_over pieces.old) (text_over pieces.new)) }
    ensures rest { drop n (text_over pieces.new) ≡ drop n (text_over pieces.old) }
    ensures sizes { map size_of pieces.new ≡ map size_of pieces.old }
{
    if !open_plain(cipher, iv, aad, pieces, n) {
        return None;
    }
    Some(true)
}

/// Seals the first `n` bytes, and writes the tag behind them, where the mode goes over pieces and the request is taken.
/// Otherwise nothing is done.
pub(crate) fn seal_over(
    kept: &Inner,
    iv: &[u8],
    aad: &[u8],
    pieces: &mut [PieceMut<'_>],
    n: usize,
    tag_size: usize,
) -> bool
    requires within { n + tag_size ≤ length (text_over pieces.old) }
    requires tag_fits { in_place.fits_tag_in kept.now tag_size ≡ true }
    requires aad_short { length aad.now < 2 ^ 32 }
    requires text_short { n < 2 ^ 32 }
    ensures sealed { IsTrue result
        → in_place.HasValueIn kept.now tag_size (sealing iv.now aad.now (take n (text_over pieces.old)))
        (bytes (take (n + tag_size) (text_over pieces.new))) }
    ensures rest { drop (n + tag_size) (text_over pieces.new) ≡ drop (n + tag_size) (text_over pieces.old) }
    ensures undone { IsFalse result → text_over pieces.new ≡ text_over pieces.old }
    ensures sizes { map size_of pieces.new ≡ map size_of pieces.old }
{
    match kept {
        Inner::Skcipher(cipher) => seal_untagged(cipher, iv, aad, pieces, n, tag_size),
        Inner::Mac(_) => false,
        Inner::Aead(aead) => match aead {
            AnyAead::BitGcm(gcm) => seal_gcm_over(gcm, iv, aad, pieces, n, tag_size),
            AnyAead::LaneGcm(gcm) => seal_gcm_over(&**gcm, iv, aad, pieces, n, tag_size),
            AnyAead::BitRfc4106(mode) => seal_rfc4106_over(mode, iv, aad, pieces, n, tag_size),
            AnyAead::LaneRfc4106(mode) => seal_rfc4106_over(&**mode, iv, aad, pieces, n, tag_size),
            AnyAead::Ccm(_) => false,
            AnyAead::Authenc(mode) => seal_authenc(mode, iv, aad, pieces, n, tag_size),
        },
    }
}

/// Opens the first `n` bytes under that tag, and answers whether it is right; or nothing where the mode doesn't go over
/// pieces, or the request isn't taken. Where they aren't opened they stay.
pub(crate) fn open_over(
    kept: &Inner,
    iv: &[u8],
    aad: &[u8],
    pieces: &mut [PieceMut<'_>],
    n: usize,
    tag: &[u8],
) -> Option<bool>
    requires within { n ≤ length (text_over pieces.old) }
    requires tag_fits { in_place.fits_tag_in kept.now (length tag.now) ≡ true }
    requires aad_short { length aad.now < 2 ^ 32 }
    requires text_short { n < 2 ^ 32 }
    ensures opened { MatchOption result (text_over pieces.new ≡ text_over pieces.old)
        (λ right. OpensIn right kept.now (length tag.now) (opening iv.now aad.now (take n (text_over pieces.old)) tag.now) n
        (text_over pieces.old) (text_over pieces.new)) }
    ensures rest { drop n (text_over pieces.new) ≡ drop n (text_over pieces.old) }
    ensures sizes { map size_of pieces.new ≡ map size_of pieces.old }
{
    match kept {
        Inner::Skcipher(cipher) => open_untagged(cipher, iv, aad, pieces, n, tag),
        Inner::Mac(_) => None,
        Inner::Aead(aead) => match aead {
            AnyAead::BitGcm(gcm) => open_gcm_over(gcm, iv, aad, pieces, n, tag),
            AnyAead::LaneGcm(gcm) => open_gcm_over(&**gcm, iv, aad, pieces, n, tag),
            AnyAead::BitRfc4106(mode) => open_rfc4106_over(mode, iv, aad, pieces, n, tag),
            AnyAead::LaneRfc4106(mode) => open_rfc4106_over(&**mode, iv, aad, pieces, n, tag),
            AnyAead::Ccm(_) => None,
            AnyAead::Authenc(mode) => open_authenc(mode, iv, aad, pieces, n, tag),
        },
    }
}

/// The same as `seal_over`, by a plan under a key.
pub(crate) fn seal_keyed_over(
    keyed: &Keyed,
    iv: &[u8],
    aad: &[u8],
    pieces: &mut [PieceMut<'_>],
    n: usize,
    tag_size: usize,
) -> bool
    requires within { n + tag_size ≤ length (text_over pieces.old) }
    requires tag_fits { fits_tag keyed.now.0 tag_size ≡ true }
    requires aad_short { length aad.now < 2 ^ 32 }
    requires text_short { n < 2 ^ 32 }
    ensures sealed { IsTrue result
        → in_place.HasValue keyed.now tag_size (sealing iv.now aad.now (take n (text_over pieces.old)))
        (bytes (take (n + tag_size) (text_over pieces.new))) }
    ensures rest { drop (n + tag_size) (text_over pieces.new) ≡ drop (n + tag_size) (text_over pieces.old) }
    ensures undone { IsFalse result → text_over pieces.new ≡ text_over pieces.old }
    ensures sizes { map size_of pieces.new ≡ map size_of pieces.old }
{
    seal_over(keyed.inner(), iv, aad, pieces, n, tag_size)
}

/// The same as `open_over`, by a plan under a key.
pub(crate) fn open_keyed_over(
    keyed: &Keyed,
    iv: &[u8],
    aad: &[u8],
    pieces: &mut [PieceMut<'_>],
    n: usize,
    tag: &[u8],
) -> Option<bool>
    requires within { n ≤ length (text_over pieces.old) }
    requires tag_fits { fits_tag keyed.now.0 (length tag.now) ≡ true }
    requires aad_short { length aad.now < 2 ^ 32 }
    requires text_short { n < 2 ^ 32 }
    ensures opened { MatchOption result (text_over pieces.new ≡ text_over pieces.old)
        (λ right. Opens right keyed.now (length tag.now) (opening iv.now aad.now (take n (text_over pieces.old)) tag.now) n
        (text_over pieces.old) (text_over pieces.new)) }
    ensures rest { drop n (text_over pieces.new) ≡ drop n (text_over pieces.old) }
    ensures sizes { map size_of pieces.new ≡ map size_of pieces.old }
{
    open_over(keyed.inner(), iv, aad, pieces, n, tag)
}
