//! Requests whose bytes lie where their caller has them. The text is changed in its place: none of it is copied, and no
//! memory is taken.

ghost use Rattle.std.specs.Prelude.{◌≡◌, ◌≤◌, ◌<◌, ◌^◌, ◌++◌, ◌==◌, ◌&&◌, length, take, true, MatchResult};
ghost use Rattle.std_defs.specs.Value.Value.{bytes};
ghost use Rattle.transforms.specs.Aeads as aeads;
ghost use Rattle.transforms.specs.Macs as macs;
ghost use Rattle.transforms.specs.Plans.{fits_tag};
ghost use Rattle.transforms.specs.InPlace.{sealing, unsealing, opening, making, mac_size, mac_size_in, HasValue, IsInvalid, IsRefused, fits_tag_in, HasValueIn, IsInvalidIn, IsRefusedIn};
ghost use Rattle.transforms.specs.declared.inner.Inner.TheVariants as inner;

use crate::admission::takes_input;
use crate::aead::Aead;
use crate::any_aead::AnyAead;
use crate::any_cipher::AnyCipher;
use crate::any_mac::AnyMac;
use crate::inner::Inner;
use crate::keyed::Keyed;
use aes_block::Skcipher;
use kc_base::Errno;

/// An IV of that size and no associated bytes.
fn is_plain(iv: &[u8], aad: &[u8], size: usize) -> bool
    ensures { result ≡ (length iv.now == size && length aad.now == 0) }
{
    iv.len() == size && aad.len() == 0
}

/// Seals the text in its place, with a mode that has no tag.
fn seal_plain(cipher: &AnyCipher, iv: &[u8], aad: &[u8], text: &mut [u8]) -> Result<(), Errno>
    ensures { let q = sealing iv.now aad.now text.old in MatchResult result
        (λ _. HasValueIn (inner.Skcipher cipher.now) 0 q (bytes text.new))
        (λ e. (e ≡ Errno.EINVAL) × IsInvalidIn (inner.Skcipher cipher.now) 0 q × (text.new ≡ text.old)) }
{
    if !is_plain(iv, aad, cipher.iv_len()) {
        return Err(Errno::EINVAL);
    }
    cipher.seal(iv, text)
}

/// Unseals the text in its place, with a mode that has no tag.
fn open_plain(cipher: &AnyCipher, iv: &[u8], aad: &[u8], text: &mut [u8]) -> Result<(), Errno>
    ensures { let q = unsealing iv.now aad.now text.old in MatchResult result
        (λ _. HasValueIn (inner.Skcipher cipher.now) 0 q (bytes text.new))
        (λ e. (e ≡ Errno.EINVAL) × IsInvalidIn (inner.Skcipher cipher.now) 0 q × (text.new ≡ text.old)) }
{
    if !is_plain(iv, aad, cipher.iv_len()) {
        return Err(Errno::EINVAL);
    }
    cipher.unseal(iv, text)
}

/// Seals the text in its place, and writes its tag.
fn seal_tagged(
    aead: &AnyAead,
    iv: &[u8],
    aad: &[u8],
    text: &mut [u8],
    tag: &mut [u8],
) -> Result<(), Errno>
    requires tag_taken { aeads.takes_tag_of aead.now (length tag.old) ≡ true }
    requires aad_short { length aad.now < 2 ^ 32 }
    requires text_short { length text.old < 2 ^ 32 }
    ensures { let q = sealing iv.now aad.now text.old in MatchResult result
        (λ _. HasValueIn (inner.Aead aead.now) (length tag.old) q (bytes (text.new ++ tag.new)))
        (λ e. (e ≡ Errno.EINVAL) × IsInvalidIn (inner.Aead aead.now) (length tag.old) q × (text.new ≡ text.old) × (tag.new ≡ tag.old)) }
{
    if !takes_input(aead, iv, aad.len(), text.len()) {
        return Err(Errno::EINVAL);
    }
    Aead::seal(aead, iv, aad, text, tag)
}

/// Opens the text in its place, under its tag.
fn open_tagged(
    aead: &AnyAead,
    iv: &[u8],
    aad: &[u8],
    text: &mut [u8],
    tag: &[u8],
) -> Result<(), Errno>
    requires tag_taken { aeads.takes_tag_of aead.now (length tag.now) ≡ true }
    requires aad_short { length aad.now < 2 ^ 32 }
    requires text_short { length text.old < 2 ^ 32 }
    ensures { let q = opening iv.now aad.now text.old tag.now in MatchResult result
        (λ _. HasValueIn (inner.Aead aead.now) (length tag.now) q (bytes text.new))
        (λ e. IsRefusedIn e (inner.Aead aead.now) (length tag.now) q × (text.new ≡ text.old)) }
{
    if !takes_input(aead, iv, aad.len(), text.len()) {
        return Err(Errno::EINVAL);
    }
    Aead::unseal(aead, iv, aad, text, tag)
}

/// Seals the text in its place, and writes its tag, where the mode has one.
fn seal_kept(
    kept: &Inner,
    iv: &[u8],
    aad: &[u8],
    text: &mut [u8],
    tag: &mut [u8],
) -> Result<(), Errno>
    requires tag_fits { fits_tag_in kept.now (length tag.old) ≡ true }
    requires aad_short { length aad.now < 2 ^ 32 }
    requires text_short { length text.old < 2 ^ 32 }
    ensures { let q = sealing iv.now aad.now text.old in MatchResult result
        (λ _. HasValueIn kept.now (length tag.old) q (bytes (text.new ++ tag.new)))
        (λ e. (e ≡ Errno.EINVAL) × IsInvalidIn kept.now (length tag.old) q × (text.new ≡ text.old) × (tag.new ≡ tag.old)) }
{
    match kept {
        Inner::Skcipher(cipher) => seal_plain(cipher, iv, aad, text),
        Inner::Mac(_) => Err(Errno::EINVAL),
        Inner::Aead(aead) => seal_tagged(aead, iv, aad, text, tag),
    }
}

/// Opens the text in its place, under its tag, where the mode has one.
fn open_kept(kept: &Inner, iv: &[u8], aad: &[u8], text: &mut [u8], tag: &[u8]) -> Result<(), Errno>
    requires tag_fits { fits_tag_in kept.now (length tag.now) ≡ true }
    requires aad_short { length aad.now < 2 ^ 32 }
    requires text_short { length text.old < 2 ^ 32 }
    ensures { let q = opening iv.now aad.now text.old tag.now in MatchResult result
        (λ _. HasValueIn kept.now (length tag.now) q (bytes text.new))
        (λ e. IsRefusedIn e kept.now (length tag.now) q × (text.new ≡ text.old)) }
{
    match kept {
        Inner::Skcipher(cipher) => open_plain(cipher, iv, aad, text),
        Inner::Mac(_) => Err(Errno::EINVAL),
        Inner::Aead(aead) => open_tagged(aead, iv, aad, text, tag),
    }
}

/// Copies a MAC to the front of `room`. How many bytes it has.
fn put_mac(mac: &[u8], room: &mut [u8; 32]) -> usize
    requires { length mac.now ≤ 32 }
    ensures size { result ≡ length mac.now }
    ensures made { take result room.new ≡ mac.now }
{
    room[..mac.len()].copy_from_slice(mac);
    mac.len()
}

/// The MAC of the text, at the front of `room`. How many bytes it has.
fn make_mac(mac: &AnyMac, text: &[u8], room: &mut [u8; 32]) -> usize
    ensures size { result ≡ mac_size_in (inner.Mac mac.now) }
    ensures fits { result ≤ 32 }
    ensures made { take result room.new ≡ macs.makes_of mac.now text.now }
{
    match mac {
        AnyMac::Hmac(mac) => put_mac(&mac.mac(&[], text), room),
        AnyMac::Cmac(mac) => put_mac(&mac.mac(text), room),
    }
}

/// The MAC of the text, at the front of `room`, and how many bytes it has; or that it is no MAC.
fn make_kept(kept: &Inner, text: &[u8], room: &mut [u8; 32]) -> Result<usize, Errno>
    ensures { MatchResult result
        (λ n. (n ≡ mac_size_in kept.now) × (n ≤ 32) × HasValueIn kept.now 0 (making text.now) (bytes (take n room.new)))
        (λ e. (e ≡ Errno.EINVAL) × IsInvalidIn kept.now 0 (making text.now)) }
{
    match kept {
        Inner::Skcipher(_) => Err(Errno::EINVAL),
        Inner::Mac(mac) => Ok(make_mac(mac, text, room)),
        Inner::Aead(_) => Err(Errno::EINVAL),
    }
}

impl Keyed {
    /// Seals a text in its place, and writes its tag. The tag has a size that the plan takes, or no bytes where the
    /// plan has none; `aad` and `text` have fewer than 2^32 bytes each. `EINVAL` exactly where the request isn't taken
    /// or its value is `invalid`: text and tag are then unchanged. An IV must never be used twice under a key, but with
    /// XTS and CBC.
    pub fn seal_in_place(
        &self,
        iv: &[u8],
        aad: &[u8],
        text: &mut [u8],
        tag: &mut [u8],
    ) -> Result<(), Errno>
        requires tag_fits { fits_tag self.now.0 (length tag.old) ≡ true }
        requires aad_short { length aad.now < 2 ^ 32 }
        requires text_short { length text.old < 2 ^ 32 }
        ensures { let q = sealing iv.now aad.now text.old in MatchResult result
            (λ _. HasValue self.now (length tag.old) q (bytes (text.new ++ tag.new)))
            (λ e. (e ≡ Errno.EINVAL) × IsInvalid self.now (length tag.old) q × (text.new ≡ text.old) × (tag.new ≡ tag.old)) }
    {
        seal_kept(self.inner(), iv, aad, text, tag)
    }

    /// Opens a text in its place, under its tag. The tag has a size that the plan takes, or no bytes where the plan has
    /// none; `aad` and `text` have fewer than 2^32 bytes each. `EBADMSG` exactly where the tag is wrong, and `EINVAL`
    /// exactly where the request isn't taken or its value is `invalid`: the text is then unchanged.
    pub fn open_in_place(
        &self,
        iv: &[u8],
        aad: &[u8],
        text: &mut [u8],
        tag: &[u8],
    ) -> Result<(), Errno>
        requires tag_fits { fits_tag self.now.0 (length tag.now) ≡ true }
        requires aad_short { length aad.now < 2 ^ 32 }
        requires text_short { length text.old < 2 ^ 32 }
        ensures { let q = opening iv.now aad.now text.old tag.now in MatchResult result
            (λ _. HasValue self.now (length tag.now) q (bytes text.new))
            (λ e. IsRefused e self.now (length tag.now) q × (text.new ≡ text.old)) }
    {
        open_kept(self.inner(), iv, aad, text, tag)
    }

    /// Writes the MAC of a text to the front of `room`, and answers how many bytes it has: 32 under HMAC with SHA-256,
    /// 16 under CMAC. `EINVAL` exactly where the plan is no MAC.
    pub fn make_in_place(&self, text: &[u8], room: &mut [u8; 32]) -> Result<usize, Errno>
        ensures { MatchResult result
            (λ n. (n ≡ mac_size self.now.0) × (n ≤ 32) × HasValue self.now 0 (making text.now) (bytes (take n room.new)))
            (λ e. (e ≡ Errno.EINVAL) × IsInvalid self.now 0 (making text.now)) }
    {
        make_kept(self.inner(), text, room)
    }
}
