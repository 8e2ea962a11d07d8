//! The key blob.

ghost use Rattle.std.specs.Prelude.{◌≡◌, Some, None, MatchResult};
ghost use Rattle.std_defs.specs.Authenc.{blob};

use kc_base::Errno;

/// What a blob begins with: the length of its header and the kind of what follows, each in two bytes, the low one
/// first.
const HEADER: [u8; 4] = [0x08, 0x00, 0x01, 0x00];

/// The two keys of a blob.
#[derive(Drop)]
pub struct Blob<'a> {
    /// The MAC key, of any length.
    pub mac: &'a [u8],
    /// The cipher key, of the length that the blob names.
    pub cipher: &'a [u8],
}

/// Reads a key blob: a header of 8 bytes, whose last 4 are the length of the cipher key with the high byte first, then
/// the MAC key and the cipher key. `EINVAL` exactly where the header isn't whole or isn't that of a blob, or fewer
/// bytes follow it than the cipher key has.
#[tactic(auto, unfolding(std_defs::specs::Authenc::blob, std_defs::specs::Authenc::is_blob, std_defs::specs::Authenc::blob_keys, std_defs::specs::Authenc::mac_key_length, std_defs::specs::Authenc::cipher_key_length))]
pub fn read_blob(key: &[u8]) -> Result<Blob<'_>, Errno>
    ensures { MatchResult result (λ b. blob key.now ≡ Some (b.mac.now, b.cipher.now)) (λ e. (e ≡ Errno.EINVAL) × (blob key.now ≡ None)) }
{
    if key.len() < 8 || &key[..4] != HEADER.as_slice() {
        return Err(Errno::EINVAL);
    }
    let mut length = [0u8; 4];
    length.copy_from_slice(&key[4..8]);
    let cipher_length = u32::from_be_bytes(length) as usize;
    let keys = &key[8..];
    if keys.len() < cipher_length {
        return Err(Errno::EINVAL);
    }
    let (mac, cipher) = keys.split_at(keys.len() - cipher_length);
    Ok(Blob { mac, cipher })
}
