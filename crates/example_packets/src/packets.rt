//! Packets under GCM, and under its form in ESP.

ghost use Rattle.std.specs.Prelude.{◌≡◌, ◌^◌, ◌<◌, ◌++◌, length, Some, None, IsOk, MatchResult};
ghost use Rattle.std_defs.specs.Aes.{seal};
ghost use Rattle.std_defs.specs.Gcm.{gcm_seal, gcm_open};
ghost use Rattle.std_defs.specs.Rfc4106.{rfc4106_seal, rfc4106_open};
ghost use Rattle.std_defs.specs.Hmac.{hmac};
ghost use Rattle.std_defs.specs.Value.{or_bad_message};
ghost use Rattle.aes_block.specs.Opened.{Opens};

use aes_gcm::{AesGcm, AesGcmError};
use aes_lanes::LaneAes;
use gcm_mode::{Gcm, Rfc4106};
use ghash_field::LaneGhash;
use hmac_sha::Mac;
use kc_base::Errno;

/// AES-GCM under a key of 128 bits.
pub fn gcm_under(key: &[u8; 16]) -> AesGcm
    ensures { result.bytes ≡ key.now }
{
    // AES takes 16 bytes
    AesGcm::new(key).unwrap()
}

/// Makes the ciphertext of `text` in its place, and gives its tag.
pub fn seal_packet(key: &[u8; 16], iv: &[u8; 12], header: &[u8], text: &mut [u8]) -> [u8; 16]
    requires header_short { length header.now < 2 ^ 32 }
    requires text_short { length text.old < 2 ^ 32 }
    ensures { (text.new, result) ≡ gcm_seal (seal key.now) iv.now header.now text.old }
{
    gcm_under(key).seal(iv, header, text)
}

/// Makes the plaintext of `text` in its place. `WrongTag` exactly where the tag isn't that of the header and the text,
/// and the text is then unchanged.
pub fn open_packet(
    key: &[u8; 16],
    iv: &[u8; 12],
    header: &[u8],
    text: &mut [u8],
    tag: &[u8; 16],
) -> Result<(), AesGcmError>
    requires header_short { length header.now < 2 ^ 32 }
    requires text_short { length text.old < 2 ^ 32 }
    ensures { let opened = gcm_open (seal key.now) iv.now header.now text.old tag.now in
        MatchResult result (λ _. opened ≡ Some text.new) (λ e. (e ≡ AesGcmError.WrongTag) × (opened ≡ None) × (text.new ≡ text.old)) }
{
    gcm_under(key).open(iv, header, text, tag)
}

/// Seals a text and opens it again.
pub fn seal_and_open(
    key: &[u8; 16],
    iv: &[u8; 12],
    header: &[u8],
    text: &mut [u8],
) -> Result<(), AesGcmError>
    requires header_short { length header.now < 2 ^ 32 }
    requires text_short { length text.old < 2 ^ 32 }
    ensures opens { IsOk result }
    ensures same { text.new ≡ text.old }
{
    let aead = gcm_under(key);
    let tag = aead.seal(iv, header, text);
    aead.open(iv, header, text, &tag)
}

/// The form of ESP, over a salt of four bytes.
pub fn esp_under(key: &[u8; 16], salt: [u8; 4]) -> Rfc4106<LaneAes, LaneGhash>
    ensures { (result.0.bytes ≡ key.now) × (result.1 ≡ salt) }
{
    // AES takes 16 bytes
    Rfc4106::new(Gcm::new(LaneAes::new(key).unwrap()), salt)
}

/// The associated bytes of a packet of ESP: its header, then its IV.
fn associated_of(header: &[u8; 12], iv: &[u8; 8]) -> [u8; 20]
    ensures { result ≡ header.now ++ iv.now }
{
    let mut whole = [0u8; 20];
    whole[..12].copy_from_slice(header);
    whole[12..].copy_from_slice(iv);
    whole
}

/// Makes the ciphertext of `text` in its place as ESP has it under an extended sequence number (RFC 4106), and gives
/// its tag.
pub fn seal_esp(
    mode: &Rfc4106<LaneAes, LaneGhash>,
    iv: &[u8; 8],
    header: &[u8; 12],
    text: &mut [u8],
) -> [u8; 16]
    requires { length text.old < 2 ^ 32 }
    ensures { rfc4106_seal (seal mode.now.0.bytes) mode.now.1 iv.now (header.now ++ iv.now) text.old ≡ Some (text.new, result) }
{
    let mut tag = [0; 16];
    // 20 associated bytes are always taken
    mode.seal(iv, &associated_of(header, iv), text, &mut tag)
        .unwrap();
    tag
}

/// Makes the plaintext of `text` in its place as ESP has it. `EBADMSG` exactly where the tag isn't that of the header
/// and the text, and the text is then unchanged.
pub fn open_esp(
    mode: &Rfc4106<LaneAes, LaneGhash>,
    iv: &[u8; 8],
    header: &[u8; 12],
    text: &mut [u8],
    tag: &[u8; 16],
) -> Result<(), Errno>
    requires { length text.old < 2 ^ 32 }
    ensures { Opens result
        (rfc4106_open (seal mode.now.0.bytes) mode.now.1 iv.now (header.now ++ iv.now) text.old tag.now)
        text.old text.new }
{
    mode.unseal(iv, &associated_of(header, iv), text, tag)
}

/// The MAC of a message: HMAC with SHA-256.
pub fn mac_of(key: &[u8], message: &[u8]) -> [u8; 32]
    ensures { result ≡ hmac key.now message.now }
{
    Mac::new(key).mac(message, &[])
}
