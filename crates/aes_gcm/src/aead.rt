//! AES-GCM under a key.

ghost use Rattle.std.specs.Prelude.{◌≡◌, ◌<◌, ◌^◌, length, Some, None, MatchResult};
ghost use Rattle.std_defs.specs.Aes.{IsKeyLength, seal as aes};
ghost use Rattle.std_defs.specs.Gcm.{gcm_seal, gcm_open};

use crate::error::AesGcmError;
use aes_lanes::LaneAes;
use gcm_mode::Gcm;
use ghash_field::LaneGhash;
use std::marker::Model;

/// AES-GCM under a key of 16, 24 or 32 bytes. It is about 7 KiB large, and takes no memory beside. Contracts see the
/// key.
#[derive(Drop)]
pub struct AesGcm {
    mode: Gcm<LaneAes, LaneGhash>,
}

impl Model for AesGcm {
    ghost use Rattle.aes_block.specs.Key.{AesKey, key_code};

    ghost Value = { AesKey };

    ghost coded = { key_code };

    ghost view = { λ aead. aead.mode };
}

impl AesGcm {
    /// AES-GCM under `key`. `KeyLength` exactly where the key has neither 16, 24 nor 32 bytes.
    pub fn new(key: &[u8]) -> Result<AesGcm, AesGcmError>
        ensures { MatchResult result
            (λ aead. IsKeyLength (length key.now) × (aead.bytes ≡ key.now))
            (λ e. (e ≡ AesGcmError.KeyLength) × ¬ (IsKeyLength (length key.now))) }
    {
        match LaneAes::new(key) {
            Ok(cipher) => Ok(AesGcm {
                mode: Gcm::new(cipher),
            }),
            Err(_) => Err(AesGcmError::KeyLength),
        }
    }

    /// Makes the ciphertext of `text` in its place, and gives the tag, which covers `associated` and the ciphertext
    /// (7.1). `nonce` must be new under this key. Both `associated` and `text` have fewer than 2^32 bytes.
    pub fn seal(&self, nonce: &[u8; 12], associated: &[u8], text: &mut [u8]) -> [u8; 16]
        requires associated_short { length associated.now < 2 ^ 32 }
        requires text_short { length text.old < 2 ^ 32 }
        ensures sealed { (text.new, result) ≡ gcm_seal (aes self.now.bytes) nonce.now associated.now text.old }
        ensures opens { gcm_open (aes self.now.bytes) nonce.now associated.now text.new result ≡ Some text.old }
    {
        let mut tag = [0; 16];
        self.mode.seal(nonce, associated, text, &mut tag);
        tag
    }

    /// Makes the plaintext of `text` in its place (7.2). `WrongTag` exactly where `tag` isn't the tag of the nonce, the
    /// associated bytes and the ciphertext: the text is then unchanged. Both `associated` and `text` have fewer than
    /// 2^32 bytes.
    pub fn open(
        &self,
        nonce: &[u8; 12],
        associated: &[u8],
        text: &mut [u8],
        tag: &[u8; 16],
    ) -> Result<(), AesGcmError>
        requires associated_short { length associated.now < 2 ^ 32 }
        requires text_short { length text.old < 2 ^ 32 }
        ensures { let opened = gcm_open (aes self.now.bytes) nonce.now associated.now text.old tag.now in
            MatchResult result (λ _. opened ≡ Some text.new) (λ e. (e ≡ AesGcmError.WrongTag) × (opened ≡ None) × (text.new ≡ text.old)) }
    {
        match self.mode.unseal(nonce, associated, text, tag) {
            Ok(()) => Ok(()),
            Err(_) => Err(AesGcmError::WrongTag),
        }
    }
}
