//! The modes with a tag.

ghost use Rattle.std.specs.Prelude.{◌≡◌, ◌≤◌, ◌^◌, ◌<◌, ℕ, Bool, List, length, IsTrue, true};
ghost use Rattle.std_defs.specs.Value.{Value};
ghost use Rattle.aes_block.specs.Opened.{Opens};
ghost use Rattle.transforms.specs.Tagged.{SealsInto};

use aes_block::{BlockCipher, Skcipher};
use authenc::Authenc;
use cmac_ccm::Ccm;
use gcm_mode::{Gcm, Rfc4106};
use ghash_field::GhashKey;
use kc_base::Errno;

/// A mode with a tag, under a key.
pub trait Aead {
    ghost iv_size: { Self → ℕ };

    /// The size of a whole tag.
    ghost tag_size: { Self → ℕ };

    /// Whether a tag of that size is taken.
    ghost takes_tag: { Self → ℕ → Bool };

    /// Whether an IV of its size is taken, with so many associated bytes and so many bytes of text.
    ghost takes_input: { Self → List ℕ → ℕ → ℕ → Bool };

    /// The ciphertext and the first bytes of its tag, as many as are asked for.
    ghost seals: { Self → ℕ → List ℕ → List ℕ → List ℕ → Value };

    /// The plaintext under a tag.
    ghost opens: { Self → List ℕ → List ℕ → List ℕ → List ℕ → Value };

    fn iv_len(&self) -> usize
        ensures { result ≡ iv_size self.now };

    /// Whether an IV is taken, with so many associated bytes and so many bytes of text.
    fn takes(&self, iv: &[u8], aad: usize, text: usize) -> bool
        requires { length iv.now ≡ iv_size self.now }
        ensures { result ≡ takes_input self.now iv.now aad text };

    fn seal(&self, iv: &[u8], aad: &[u8], b: &mut [u8], tag: &mut [u8]) -> Result<(), Errno>
        requires iv_fits { length iv.now ≡ iv_size self.now }
        requires tag_fits { length tag.old ≤ tag_size self.now }
        requires tag_taken { IsTrue (takes_tag self.now (length tag.old)) }
        requires input_taken { IsTrue (takes_input self.now iv.now (length aad.now) (length b.old)) }
        requires aad_short { length aad.now < 2 ^ 32 }
        requires text_short { length b.old < 2 ^ 32 }
        ensures { SealsInto result (seals self.now (length tag.old) iv.now aad.now b.old) b.old tag.old b.new tag.new };

    fn unseal(&self, iv: &[u8], aad: &[u8], b: &mut [u8], tag: &[u8]) -> Result<(), Errno>
        requires iv_fits { length iv.now ≡ iv_size self.now }
        requires tag_fits { length tag.now ≤ tag_size self.now }
        requires tag_taken { IsTrue (takes_tag self.now (length tag.now)) }
        requires input_taken { IsTrue (takes_input self.now iv.now (length aad.now) (length b.old)) }
        requires aad_short { length aad.now < 2 ^ 32 }
        requires text_short { length b.old < 2 ^ 32 }
        ensures { Opens result (opens self.now iv.now aad.now b.old tag.now) b.old b.new };
}

impl<C: BlockCipher + Drop, H: GhashKey + Drop> Aead for Gcm<C, H> {
    ghost use Rattle.std_defs.specs.Value.Value.{bytes};
    ghost use Rattle.std_defs.specs.Value.{or_bad_message};
    ghost use Rattle.std_defs.specs.Gcm.{gcm_seal, gcm_open, gcm_takes_tag};
    ghost use Rattle.transforms.specs.Tagged.{tagged};

    ghost iv_size = { λ _. 12 };

    ghost tag_size = { λ _. 16 };

    ghost takes_tag = { λ _ n. gcm_takes_tag n };

    ghost takes_input = { λ _ iv aad text. true };

    ghost seals = { λ mode n iv aad text. bytes (tagged n (gcm_seal (C.sealed mode) iv aad text)) };

    ghost opens = { λ mode iv aad text tag. or_bad_message (gcm_open (C.sealed mode) iv aad text tag) };

    fn iv_len(&self) -> usize {
        12
    }

    fn takes(&self, _iv: &[u8], _aad: usize, _text: usize) -> bool {
        true
    }

    fn seal(&self, iv: &[u8], aad: &[u8], b: &mut [u8], tag: &mut [u8]) -> Result<(), Errno> {
        let mut nonce = [0u8; 12];
        nonce.copy_from_slice(iv);
        let mut full = [0u8; 16];
        Gcm::seal(self, &nonce, aad, b, &mut full);
        tag.copy_from_slice(&full[..tag.len()]);
        Ok(())
    }

    fn unseal(&self, iv: &[u8], aad: &[u8], b: &mut [u8], tag: &[u8]) -> Result<(), Errno> {
        let mut nonce = [0u8; 12];
        nonce.copy_from_slice(iv);
        Gcm::unseal(self, &nonce, aad, b, tag)
    }
}

impl<C: BlockCipher + Drop, H: GhashKey + Drop> Aead for Rfc4106<C, H> {
    ghost use Rattle.std.specs.Option.{option_map};
    ghost use Rattle.std_defs.specs.Value.{or_invalid};
    ghost use Rattle.std_defs.specs.Rfc4106.{rfc4106_seal, rfc4106_open, rfc4106_takes_tag};
    ghost use Rattle.transforms.specs.Tagged.{tagged};

    ghost iv_size = { λ _. 8 };

    ghost tag_size = { λ _. 16 };

    ghost takes_tag = { λ _ n. rfc4106_takes_tag n };

    ghost takes_input = { λ _ iv aad text. true };

    ghost seals = { λ mode n iv aad text. or_invalid (option_map (tagged n) (rfc4106_seal (C.sealed mode.0) mode.1 iv aad text)) };

    ghost opens = { λ mode iv aad text tag. rfc4106_open (C.sealed mode.0) mode.1 iv aad text tag };

    fn iv_len(&self) -> usize {
        8
    }

    fn takes(&self, _iv: &[u8], _aad: usize, _text: usize) -> bool {
        true
    }

    fn seal(&self, iv: &[u8], aad: &[u8], b: &mut [u8], tag: &mut [u8]) -> Result<(), Errno> {
        let mut nonce = [0u8; 8];
        nonce.copy_from_slice(iv);
        let mut full = [0u8; 16];
        Rfc4106::seal(self, &nonce, aad, b, &mut full)?;
        tag.copy_from_slice(&full[..tag.len()]);
        Ok(())
    }

    fn unseal(&self, iv: &[u8], aad: &[u8], b: &mut [u8], tag: &[u8]) -> Result<(), Errno> {
        let mut nonce = [0u8; 8];
        nonce.copy_from_slice(iv);
        Rfc4106::unseal(self, &nonce, aad, b, tag)
    }
}

impl<C: BlockCipher + Drop> Aead for Ccm<C> {
    ghost use Rattle.std.specs.Option.{option_map};
    ghost use Rattle.std_defs.specs.Value.{or_invalid};
    ghost use Rattle.std_defs.specs.Ccm.{ccm_seal, ccm_open, ccm_takes_tag};
    ghost use Rattle.transforms.specs.Tagged.{joined};
    ghost use Rattle.transforms.specs.Plans.{ccm_takes_input};

    ghost iv_size = { λ _. 16 };

    ghost tag_size = { λ _. 16 };

    ghost takes_tag = { λ _ n. ccm_takes_tag n };

    ghost takes_input = { λ _ iv aad text. ccm_takes_input iv aad text };

    ghost seals = { λ mode n iv aad text. or_invalid (option_map joined (ccm_seal (C.sealed mode) n iv aad text)) };

    ghost opens = { λ mode iv aad text tag. ccm_open (C.sealed mode) iv aad text tag };

    fn iv_len(&self) -> usize {
        16
    }

    fn takes(&self, iv: &[u8], aad: usize, text: usize) -> bool {
        1 <= iv[0] && iv[0] <= 7 && aad < 65280 && text < 65536
    }

    fn seal(&self, iv: &[u8], aad: &[u8], b: &mut [u8], tag: &mut [u8]) -> Result<(), Errno> {
        let mut block = [0u8; 16];
        block.copy_from_slice(iv);
        Ccm::seal(self, &block, aad, b, tag)
    }

    fn unseal(&self, iv: &[u8], aad: &[u8], b: &mut [u8], tag: &[u8]) -> Result<(), Errno> {
        let mut block = [0u8; 16];
        block.copy_from_slice(iv);
        Ccm::unseal(self, &block, aad, b, tag)
    }
}

impl<S: Skcipher + Drop> Aead for Authenc<S> {
    ghost use Rattle.std.specs.Option.{option_map};
    ghost use Rattle.std_defs.specs.Value.{or_invalid};
    ghost use Rattle.std_defs.specs.Authenc.{authenc_seal, authenc_open};
    ghost use Rattle.transforms.specs.Tagged.{tagged};
    ghost use Rattle.transforms.specs.Plans.{authenc_takes_tag};

    ghost iv_size = { λ mode. S.iv_size mode.1 };

    ghost tag_size = { λ _. 32 };

    ghost takes_tag = { λ _ n. authenc_takes_tag n };

    ghost takes_input = { λ _ iv aad text. true };

    ghost seals = { λ mode n iv aad text. or_invalid (option_map (tagged n) (authenc_seal mode.0 (S.seals mode.1 iv) aad text)) };

    ghost opens = { λ mode iv aad text tag. authenc_open mode.0 (S.unseals mode.1 iv) aad text tag };

    fn iv_len(&self) -> usize {
        self.cipher().iv_len()
    }

    fn takes(&self, _iv: &[u8], _aad: usize, _text: usize) -> bool {
        true
    }

    fn seal(&self, iv: &[u8], aad: &[u8], b: &mut [u8], tag: &mut [u8]) -> Result<(), Errno> {
        let mut full = [0u8; 32];
        Authenc::seal(self, iv, aad, b, &mut full)?;
        tag.copy_from_slice(&full[..tag.len()]);
        Ok(())
    }

    fn unseal(&self, iv: &[u8], aad: &[u8], b: &mut [u8], tag: &[u8]) -> Result<(), Errno> {
        Authenc::unseal(self, iv, aad, b, tag)
    }
}
