//! CCM.

ghost use Rattle.std.specs.Prelude.{◌≡◌, ◌≤◌, ◌<◌, ◌^◌, length, IsTrue, MatchResult, Some, None, slice_index};
ghost use Rattle.std_defs.specs.Blocks.{xor_blocks};
ghost use Rattle.std_defs.specs.Ccm.{ccm_takes_iv, ccm_takes_tag, ccm_counter, ccm_chained, ccm_text, ccm_seal, ccm_open};
ghost use Rattle.aes_block.specs.Opened.{Opens};

use crate::chain::{add_block, chain_block, chain_padded};
use crate::formatting::{Counter, chain_associated, counter_block, first_block};
use aes_block::{BlockCipher, tags_differ};
use ctr_mode::apply_key_stream;
use kc_base::Errno;
use std::marker::Model;

/// Whether a tag of `len` bytes is taken: 4, 6, 8, 10, 12, 14 or 16 of them (A.1).
pub fn takes_ccm_tag(len: usize) -> bool
    ensures { result ≡ ccm_takes_tag len }
{
    matches!(len, 4 | 6 | 8 | 10 | 12 | 14 | 16)
}

/// Whether byte 0 of an IV is q - 1, with q from 2 to 8 (A.1).
fn takes_iv(iv: &[u8; 16]) -> bool
    ensures { result ≡ ccm_takes_iv iv.now }
{
    1 <= iv[0] && iv[0] <= 7
}

/// CCM under a key, seen as its block cipher. An IV has 16 bytes: q - 1, the nonce of 15 - q bytes, and bytes that
/// aren't used; q is the length in bytes of the field of the text's length.
///
/// A nonce serves once under a key (SP 800-38C, 5.3). Two texts under one nonce give away the sum of both, and forgers
/// learn from them. A guess at a tag of n bytes is right once in 256^n tries: 4 and 6 bytes are for callers that see
/// each wrong tag and let in few, others take 8 or more (appendix B). All texts under a key have fewer than 2^60 blocks
/// together.
#[derive(Drop)]
pub struct Ccm<C: BlockCipher + Drop> {
    cipher: C,
}

impl<C: BlockCipher + Drop> Model for Ccm<C> {
    ghost Value = { C };

    ghost view = { λ mode. mode.cipher };
}

impl<C: BlockCipher + Drop> Ccm<C> {
    /// CCM over a cipher.
    pub fn new(cipher: C) -> Ccm<C>
        ensures { result ≡ cipher }
    {
        Ccm { cipher }
    }

    /// The cipher that it was made with.
    pub fn cipher(&self) -> &C
        ensures { result.now ≡ self.now }
    {
        &self.cipher
    }

    /// Makes the ciphertext of `b` in its place, and the tag of as many bytes as `tag` has (6.1): 4, 6, 8, 10, 12, 14
    /// or 16. `aad` has fewer than 65,280 bytes, `b` fewer than 65,536. The tag covers the nonce, `aad`, the plaintext
    /// and their lengths. `EINVAL` exactly where byte 0 of the IV isn't 1 to 7: all is then unchanged.
    pub fn seal(&self, iv: &[u8; 16], aad: &[u8], b: &mut [u8], tag: &mut [u8]) -> Result<(), Errno>
        requires aad_short { length aad.now < 65280 }
        requires text_short { length b.old < 65536 }
        requires tag_taken { IsTrue (ccm_takes_tag (length tag.old)) }
        ensures { let given = ccm_seal (C.sealed self.now) (length tag.old) iv.now aad.now b.old in
            MatchResult result
            (λ _. given ≡ Some (b.new, tag.new))
            (λ e. (e ≡ Errno.EINVAL) × (given ≡ None) × (b.new ≡ b.old) × (tag.new ≡ tag.old)) }
    {
        if !takes_iv(iv) {
            return Err(Errno::EINVAL);
        }
        let full = self.full_tag(iv, tag.len(), aad, b);
        tag.copy_from_slice(&full[..tag.len()]);
        self.apply(iv, b);
        Ok(())
    }

    /// Makes the plaintext of `b` in its place (6.2), under a tag of 4, 6, 8, 10, 12, 14 or 16 bytes. `aad` has fewer
    /// than 65,280 bytes, `b` fewer than 65,536. `EINVAL` exactly where byte 0 of the IV isn't 1 to 7, and then
    /// `EBADMSG` exactly where the tag isn't the plaintext's: `b` is unchanged in both cases.
    pub fn unseal(&self, iv: &[u8; 16], aad: &[u8], b: &mut [u8], tag: &[u8]) -> Result<(), Errno>
        requires aad_short { length aad.now < 65280 }
        requires text_short { length b.old < 65536 }
        requires tag_taken { IsTrue (ccm_takes_tag (length tag.now)) }
        ensures { Opens result (ccm_open (C.sealed self.now) iv.now aad.now b.old tag.now) b.old b.new }
    {
        if !takes_iv(iv) {
            return Err(Errno::EINVAL);
        }
        self.apply(iv, b);
        let full = self.full_tag(iv, tag.len(), aad, b);
        if tags_differ(&full, tag) {
            // back to the ciphertext: what no tag vouches for isn't given out
            self.apply(iv, b);
            return Err(Errno::EBADMSG);
        }
        Ok(())
    }

    /// Xors the text with the ciphers of the counter blocks from the second on (6.1, step 8).
    fn apply(&self, iv: &[u8; 16], text: &mut [u8])
        requires { slice_index iv.now 0 ≤ 7 }
        ensures { text.new ≡ ccm_text (C.sealed self.now) iv.now text.old }
    {
        apply_key_stream(&self.cipher, Counter { iv: *iv, next: 1 }, text);
    }

    /// All 16 bytes that a tag of `tag_len` bytes is the front of (6.1, steps 1 to 3 and 8).
    fn full_tag(&self, iv: &[u8; 16], tag_len: usize, aad: &[u8], text: &[u8]) -> [u8; 16]
        requires iv_taken { slice_index iv.now 0 ≤ 7 }
        requires tag_short { tag_len ≤ 16 }
        requires aad_short { length aad.now < 2 ^ 16 }
        ensures { result
            ≡ xor_blocks (ccm_chained (C.sealed self.now) tag_len iv.now aad.now text.now) (C.sealed self.now (ccm_counter iv.now 0)) }
    {
        let mut chain = [0u8; 16];
        chain_block(
            &self.cipher,
            &mut chain,
            &first_block(iv, tag_len, aad, text),
        );
        chain_associated(&self.cipher, &mut chain, aad);
        chain_padded(&self.cipher, &mut chain, text);
        let mut pad = counter_block(iv, 0);
        self.cipher.seal_block(&mut pad);
        add_block(&mut chain, &pad);
        chain
    }
}
