//! authenc over CBC, of eight texts.

ghost use Rattle.std.specs.Prelude.{◌≡◌, ℕ, Some, ◌<◌, ◌≤◌, length, slice_index};
ghost use Rattle.std_defs.specs.Authenc.{authenc_seal};
ghost use Rattle.std_defs.specs.Modes.{cbc_seal};
ghost use Rattle.in_step.specs.Pieces.{piece};
ghost use Rattle.in_step.specs.Texts.{AreWhole, ArePackets, text_in, front_in, rest_in, block_in};

use crate::cbc::seal_cbc_in_step;
use crate::macs::macs_in_step;
use crate::text::{Text, bytes_at};
use aes_block::BlockCipher;
use cbc_mode::Cbc;
use hmac_sha::Mac;

/// The first bytes of a text.
fn front<'a, T: Text>(texts: &'a [T], lengths: &[usize; 8], n: usize) -> &'a [u8]
    requires lane { n < 8 }
    requires within { slice_index lengths.now n ≤ length (text_in T.bytes_of texts.now n) }
    ensures { result.now ≡ front_in T.bytes_of lengths.now texts.now n }
{
    &bytes_at(texts, n)[..lengths[n]]
}

/// The first bytes of each text.
fn fronts<'a, T: Text>(texts: &'a [T], lengths: &[usize; 8]) -> [&'a [u8]; 8]
    requires { AreWhole T.bytes_of lengths.now texts.now }
    ensures { (n : ℕ) → n < 8 → piece result n ≡ front_in T.bytes_of lengths.now texts.now n }
{
    [
        front(texts, lengths, 0),
        front(texts, lengths, 1),
        front(texts, lengths, 2),
        front(texts, lengths, 3),
        front(texts, lengths, 4),
        front(texts, lengths, 5),
        front(texts, lengths, 6),
        front(texts, lengths, 7),
    ]
}

/// Seals the front of each of at most eight texts in place, under an IV of its own: the first `lengths[n]` bytes of
/// text `n`, which are whole blocks. What stands behind them stays as it is. The whole MACs of the associated bytes and
/// behind them the ciphertext. Those have fewer than 2^63 bytes together. No memory is taken.
pub fn seal_authenc_in_step<C: BlockCipher + Drop, T: Text>(
    mac: &Mac,
    mode: &Cbc<C>,
    ivs: &[[u8; 16]; 8],
    aads: &[&[u8]; 8],
    texts: &mut [T],
    lengths: &[usize; 8],
) -> [[u8; 32]; 8]
    requires { ArePackets T.bytes_of lengths.now aads.now texts.old }
    ensures sealed { (n : ℕ) → n < 8
        → authenc_seal mac.now (cbc_seal (C.sealed mode.now) (block_in ivs.now n)) (piece aads.now n)
        (front_in T.bytes_of lengths.now texts.old n)
        ≡ Some (front_in T.bytes_of lengths.now texts.new n, block_in result n) }
    ensures rest { (n : ℕ) → n < 8 → rest_in T.bytes_of lengths.now texts.new n ≡ rest_in T.bytes_of lengths.now texts.old n }
    ensures length { (n : ℕ) → n < 8 → length (text_in T.bytes_of texts.new n) ≡ length (text_in T.bytes_of texts.old n) }
    ensures count { length texts.new ≡ length texts.old }
{
    seal_cbc_in_step(mode, ivs, texts, lengths);
    macs_in_step(mac, aads, &fronts(texts, lengths))
}
