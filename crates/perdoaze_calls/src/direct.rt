//! Sealing under CBC from the text into the place of its answer: nothing is copied there first.

ghost use Rattle.std.specs.Prelude.{◌≡◌, ◌≤◌, ◌*◌, ◌+◌, ◌/◌, ◌%◌, ◌++◌, suc, length, take, drop, true, Some, IsTrue, IsFalse};
ghost use Rattle.std_defs.specs.Aes.{seal};
ghost use Rattle.std_defs.specs.Blocks.{xor_blocks, text_block, joined};
ghost use Rattle.std_defs.specs.Modes.{cbc_block, cbc_seal};
ghost use Rattle.std_defs.specs.Value.Value.{bytes};
ghost use Rattle.jobs_in_step.specs.Steps.{authenc_gives, sealed_by, tag_room, takes_associated};
ghost use Rattle.transforms.specs.Forms.{key_of};
ghost use Rattle.transforms.specs.InPlace as kept;
ghost use Rattle.transforms.specs.InPlace.{sealing};

use crate::pieces::put_behind;
use aes_block::{BlockCipher, xor_block};
use cbc_mode::Cbc;
use hmac_sha::Mac;
use jobs_in_step::{StepKey, step_key};
use transforms::{AnyAes, Keyed};

/// Block `i` of the text.
#[tactic(auto, unfolding(std_defs::specs::Blocks::text_block))]
fn block_at(text: &[u8], i: usize) -> [u8; 16]
    requires { 16 * i + 16 ≤ length text.now }
    ensures { result ≡ text_block text.now i }
{
    let mut block = [0u8; 16];
    block.copy_from_slice(&text[16 * i..16 * i + 16]);
    block
}

/// Adds the block `b` to the chain.
fn add_block(chain: &mut [u8; 16], b: &[u8; 16])
    ensures { chain.new ≡ xor_blocks b.now chain.old }
{
    xor_block(chain, b);
}

/// Seals each block of `from`, which has whole blocks, into its place in `into`.
fn seal_blocks<C: BlockCipher>(cipher: &C, iv: &[u8; 16], from: &[u8], into: &mut [u8])
    requires whole { length from.now % 16 ≡ 0 }
    requires room { length from.now ≤ length into.old }
    ensures { into.new ≡ joined (λ j. cbc_block (C.sealed cipher.now) iv.now from.now (suc j)) (length from.now / 16)
        ++ drop (length from.now) into.old }
{
    let mut chain = *iv;
    for i in 0..from.len() / 16 {
        add_block(&mut chain, &block_at(from, i));
        cipher.seal_block(&mut chain);
        into[16 * i..16 * i + 16].copy_from_slice(&chain);
    }
}

/// The same by AES in any form, which is chosen once for all blocks.
fn seal_under(aes: &AnyAes, iv: &[u8; 16], from: &[u8], into: &mut [u8])
    requires whole { length from.now % 16 ≡ 0 }
    requires room { length from.now ≤ length into.old }
    ensures { into.new ≡ joined (λ j. cbc_block (seal (key_of aes.now)) iv.now from.now (suc j)) (length from.now / 16)
        ++ drop (length from.now) into.old }
{
    match aes {
        AnyAes::Generic(aes) => seal_blocks(aes, iv, from, into),
        AnyAes::Table(aes) => seal_blocks(aes, iv, from, into),
        AnyAes::Lanes(aes) => seal_blocks(&**aes, iv, from, into),
    }
}

/// Seals `from`, which has whole blocks, into the front of `into`, under an IV of 16 bytes.
fn seal_cbc(mode: &Cbc<AnyAes>, iv: &[u8], from: &[u8], into: &mut [u8])
    requires iv { length iv.now ≡ 16 }
    requires whole { length from.now % 16 ≡ 0 }
    requires room { length from.now ≤ length into.old }
    ensures sealed { cbc_seal (seal (key_of mode.now)) iv.now from.now ≡ Some (take (length from.now) into.new) }
    ensures rest { drop (length from.now) into.new ≡ drop (length from.now) into.old }
    ensures len { length into.new ≡ length into.old }
{
    let mut before = [0u8; 16];
    before.copy_from_slice(iv);
    seal_under(mode.cipher(), &before, from, into);
}

/// The same under authenc over CBC, and writes the tag behind the ciphertext.
fn seal_authenc(
    mac: &Mac,
    mode: &Cbc<AnyAes>,
    iv: &[u8],
    aad: &[u8],
    text: &[u8],
    out: &mut [u8],
    tag_size: usize,
)
    requires iv { length iv.now ≡ 16 }
    requires whole { length text.now % 16 ≡ 0 }
    requires tag { tag_size ≤ 32 }
    requires room { length text.now + tag_size ≤ length out.old }
    ensures sealed { authenc_gives mac.now mode.now tag_size (sealing iv.now aad.now text.now)
        ≡ bytes (take (length text.now + tag_size) out.new) }
    ensures rest { drop (length text.now + tag_size) out.new ≡ drop (length text.now + tag_size) out.old }
    ensures len { length out.new ≡ length out.old }
{
    seal_cbc(mode, iv, text, out);
    let tag = mac.mac(aad, &out[..text.len()]);
    put_behind(&tag[..tag_size], text.len(), out);
}

/// The same under either.
fn seal_by(key: StepKey<'_>, iv: &[u8], aad: &[u8], text: &[u8], out: &mut [u8], tag_size: usize)
    requires iv { length iv.now ≡ 16 }
    requires whole { length text.now % 16 ≡ 0 }
    requires tag { tag_size ≤ tag_room key }
    requires room { length text.now + tag_size ≤ length out.old }
    ensures sealed { sealed_by key.entry tag_size (sealing iv.now aad.now text.now) ≡ bytes (take (length text.now + tag_size) out.new) }
    ensures rest { drop (length text.now + tag_size) out.new ≡ drop (length text.now + tag_size) out.old }
    ensures len { length out.new ≡ length out.old }
{
    match key {
        StepKey::Cbc(mode) => seal_cbc(mode, iv, text, out),
        StepKey::Authenc(mac, mode) => seal_authenc(mac, mode, iv, aad, text, out, tag_size),
    }
}

/// Whether the text has whole blocks, and IV, associated bytes and tag are taken.
fn goes_directly(key: StepKey<'_>, iv: &[u8], aad: &[u8], text: &[u8], tag_size: usize) -> bool
    ensures { IsTrue result → (length iv.now ≡ 16) × (length text.now % 16 ≡ 0)
        × (takes_associated key.entry (length aad.now) ≡ true) × (tag_size ≤ tag_room key.entry) }
{
    iv.len() == 16
        && text.len() % 16 == 0
        && key.takes_associated(aad.len())
        && tag_size <= key.most_tag()
}

/// Seals the text into the front of `out`, and writes the tag behind the ciphertext, where the plan is CBC or authenc
/// over it and the request is taken. Otherwise nothing is done.
pub(crate) fn seal_directly(
    keyed: &Keyed,
    iv: &[u8],
    aad: &[u8],
    text: &[u8],
    out: &mut [u8],
    tag_size: usize,
) -> bool
    requires room { length text.now + tag_size ≤ length out.old }
    ensures sealed { IsTrue result
        → kept.HasValue keyed.now tag_size (sealing iv.now aad.now text.now) (bytes (take (length text.now + tag_size) out.new)) }
    ensures rest { IsTrue result → drop (length text.now + tag_size) out.new ≡ drop (length text.now + tag_size) out.old }
    ensures undone { IsFalse result → out.new ≡ out.old }
    ensures len { length out.new ≡ length out.old }
{
    let Some(key) = step_key(keyed) else {
        return false;
    };
    if !goes_directly(key, iv, aad, text, tag_size) {
        return false;
    }
    seal_by(key, iv, aad, text, out, tag_size);
    true
}
