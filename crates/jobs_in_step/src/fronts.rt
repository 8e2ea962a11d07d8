//! The fronts of texts sealed where their caller has them, and a tag written behind each.

ghost use Rattle.std.specs.Prelude.{◌≡◌, ◌≢◌, ◌+◌, ◌<◌, ◌≤◌, ◌++◌, ℕ, length, take, drop, slice_index};
ghost use Rattle.in_step.specs.Texts as lanes;
ghost use Rattle.jobs_in_step.specs.Steps.{AreFronts, AreSealed, KeepRests, tag_room, cbc_gives, authenc_gives, sealed_by};

use crate::keys::StepKey;
use cbc_mode::Cbc;
use hmac_sha::Mac;
use in_step::{Text, seal_authenc_in_step, seal_cbc_in_step, write_at};
use transforms::AnyAes;

/// Writes the first bytes of the tag behind the first `len` bytes of text `n`, where there is such a text.
fn put_tag_at<T: Text>(texts: &mut [T], n: usize, len: usize, tag: &[u8; 32], tag_size: usize)
    requires tag { tag_size ≤ 32 }
    requires room { n < length texts.old → len + tag_size ≤ length (lanes.text_in T.bytes_of texts.old n) }
    ensures put { n < length texts.old → lanes.text_in T.bytes_of texts.new n
        ≡ take len (lanes.text_in T.bytes_of texts.old n) ++ take tag_size tag.now
        ++ drop (len + tag_size) (lanes.text_in T.bytes_of texts.old n) }
    ensures same { length (lanes.text_in T.bytes_of texts.new n) ≡ length (lanes.text_in T.bytes_of texts.old n) }
    ensures others { (k : ℕ) → k ≢ n → lanes.text_in T.bytes_of texts.new k ≡ lanes.text_in T.bytes_of texts.old k }
    ensures count { length texts.new ≡ length texts.old }
{
    if n < texts.len() {
        write_at(texts, n, len, &tag[..tag_size]);
    }
}

/// Writes the first bytes of each tag behind the first bytes of its text.
fn put_tags_at<T: Text>(
    texts: &mut [T],
    lengths: &[usize; 8],
    tags: &[[u8; 32]; 8],
    tag_size: usize,
)
    requires tag { tag_size ≤ 32 }
    requires room { (n : ℕ) → n < 8 → n < length texts.old
        → slice_index lengths.now n + tag_size ≤ length (lanes.text_in T.bytes_of texts.old n) }
    ensures put { (n : ℕ) → n < 8 → n < length texts.old → lanes.text_in T.bytes_of texts.new n
        ≡ lanes.front_in T.bytes_of lengths.now texts.old n ++ take tag_size (lanes.block_in tags.now n)
        ++ drop (slice_index lengths.now n + tag_size) (lanes.text_in T.bytes_of texts.old n) }
    ensures same { (n : ℕ) → length (lanes.text_in T.bytes_of texts.new n) ≡ length (lanes.text_in T.bytes_of texts.old n) }
    ensures count { length texts.new ≡ length texts.old }
{
    for n in 0..8usize {
        put_tag_at(texts, n, lengths[n], &tags[n], tag_size);
    }
}

/// Seals the front of each text under CBC, which has no tag.
fn seal_plain_fronts<T: Text>(
    mode: &Cbc<AnyAes>,
    ivs: &[[u8; 16]; 8],
    aads: &[&[u8]; 8],
    texts: &mut [T],
    lengths: &[usize; 8],
    tag_size: usize,
)
    requires fronts { AreFronts T.bytes_of lengths.now aads.now tag_size texts.old }
    requires tag { tag_size ≤ 0 }
    ensures sealed { AreSealed T.bytes_of (cbc_gives mode.now) ivs.now aads.now lengths.now tag_size texts.old texts.new }
    ensures rest { KeepRests T.bytes_of lengths.now tag_size texts.old texts.new }
    ensures same { (n : ℕ) → n < 8 → length (lanes.text_in T.bytes_of texts.new n) ≡ length (lanes.text_in T.bytes_of texts.old n) }
    ensures count { length texts.new ≡ length texts.old }
{
    let _associated = aads;
    seal_cbc_in_step(mode, ivs, texts, lengths);
}

/// Seals the front of each text under authenc over CBC, and writes its tag behind it.
fn seal_tagged_fronts<T: Text>(
    mac: &Mac,
    mode: &Cbc<AnyAes>,
    ivs: &[[u8; 16]; 8],
    aads: &[&[u8]; 8],
    texts: &mut [T],
    lengths: &[usize; 8],
    tag_size: usize,
)
    requires fronts { AreFronts T.bytes_of lengths.now aads.now tag_size texts.old }
    requires tag { tag_size ≤ 32 }
    ensures sealed { AreSealed T.bytes_of (authenc_gives mac.now mode.now) ivs.now aads.now lengths.now tag_size texts.old texts.new }
    ensures rest { KeepRests T.bytes_of lengths.now tag_size texts.old texts.new }
    ensures same { (n : ℕ) → n < 8 → length (lanes.text_in T.bytes_of texts.new n) ≡ length (lanes.text_in T.bytes_of texts.old n) }
    ensures count { length texts.new ≡ length texts.old }
{
    let tags = seal_authenc_in_step(mac, mode, ivs, aads, texts, lengths);
    put_tags_at(texts, lengths, &tags, tag_size);
}

/// Seals the front of each of at most eight texts in its place: the first `lengths[n]` bytes of text `n`, which are
/// whole blocks. A tag of `tag_size` bytes is written behind them: none under CBC, at most 32 under authenc. What
/// stands behind that stays as it is. A text and its associated bytes have fewer than 2^63 bytes together. No memory is
/// taken.
pub fn seal_fronts<T: Text>(
    key: StepKey<'_>,
    ivs: &[[u8; 16]; 8],
    aads: &[&[u8]; 8],
    texts: &mut [T],
    lengths: &[usize; 8],
    tag_size: usize,
)
    requires fronts { AreFronts T.bytes_of lengths.now aads.now tag_size texts.old }
    requires tag { tag_size ≤ tag_room key }
    ensures sealed { AreSealed T.bytes_of (sealed_by key.entry) ivs.now aads.now lengths.now tag_size texts.old texts.new }
    ensures rest { KeepRests T.bytes_of lengths.now tag_size texts.old texts.new }
    ensures same { (n : ℕ) → n < 8 → length (lanes.text_in T.bytes_of texts.new n) ≡ length (lanes.text_in T.bytes_of texts.old n) }
    ensures count { length texts.new ≡ length texts.old }
{
    match key {
        StepKey::Cbc(mode) => seal_plain_fronts(mode, ivs, aads, texts, lengths, tag_size),
        StepKey::Authenc(mac, mode) => {
            seal_tagged_fronts(mac, mode, ivs, aads, texts, lengths, tag_size)
        }
    }
}
