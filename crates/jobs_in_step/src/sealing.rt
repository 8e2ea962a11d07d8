//! Eight texts sealed where they lie.

ghost use Rattle.std.specs.Prelude.{◌≡◌, ◌+◌, ◌-◌, ◌<◌, ◌≤◌, ◌++◌, ℕ, List, [], None, length, take, slice_index, slice_index_or};
ghost use Rattle.jobs_in_step.specs.Lanes.{text_in, IsReady, IsAnswer};
ghost use Rattle.jobs_in_step.specs.Steps.{plain_room, tagged_room, cbc_gives, authenc_gives, room_by, sealed_by};

use crate::keys::StepKey;
use crate::lanes::{aads_of, ivs_of, lengths_of};
use cbc_mode::Cbc;
use hmac_sha::Mac;
use in_step::{seal_authenc_in_step, seal_cbc_in_step};
use std::sync::Arc;
use transforms::{AnyAes, Ask};

/// Writes the front of the tag behind the first bytes of the text, up to its end.
fn put_tag(text: &mut Vec<u8>, len: usize, tag: &[u8; 32])
    requires { len ≤ length text.old.items }
    ensures { length text.old.items ≤ len + 32
        → text.new.items ≡ take len text.old.items ++ take (length text.old.items - len) tag.now }
{
    let count = (text.len() - len).min(32);
    text[len..len + count].copy_from_slice(&tag[..count]);
}

/// Writes the front of each tag behind the first bytes of its text.
fn put_tags(texts: &mut [Vec<u8>; 8], lengths: &[usize; 8], tags: &[[u8; 32]; 8])
    requires { (n : ℕ) → n < 8 → slice_index lengths.now n ≤ length (text_in texts.old n) }
    ensures { (n : ℕ) → n < 8 → length (text_in texts.old n) ≤ slice_index lengths.now n + 32
        → text_in texts.new n ≡ take (slice_index lengths.now n) (text_in texts.old n)
        ++ take (length (text_in texts.old n) - slice_index lengths.now n) (slice_index_or tags.now n []) }
{
    for n in 0..8usize {
        put_tag(&mut texts[n], lengths[n], &tags[n]);
    }
}

/// Seals each lane's text under CBC.
fn seal_plain(mode: &Cbc<AnyAes>, asks: &[Option<Arc<Ask>>; 8], texts: &mut [Vec<u8>; 8])
    requires { (n : ℕ) → n < 8 → IsReady plain_room (slice_index_or asks.now n None) (text_in texts.old n) }
    ensures { (n : ℕ) → n < 8 → IsAnswer (cbc_gives mode.now) (slice_index_or asks.now n None) (text_in texts.new n) }
{
    seal_cbc_in_step(mode, &ivs_of(asks), texts, &lengths_of(asks));
}

/// Seals each lane's text under authenc over CBC, and writes its tag behind it.
fn seal_tagged(
    mac: &Mac,
    mode: &Cbc<AnyAes>,
    asks: &[Option<Arc<Ask>>; 8],
    texts: &mut [Vec<u8>; 8],
)
    requires { (n : ℕ) → n < 8 → IsReady tagged_room (slice_index_or asks.now n None) (text_in texts.old n) }
    ensures { (n : ℕ) → n < 8 → IsAnswer (authenc_gives mac.now mode.now) (slice_index_or asks.now n None) (text_in texts.new n) }
{
    let lengths = lengths_of(asks);
    let tags = seal_authenc_in_step(mac, mode, &ivs_of(asks), &aads_of(asks), texts, &lengths);
    put_tags(texts, &lengths, &tags);
}

/// Seals each lane's text by what is kept of the key.
pub fn seal_by(key: StepKey<'_>, asks: &[Option<Arc<Ask>>; 8], texts: &mut [Vec<u8>; 8])
    requires { (n : ℕ) → n < 8 → IsReady (room_by key) (slice_index_or asks.now n None) (text_in texts.old n) }
    ensures { (n : ℕ) → n < 8 → IsAnswer (sealed_by key.entry) (slice_index_or asks.now n None) (text_in texts.new n) }
{
    match key {
        StepKey::Cbc(mode) => seal_plain(mode, asks, texts),
        StepKey::Authenc(mac, mode) => seal_tagged(mac, mode, asks, texts),
    }
}
