//! Whether texts can be sealed in step.

ghost use Rattle.std.specs.Prelude.{◌≡◌, ◌↔◌, ◌+◌, ◌%◌, ◌^◌, ◌<◌, ◌≤◌, length, IsTrue};
ghost use Rattle.in_step.specs.Texts.{ArePackets};

use crate::text::{Text, bytes_at};

/// More bytes than two slices have together.
const MOST: usize = 9_223_372_036_854_775_808;

/// Whether a length is one of whole blocks within its text, and with the associated bytes one of fewer than 2^63.
fn fits(aad: &[u8], text: &[u8], len: usize) -> bool
    ensures { IsTrue result ↔ ((len % 16 ≡ 0) × (len ≤ length text.now) × (length aad.now + len < 2 ^ 63)) }
{
    len % 16 == 0 && len <= text.len() && len < MOST && aad.len() < MOST - len
}

/// Whether each length is one of whole blocks within its text, and with the associated bytes one of fewer than 2^63.
pub fn fit_in_step<T: Text>(aads: &[&[u8]; 8], texts: &[T], lengths: &[usize; 8]) -> bool
    ensures { IsTrue result ↔ ArePackets T.bytes_of lengths.now aads.now texts.now }
{
    for n in 0..8usize {
        if !fits(aads[n], bytes_at(texts, n), lengths[n]) {
            return false;
        }
    }
    true
}
