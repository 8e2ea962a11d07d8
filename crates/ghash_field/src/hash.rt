//! GHASH over bytes.

ghost use Rattle.std.specs.Prelude.{◌≡◌, ◌≤◌, ◌-◌, ◌*◌, ◌%◌, ◌∷◌, ◌++◌, [], length, replicate, bit_xor};
ghost use Rattle.std.specs.Int.{div_ceil};
ghost use Rattle.std_defs.specs.Blocks.{block_bytes as bytes_of};
ghost use Rattle.std_defs.specs.GhashField.{field_product, field_power, ghash};
ghost use Rattle.std_defs.specs.Gcm.{padded, padded_blocks};
ghost use Rattle.std_defs.proofs.Horner.{horner};

use crate::block::block_at;
use crate::key::GhashKey;
use std_defs::block_bytes;

/// GHASH carried on from `y`, its value so far, over the blocks of `bytes` with zeros behind them (NIST SP 800-38D,
/// 6.4). What comes is the sum of powers: `y` times H to the number of these blocks, and their own GHASH.
pub fn absorb<K: GhashKey>(key: &K, y: u128, bytes: &[u8]) -> u128
    ensures { let h = K.block key.now in let blocks = padded_blocks bytes.now in
        result ≡ bit_xor (field_product y (field_power h (length blocks))) (ghash h blocks) }
{
    carried_on(key, y, bytes)
}

/// GHASH of the blocks of `associated` with zeros behind them, of those of `text` with zeros behind them, and of the
/// block `last` (NIST SP 800-38D, 6.4 and 7.1, step 5). Up to eight last blocks are multiplied at once, so a short
/// packet takes one step.
pub fn ghash_of<K: GhashKey>(key: &K, associated: &[u8], text: &[u8], last: u128) -> u128
    ensures { result ≡ ghash (K.block key.now) (padded_blocks associated.now ++ padded_blocks text.now ++ last ∷ []) }
{
    if !associated.is_empty() && associated.len() <= 16 && text.len() <= 96 {
        return hash_last(key, block_at(associated, 0), text, last);
    }
    let after_associated = carried_on(key, 0, associated);
    let front = front_len(text.len());
    let after_front = carried_on(key, after_associated, &text[..front]);
    finish(key, after_front, &text[front..], last)
}

/// The hash carried on from `y`, each block added and the sum multiplied.
fn carried_on<K: GhashKey>(key: &K, y: u128, bytes: &[u8]) -> u128
    ensures { result ≡ horner (K.block key.now) y (padded_blocks bytes.now) }
{
    let mut y = y;
    let eights = bytes.len() / 128;
    for i in 0..eights {
        y = key.absorb_eight(y, &bytes[128 * i..128 * i + 128]);
    }
    for i in 8 * eights..bytes.len().div_ceil(16) {
        y = key.product(y ^ block_at(bytes, i));
    }
    y
}

/// How many bytes of a text of `len` come before its last blocks: whole blocks, such that at most seven are left.
fn front_len(len: usize) -> usize
    ensures whole { result % 16 ≡ 0 }
    ensures within { result ≤ len }
    ensures rest { len - result ≤ 112 }
{
    let rest = len % 128;
    if rest > 112 {
        len - rest + 16
    } else {
        len - rest
    }
}

/// The hash carried on from `y` over at most seven blocks and the last.
fn finish<K: GhashKey>(key: &K, y: u128, rest: &[u8], last: u128) -> u128
    requires { length rest.now ≤ 112 }
    ensures { result ≡ horner (K.block key.now) y (padded_blocks rest.now ++ last ∷ []) }
{
    if rest.is_empty() {
        return key.product(y ^ last);
    }
    let behind = &rest[rest.len().min(16)..];
    hash_last(key, y ^ block_at(rest, 0), behind, last)
}

/// The hash of the block `first`, of at most six blocks and of the block `last`. Blocks of zeros before them change
/// nothing.
fn hash_last<K: GhashKey>(key: &K, first: u128, rest: &[u8], last: u128) -> u128
    requires { length rest.now ≤ 96 }
    ensures { result ≡ horner (K.block key.now) 0 (first ∷ padded_blocks rest.now ++ last ∷ []) }
{
    key.absorb_eight(0, &eight_at_the_end(first, rest, last))
}

/// Eight blocks: zeros, the block `first`, the blocks of `rest`, and the block `last`.
fn eight_at_the_end(first: u128, rest: &[u8], last: u128) -> [u8; 128]
    requires { length rest.now ≤ 96 }
    ensures { result ≡ replicate (96 - 16 * div_ceil (length rest.now) 16) 0 ++ bytes_of first ++ padded rest.now ++ bytes_of last }
{
    let start = 96 - 16 * rest.len().div_ceil(16);
    let mut eight = [0u8; 128];
    eight[start..start + 16].copy_from_slice(&block_bytes(first));
    eight[start + 16..start + 16 + rest.len()].copy_from_slice(rest);
    eight[112..].copy_from_slice(&block_bytes(last));
    eight
}
