//! ChaCha20 under a key.

ghost use Rattle.std.specs.Prelude.{◌≡◌, ℕ, ◌+◌, ◌-◌, ◌*◌, ◌/◌, ◌^◌, ◌<◌, ◌≤◌, length, take, drop, replicate, slice_index, bit_xor};
ghost use Rattle.std.specs.Int.{w32, from_le_bytes, div_ceil};
ghost use Rattle.std_defs.specs.ChaCha20.{chacha20, stream_byte, words};

use crate::stream::xor_eight;
use std::marker::Model;

/// Word `i` of bytes, from 0 (2.3).
fn word_at(bytes: &[u8], i: usize) -> u32
    requires { 4 * i + 4 ≤ length bytes.now }
    ensures { result ≡ from_le_bytes w32 (take 4 (drop (4 * i) bytes.now)) }
{
    u32::from_le_bytes([
        bytes[4 * i],
        bytes[4 * i + 1],
        bytes[4 * i + 2],
        bytes[4 * i + 3],
    ])
}

/// The words of a key.
fn key_words(key: &[u8; 32]) -> [u32; 8]
    ensures { result ≡ words 8 key.now }
{
    [
        word_at(key, 0),
        word_at(key, 1),
        word_at(key, 2),
        word_at(key, 3),
        word_at(key, 4),
        word_at(key, 5),
        word_at(key, 6),
        word_at(key, 7),
    ]
}

/// The words of a nonce.
fn nonce_words(nonce: &[u8; 12]) -> [u32; 3]
    ensures { result ≡ words 3 nonce.now }
{
    [word_at(nonce, 0), word_at(nonce, 1), word_at(nonce, 2)]
}

/// Adds eight blocks of the stream to the 512 bytes at a place.
#[inline(always)]
fn xor_eight_at(text: &mut [u8], at: usize, key: &[u32; 8], counter: u32, nonce: &[u32; 3])
    requires { at + 512 ≤ length text.old }
    ensures long { length text.new ≡ length text.old }
    ensures before { (i : ℕ) → i < at → slice_index text.new i ≡ slice_index text.old i }
    ensures there { (k : ℕ) → k < 512
        → slice_index text.new (at + k) ≡ bit_xor (slice_index text.old (at + k)) (stream_byte key.now nonce.now counter k) }
    ensures behind { (i : ℕ) → at + 512 ≤ i → slice_index text.new i ≡ slice_index text.old i }
{
    xor_eight(&mut text[at..at + 512], key, counter, nonce);
}

/// Adds bytes to a text that is no longer.
fn xor_bytes(text: &mut [u8], bytes: &[u8])
    requires { length text.old ≤ length bytes.now }
    ensures { (k : ℕ) → k < length text.old → slice_index text.new k ≡ bit_xor (slice_index text.old k) (slice_index bytes.now k) }
{
    for k in 0..text.len() {
        text[k] ^= bytes[k];
    }
}

/// Adds the bytes of a stream, from its place `from` on, to those of a text from a place on, as far as both go.
fn xor_part(text: &mut [u8], at: usize, stream: &[u8; 512], from: usize)
    requires at { at ≤ length text.old }
    requires from { from ≤ 512 }
    ensures long { length text.new ≡ length text.old }
    ensures before { (i : ℕ) → i < at → slice_index text.new i ≡ slice_index text.old i }
    ensures there { (k : ℕ) → at + k < length text.old → from + k < 512
        → slice_index text.new (at + k) ≡ bit_xor (slice_index text.old (at + k)) (slice_index stream.now (from + k)) }
    ensures behind { (i : ℕ) → at + 512 ≤ i + from → slice_index text.new i ≡ slice_index text.old i }
{
    let count = (text.len() - at).min(512 - from);
    xor_bytes(&mut text[at..at + count], &stream[from..from + count]);
}

/// Eight blocks of the stream.
#[inline(always)]
fn eight_blocks_of(key: &[u32; 8], counter: u32, nonce: &[u32; 3]) -> [u8; 512]
    ensures { (i : ℕ) → i < 512 → slice_index result i ≡ stream_byte key.now nonce.now counter i }
{
    let mut stream = [0u8; 512];
    xor_eight(&mut stream, key, counter, nonce);
    stream
}

/// Adds the stream from a counter on to a text from a place on. The last group may be short.
fn apply_from(text: &mut [u8], at: usize, key: &[u32; 8], counter: u32, nonce: &[u32; 3])
    requires at { at ≤ length text.old }
    requires counts { counter + div_ceil (length text.old - at) 64 ≤ 2 ^ 32 }
    ensures long { length text.new ≡ length text.old }
    ensures before { (i : ℕ) → i < at → slice_index text.new i ≡ slice_index text.old i }
    ensures there { (k : ℕ) → at + k < length text.old
        → slice_index text.new (at + k) ≡ bit_xor (slice_index text.old (at + k)) (stream_byte key.now nonce.now counter k) }
{
    if at == text.len() {
        return;
    }
    let groups = (text.len() - at - 1) / 512;
    for g in 0..groups {
        xor_eight_at(text, at + 512 * g, key, counter + (8 * g) as u32, nonce);
    }
    let last = eight_blocks_of(key, counter + (8 * groups) as u32, nonce);
    xor_part(text, at + 512 * groups, &last, 0);
}

/// ChaCha20 under a key of 32 bytes (2.4). Contracts see the key.
///
/// Under one key no nonce may serve twice with the same counters: two texts under one stream give away the sum of both.
/// No tag is made: who changes a bit of a ciphertext changes that bit of the text, so a MAC belongs to it.
#[derive(Drop)]
pub struct ChaCha20 {
    key: [u8; 32],
}

impl Model for ChaCha20 {
    ghost use Rattle.std.specs.Prelude.{ℕ, List};

    ghost Value = { List ℕ };

    ghost view = { λ cipher. cipher.key };
}

impl ChaCha20 {
    /// ChaCha20 under this key.
    pub fn new(key: &[u8; 32]) -> ChaCha20
        ensures { result ≡ key.now }
    {
        ChaCha20 { key: *key }
    }

    /// Adds the key stream of the nonce, from the block of that counter on, to `text`: the ciphertext of a plaintext,
    /// and the plaintext of a ciphertext (2.4). No block may have a counter above 2^32 - 1. The nonce must be new under
    /// this key.
    pub fn apply(&self, nonce: &[u8; 12], counter: u32, text: &mut [u8])
        requires counts { counter + div_ceil (length text.old) 64 ≤ 2 ^ 32 }
        ensures { text.new ≡ chacha20 self.now nonce.now counter text.old }
    {
        apply_from(text, 0, &key_words(&self.key), counter, &nonce_words(nonce));
    }

    /// The first eight blocks of the key stream, from the counter 0 on.
    pub fn first_blocks(&self, nonce: &[u8; 12]) -> [u8; 512]
        ensures { result ≡ chacha20 self.now nonce.now 0 (replicate 512 0) }
    {
        eight_blocks_of(&key_words(&self.key), 0, &nonce_words(nonce))
    }

    /// Adds the key stream from the counter 1 on to `text`, as `apply` does, where `first` are the nonce's first
    /// blocks. `text` has at most 2^32 - 1 blocks of 64 bytes.
    pub fn apply_behind(&self, nonce: &[u8; 12], first: &[u8; 512], text: &mut [u8])
        requires first { first.now ≡ chacha20 self.now nonce.now 0 (replicate 512 0) }
        requires short { length text.old ≤ 274877906880 }
        ensures { text.new ≡ chacha20 self.now nonce.now 1 text.old }
    {
        xor_part(text, 0, first, 64);
        if text.len() <= 448 {
            return;
        }
        apply_from(text, 448, &key_words(&self.key), 8, &nonce_words(nonce));
    }
}
