//! Key streams: the ciphers of a row of counter blocks, over a text or over its pieces.

ghost use Rattle.std.specs.Prelude.{◌≡◌, ◌+◌, ◌*◌, ◌/◌, ◌%◌, ◌<◌, ◌≤◌, ℕ, List, length, map, slice_index, slice_index_or, bit_xor, []};
ghost use Rattle.std.specs.List.{range_with_len};
ghost use Rattle.std_defs.specs.Blocks.{with_stream};
ghost use Rattle.ctr_mode.specs.Streams.{with_bytes, key_byte, IsOn, AreFirst};

use aes_block::BlockCipher;
use std::marker::Model;
use std::simd::prelude::*;

/// A row of counter blocks, which a mode counts in its own way.
pub trait CounterBlocks: Drop {
    /// The block of that number, from 0.
    ghost block: { Self → ℕ → List ℕ };

    /// The first block.
    fn first(&self) -> [u8; 16]
        ensures { result ≡ block self.now 0 };

    /// The first eight blocks.
    fn first_eight(&self) -> [[u8; 16]; 8]
        ensures { result ≡ map (block self.now) (range_with_len 0 8) };

    /// Leaves out `count` blocks at the front.
    fn skip(&mut self, count: u64)
        ensures { (n : ℕ) → block self.new n ≡ block self.old (n + count) };
}

/// A key stream that goes on where it stopped, also within a block. Contracts see its counter blocks and how many bytes
/// of the first are used.
#[derive(Drop)]
pub struct KeyStream<B: CounterBlocks> {
    counters: B,
    used: usize,
}

impl<B: CounterBlocks> Model for KeyStream<B> {
    ghost Value = { B × ℕ };

    ghost view = { λ stream. (stream.counters, stream.used) };

    ghost invariant = { λ stream. stream.used < 16 };
}

impl<B: CounterBlocks> KeyStream<B> {
    /// The stream of a row of counter blocks, from its first byte on.
    pub fn new(counters: B) -> KeyStream<B>
        ensures { result ≡ (counters, 0) }
    {
        KeyStream { counters, used: 0 }
    }

    /// The stream of a row of counter blocks, from its byte `place` on.
    pub fn at(counters: B, place: u64) -> KeyStream<B>
        ensures { IsOn (B.block counters) 0 place (B.block result.0) result.1 }
    {
        let mut counters = counters;
        counters.skip(place / 16);
        KeyStream {
            counters,
            used: (place % 16) as usize,
        }
    }

    /// The stream of a row of counter blocks, of the first of which `used` bytes are used.
    pub fn resume(counters: B, used: usize) -> KeyStream<B>
        requires { used < 16 }
        ensures { result ≡ (counters, used) }
    {
        KeyStream { counters, used }
    }

    /// The counter blocks from that of the next byte on.
    pub fn counters(&self) -> &B
        ensures { result.now ≡ self.now.0 }
    {
        &self.counters
    }

    /// How many bytes of the first counter block are used.
    pub fn used(&self) -> usize
        ensures used { result ≡ self.now.1 }
        ensures within { result < 16 }
    {
        self.used
    }

    /// Xors each byte of the text with the next of the stream.
    pub fn apply<C: BlockCipher>(&mut self, cipher: &C, text: &mut [u8])
        ensures text { text.new ≡ with_bytes (key_byte (C.sealed cipher.now) (B.block self.old.0) self.old.1) text.old }
        ensures on { IsOn (B.block self.old.0) self.old.1 (length text.old) (B.block self.new.0) self.new.1 }
    {
        let front = text.len().min((16 - self.used) % 16);
        self.apply_within(cipher, &mut text[..front]);
        let eights = (text.len() - front) / 128;
        for i in 0..eights {
            let start = front + 128 * i;
            self.apply_eight(cipher, &mut text[start..start + 128]);
        }
        let rest = front + 128 * eights;
        if text.len() - rest <= 16 {
            self.apply_within(cipher, &mut text[rest..]);
        } else {
            self.apply_some(cipher, &mut text[rest..]);
        }
    }

    /// Applies the stream to a piece that ends in the block in which the stream stands.
    fn apply_within<C: BlockCipher>(&mut self, cipher: &C, piece: &mut [u8])
        requires { self.old.1 + length piece.old ≤ 16 }
        ensures text { piece.new ≡ with_bytes (key_byte (C.sealed cipher.now) (B.block self.old.0) self.old.1) piece.old }
        ensures on { IsOn (B.block self.old.0) self.old.1 (length piece.old) (B.block self.new.0) self.new.1 }
    {
        let used = self.used;
        if piece.is_empty() {
            return;
        }
        let mut block = self.counters.first();
        cipher.seal_block(&mut block);
        xor_bytes(piece, &block[used..]);
        self.used = used + piece.len();
        if self.used == 16 {
            self.counters.skip(1);
            self.used = 0;
        }
    }

    /// Applies the stream, which stands between two blocks, to eight blocks.
    fn apply_eight<C: BlockCipher>(&mut self, cipher: &C, eight: &mut [u8])
        requires between { self.old.1 ≡ 0 }
        requires long { length eight.old ≡ 128 }
        ensures text { eight.new ≡ with_bytes (key_byte (C.sealed cipher.now) (B.block self.old.0) self.old.1) eight.old }
        ensures on { IsOn (B.block self.old.0) self.old.1 (length eight.old) (B.block self.new.0) self.new.1 }
    {
        let mut blocks = self.counters.first_eight();
        cipher.seal_eight(&mut blocks);
        xor_eight(eight, &blocks);
        self.counters.skip(8);
    }

    /// Applies the stream, which stands between two blocks, to at most eight blocks, of which the last may be partial.
    fn apply_some<C: BlockCipher>(&mut self, cipher: &C, text: &mut [u8])
        requires between { self.old.1 ≡ 0 }
        requires short { length text.old ≤ 128 }
        ensures text { text.new ≡ with_bytes (key_byte (C.sealed cipher.now) (B.block self.old.0) self.old.1) text.old }
        ensures on { IsOn (B.block self.old.0) self.old.1 (length text.old) (B.block self.new.0) self.new.1 }
    {
        let mut blocks = self.counters.first_eight();
        cipher.seal_some(&mut blocks, text.len().div_ceil(16));
        xor_some(text, &blocks);
        self.counters.skip((text.len() / 16) as u64);
        self.used = text.len() % 16;
    }
}

/// Xors each byte of the text with that of the same place.
fn xor_bytes(text: &mut [u8], bytes: &[u8])
    requires { length text.old ≤ length bytes.now }
    ensures { (k : ℕ) → k < length text.old → slice_index text.new k ≡ bit_xor (slice_index text.old k) (slice_index bytes.now k) }
{
    for k in 0..text.len() {
        text[k] ^= bytes[k];
    }
}

/// Xors a block into a text of as many bytes, in a vector: a loop over bytes may stay one where the compiler can't know
/// that the two lie apart.
#[inline(always)]
fn xor_whole(text: &mut [u8], block: &[u8; 16])
    requires { length text.old ≡ 16 }
    ensures { (k : ℕ) → k < length text.old → slice_index text.new k ≡ bit_xor (slice_index text.old k) (slice_index block.now k) }
{
    let sum = u8x16::from_slice(text) ^ u8x16::from_array(*block);
    text.copy_from_slice(&sum.to_array());
}

/// Xors eight blocks into a text of as many bytes.
fn xor_eight(text: &mut [u8], blocks: &[[u8; 16]; 8])
    requires { length text.old ≡ 128 }
    ensures { (k : ℕ) → k < 128 → slice_index text.new k
        ≡ bit_xor (slice_index text.old k) (slice_index (slice_index_or blocks.now (k / 16) []) (k % 16)) }
{
    for j in 0..8usize {
        xor_whole(&mut text[16 * j..16 * j + 16], &blocks[j]);
    }
}

/// Xors blocks into a text of no more bytes than they have.
fn xor_some(text: &mut [u8], blocks: &[[u8; 16]])
    requires { length text.old ≤ 16 * length blocks.now }
    ensures { (k : ℕ) → k < length text.old
        → slice_index text.new k ≡ bit_xor (slice_index text.old k) (slice_index (slice_index_or blocks.now (k / 16) []) (k % 16)) }
{
    let whole = text.len() / 16;
    for j in 0..whole {
        xor_whole(&mut text[16 * j..16 * j + 16], &blocks[j]);
    }
    if text.len() % 16 != 0 {
        xor_bytes(&mut text[16 * whole..], &blocks[whole]);
    }
}

/// Applies a stream to the front of a text, up to `at`, and then to its rest: it is applied to the text.
pub fn apply_in_two<C: BlockCipher, B: CounterBlocks>(
    cipher: &C,
    stream: &mut KeyStream<B>,
    text: &mut [u8],
    at: usize,
)
    requires { at ≤ length text.old }
    ensures text { text.new ≡ with_bytes (key_byte (C.sealed cipher.now) (B.block stream.old.0) stream.old.1) text.old }
    ensures on { IsOn (B.block stream.old.0) stream.old.1 (length text.old) (B.block stream.new.0) stream.new.1 }
{
    stream.apply(cipher, &mut text[..at]);
    stream.apply(cipher, &mut text[at..]);
}

/// Xors each byte of the text with that of the ciphers of the counter blocks. The text may have any length.
pub fn apply_key_stream<C: BlockCipher, B: CounterBlocks>(cipher: &C, counters: B, text: &mut [u8])
    ensures { text.new ≡ with_stream (λ n. C.sealed cipher.now (B.block counters n)) text.old }
{
    KeyStream::new(counters).apply(cipher, text);
}

/// The ciphers of the first counter block and, up to seven, of those behind it that a text of `text_len` bytes takes,
/// made at once. The first is the caller's own; `apply_behind_first` takes the others. What stands behind them has no
/// meaning.
pub fn first_ciphers<C: BlockCipher, B: CounterBlocks>(
    cipher: &C,
    counters: &B,
    text_len: usize,
) -> [[u8; 16]; 8]
    ensures { AreFirst (C.sealed cipher.now) (B.block counters.now) text_len result }
{
    let mut blocks = counters.first_eight();
    cipher.seal_some(&mut blocks, 1 + text_len.div_ceil(16).min(7));
    blocks
}

/// Xors each byte of the text with that of the ciphers of the counter blocks from the second on. `first` is what
/// `first_ciphers` gave for as long a text.
pub fn apply_behind_first<C: BlockCipher, B: CounterBlocks>(
    cipher: &C,
    counters: B,
    first: &[[u8; 16]; 8],
    text: &mut [u8],
)
    requires { AreFirst (C.sealed cipher.now) (B.block counters) (length text.old) first.now }
    ensures { text.new ≡ with_stream (λ n. C.sealed cipher.now (B.block counters (n + 1))) text.old }
{
    let front = text.len().min(112);
    xor_some(&mut text[..front], &first[1..]);
    let mut behind = counters;
    behind.skip(8);
    apply_key_stream(cipher, behind, &mut text[front..]);
}
