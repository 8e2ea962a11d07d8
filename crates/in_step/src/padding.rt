//! The blocks of a message of two pieces, behind bytes that a hasher has taken, and its padding (5.1.1).

ghost use Rattle.std.specs.Prelude.{◌≡◌, ◌≢◌, ℕ, ◌+◌, ◌-◌, ◌*◌, ◌%◌, ◌/◌, ◌^◌, ◌<◌, ◌≤◌, ◌++◌, min, length, take, drop, replicate, slice_index};
ghost use Rattle.sha2.specs.Sha256.{padding};
ghost use Rattle.sha_lanes.specs.Lanes.{block_at};
ghost use Rattle.in_step.specs.Pieces.{behind};

/// A block before anything is written into it.
static ZEROS: [u8; 64] = [0; 64];

/// How many blocks the two pieces have with the padding.
#[inline(always)]
pub(crate) fn count_of(first: &[u8], second: &[u8]) -> usize
    requires { length first.now + length second.now < 2 ^ 63 }
    ensures { result ≡ (length first.now + length second.now + 72) / 64 }
{
    (first.len() + second.len() + 72) / 64
}

/// Copies what the piece has behind its first `skip` bytes to the place behind the first `used` of the block, as far as
/// there is room. How many bytes of the block are used then.
#[inline(always)]
fn add_piece(block: &mut [u8], used: usize, piece: &[u8], skip: usize) -> usize
    requires block { length block.old ≡ 64 }
    requires within { used ≤ 64 }
    ensures used { result ≡ used + min (64 - used) (length piece.now - skip) }
    ensures bytes { take result block.new ≡ take used block.old ++ take (64 - used) (drop skip piece.now) }
    ensures rest { drop result block.new ≡ drop result block.old }
{
    if skip >= piece.len() || used == 64 {
        return used;
    }
    let rest = &piece[skip..];
    let count = rest.len().min(64 - used);
    block[used..used + count].copy_from_slice(&rest[..count]);
    used + count
}

/// Writes the block that begins at byte `at` of zeros in the place of a message of `len` bytes and the bit 1 behind
/// them.
fn put_mark(block: &mut [u8], len: usize, at: usize)
    requires { length block.old ≡ 64 }
    ensures long { length block.new ≡ 64 }
    ensures mark { (k : ℕ) → k < 64 → at + k ≡ len → slice_index block.new k ≡ 0x80 }
    ensures zeros { (k : ℕ) → k < 64 → at + k ≢ len → slice_index block.new k ≡ 0 }
{
    block.copy_from_slice(&ZEROS);
    if at <= len && len - at < 64 {
        block[len - at] = 0x80;
    }
}

/// Writes the block that begins at byte `at` of the padding, with zeros in the place of the message, which has `len`
/// bytes.
fn put_padding(block: &mut [u8], taken: u64, len: usize, at: usize)
    requires block { length block.old ≡ 64 }
    requires short { len < 2 ^ 63 }
    requires edge { taken % 64 ≡ 0 }
    requires place { at % 64 ≡ 0 }
    requires within { at + 64 ≤ len + 72 }
    ensures { block.new ≡ take 64 (drop at (replicate len 0 ++ padding (taken + len))) }
{
    put_mark(block, len, at);
    if len + 8 < at + 64 {
        let bits = taken.wrapping_add(len as u64).wrapping_mul(8);
        block[56..].copy_from_slice(&bits.to_be_bytes());
    }
}

/// Writes the block that begins at byte `at`, from both pieces and the padding.
fn put_edge(block: &mut [u8], taken: u64, first: &[u8], second: &[u8], at: usize)
    requires block { length block.old ≡ 64 }
    requires short { length first.now + length second.now < 2 ^ 63 }
    requires edge { taken % 64 ≡ 0 }
    requires place { at % 64 ≡ 0 }
    requires within { at + 64 ≤ length first.now + length second.now + 72 }
    ensures { block.new ≡ take 64 (drop at (behind taken first.now second.now)) }
{
    put_padding(block, taken, first.len() + second.len(), at);
    let used = add_piece(block, 0, first, at);
    add_piece(block, used, second, at.saturating_sub(first.len()));
}

/// Writes block `i` of the pieces and their padding.
#[inline(always)]
pub(crate) fn put_block(block: &mut [u8], taken: u64, first: &[u8], second: &[u8], i: usize)
    requires block { length block.old ≡ 64 }
    requires short { length first.now + length second.now < 2 ^ 63 }
    requires edge { taken % 64 ≡ 0 }
    requires within { i < (length first.now + length second.now + 72) / 64 }
    ensures { block.new ≡ block_at (behind taken first.now second.now) i }
{
    let at = 64 * i;
    let front = first.len();
    if front <= at && at + 64 <= front + second.len() {
        block.copy_from_slice(&second[at - front..at - front + 64]);
    } else {
        put_edge(block, taken, first, second, at);
    }
}
