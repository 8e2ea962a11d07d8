//! MACs of texts in pieces, which are read where they lie.

ghost use Rattle.std.specs.Prelude.{◌≡◌, ◌+◌, ◌*◌, ◌^◌, ◌<◌, ◌≤◌, ◌++◌, length, take, drop, MatchResult};
ghost use Rattle.std_defs.specs.Blocks.{xor_blocks, text_block};
ghost use Rattle.std_defs.specs.Cmac.{chained, cmac, zero_block};
ghost use Rattle.std_defs.specs.Hmac.{hmac_under};
ghost use Rattle.std_defs.specs.Value.Value.{bytes};
ghost use Rattle.transforms.specs.InPlace as in_place;
ghost use Rattle.transforms.specs.InPlace.{making, mac_size, mac_size_in};
ghost use Rattle.transforms.specs.Macs.{makes_of};
ghost use Rattle.transforms.specs.declared.inner.Inner.TheVariants as inner;
ghost use Rattle.perdoaze_calls.specs.Pieces.{text_in};

use crate::pieces::{Piece, gather};
use crate::requests::copy_front;
use aes_block::{BlockCipher, xor_block};
use cmac_ccm::Cmac;
use hmac_sha::Mac;
use kc_base::Errno;
use piece_modes::mac_of_front;
use transforms::{AnyMac, Inner, Keyed};

/// How many blocks are gathered at a time.
const BLOCKS: usize = 64;

/// HMAC of the pieces' bytes, of which there are `n`, as one message.
fn hmac_of(mac: &Mac, pieces: &[Piece<'_>], n: usize) -> [u8; 32]
    requires { n ≡ length (text_in pieces.now) }
    ensures { result ≡ hmac_under mac.now (text_in pieces.now) }
{
    mac_of_front(mac, &[], pieces, n)
}

/// Adds a block to the chain.
fn add_block(chain: &mut [u8; 16], block: &[u8; 16])
    ensures { chain.new ≡ xor_blocks chain.old block.now }
{
    xor_block(chain, block);
}

/// Block `i` of the bytes.
#[tactic(auto, unfolding(std_defs::specs::Blocks::text_block))]
fn block_at(bytes: &[u8], i: usize) -> [u8; 16]
    requires { 16 * i + 16 ≤ length bytes.now }
    ensures { result ≡ text_block bytes.now i }
{
    let mut block = [0u8; 16];
    block.copy_from_slice(&bytes[16 * i..16 * i + 16]);
    block
}

/// Takes `n` blocks of the pieces, from block `from` on, into the chain of those before.
fn chain_some<C: BlockCipher>(
    cipher: &C,
    chain: &mut [u8; 16],
    pieces: &[Piece<'_>],
    from: usize,
    n: usize,
)
    requires few { n ≤ 64 }
    requires within { 16 * (from + n) ≤ length (text_in pieces.now) }
    requires short { length (text_in pieces.now) < 2 ^ 32 }
    ensures { chain.old ≡ chained (C.sealed cipher.now) zero_block (text_in pieces.now) from
        → chain.new ≡ chained (C.sealed cipher.now) zero_block (text_in pieces.now) (from + n) }
{
    let mut gathered = [0u8; 16 * BLOCKS];
    gather(pieces, 16 * from, 16 * n, &mut gathered);
    for i in 0..n {
        add_block(chain, &block_at(&gathered, i));
        cipher.seal_block(chain);
    }
}

/// The chain of the first `count` blocks of the pieces.
fn chain_of<C: BlockCipher>(cipher: &C, pieces: &[Piece<'_>], count: usize) -> [u8; 16]
    requires within { 16 * count ≤ length (text_in pieces.now) }
    requires short { length (text_in pieces.now) < 2 ^ 32 }
    ensures { result ≡ chained (C.sealed cipher.now) zero_block (text_in pieces.now) count }
{
    let mut chain = [0u8; 16];
    let turns = count / BLOCKS;
    for i in 0..turns {
        chain_some(cipher, &mut chain, pieces, BLOCKS * i, BLOCKS);
    }
    chain_some(cipher, &mut chain, pieces, BLOCKS * turns, count % BLOCKS);
    chain
}

/// Adds the chain to the first block of the bytes.
fn add_chain(bytes: &mut [u8; 32], chain: &[u8; 16])
    ensures { bytes.new ≡ xor_blocks chain.now (text_block bytes.old 0) ++ drop 16 bytes.old }
{
    let mut sum = *chain;
    add_block(&mut sum, &block_at(bytes, 0));
    copy_front(&sum, bytes);
}

/// CMAC of the pieces' bytes, of which there are `n`, as one message. The blocks before the last 17 to 32 bytes are
/// taken into the chain. That is added to what is left, whose MAC is then the whole text's.
fn cmac_of<C: BlockCipher + Drop>(mac: &Cmac<C>, pieces: &[Piece<'_>], n: usize) -> [u8; 16]
    requires all { n ≡ length (text_in pieces.now) }
    requires short { n < 2 ^ 32 }
    ensures { result ≡ cmac (C.sealed mac.now) (text_in pieces.now) }
{
    let mut last = [0u8; 32];
    if n <= 32 {
        gather(pieces, 0, n, &mut last);
        return mac.mac(&last[..n]);
    }
    let count = (n - 17) / 16;
    let left = n - 16 * count;
    gather(pieces, 16 * count, left, &mut last);
    add_chain(&mut last, &chain_of(mac.cipher(), pieces, count));
    mac.mac(&last[..left])
}

/// Copies a MAC to the front of `room`. How many bytes it has.
fn put_mac(mac: &[u8], room: &mut [u8; 32]) -> usize
    requires { length mac.now ≤ 32 }
    ensures size { result ≡ length mac.now }
    ensures made { take result room.new ≡ mac.now }
{
    room[..mac.len()].copy_from_slice(mac);
    mac.len()
}

/// The MAC of the pieces, at the front of `room`. How many bytes it has.
fn make_mac(mac: &AnyMac, pieces: &[Piece<'_>], n: usize, room: &mut [u8; 32]) -> usize
    requires all { n ≡ length (text_in pieces.now) }
    requires short { n < 2 ^ 32 }
    ensures size { result ≡ mac_size_in (inner.Mac mac.now) }
    ensures fits { result ≤ 32 }
    ensures made { take result room.new ≡ makes_of mac.now (text_in pieces.now) }
{
    match mac {
        AnyMac::Hmac(mac) => put_mac(&hmac_of(mac, pieces, n), room),
        AnyMac::Cmac(mac) => put_mac(&cmac_of(mac, pieces, n), room),
    }
}

/// The MAC of the pieces, at the front of `room`, and how many bytes it has; or that it is no MAC.
fn make_by(
    kept: &Inner,
    pieces: &[Piece<'_>],
    n: usize,
    room: &mut [u8; 32],
) -> Result<usize, Errno>
    requires all { n ≡ length (text_in pieces.now) }
    requires short { n < 2 ^ 32 }
    ensures { let q = making (text_in pieces.now) in MatchResult result
        (λ m. (m ≡ mac_size_in kept.now) × (m ≤ 32) × in_place.HasValueIn kept.now 0 q (bytes (take m room.new)))
        (λ e. (e ≡ Errno.EINVAL) × in_place.IsInvalidIn kept.now 0 q) }
{
    match kept {
        Inner::Skcipher(_) => Err(Errno::EINVAL),
        Inner::Mac(mac) => Ok(make_mac(mac, pieces, n, room)),
        Inner::Aead(_) => Err(Errno::EINVAL),
    }
}

/// The MAC of the pieces, which have `n` bytes, fewer than 2^32, at the front of `room`, and how many bytes it has.
/// `EINVAL` exactly where the plan is no MAC.
pub fn make_of_pieces(
    keyed: &Keyed,
    pieces: &[Piece<'_>],
    n: usize,
    room: &mut [u8; 32],
) -> Result<usize, Errno>
    requires all { n ≡ length (text_in pieces.now) }
    requires short { n < 2 ^ 32 }
    ensures { let q = making (text_in pieces.now) in MatchResult result
        (λ m. (m ≡ mac_size keyed.now.0) × (m ≤ 32) × in_place.HasValue keyed.now 0 q (bytes (take m room.new)))
        (λ e. (e ≡ Errno.EINVAL) × in_place.IsInvalid keyed.now 0 q) }
{
    make_by(keyed.inner(), pieces, n, room)
}
