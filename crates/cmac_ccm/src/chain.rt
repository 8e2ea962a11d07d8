//! The chain that both authenticate by: each block is added to it, and their sum is sealed.

ghost use Rattle.std.specs.Prelude.{◌≡◌, ◌+◌, ◌-◌, ◌*◌, ◌/◌, ◌≤◌, ◌<◌, ◌++◌, length, replicate};
ghost use Rattle.std_defs.specs.Blocks.{xor_blocks, text_block};
ghost use Rattle.std_defs.specs.Cmac.{chained};
ghost use Rattle.std_defs.specs.Gcm.{padded};

use aes_block::{BlockCipher, xor_block};

/// Adds a block to another.
pub(crate) fn add_block(block: &mut [u8; 16], other: &[u8; 16])
    ensures { block.new ≡ xor_blocks block.old other.now }
{
    xor_block(block, other);
}

/// Adds a block to the chain, and seals the sum.
pub(crate) fn chain_block<C: BlockCipher>(cipher: &C, chain: &mut [u8; 16], block: &[u8; 16])
    ensures { chain.new ≡ C.sealed cipher.now (xor_blocks chain.old block.now) }
{
    add_block(chain, block);
    cipher.seal_block(chain);
}

/// Block `i` of the bytes.
#[tactic(auto, unfolding(std_defs::specs::Blocks::text_block))]
fn block_at(bytes: &[u8], i: usize) -> [u8; 16]
    requires { 16 * i + 16 ≤ length bytes.now }
    ensures { result ≡ text_block bytes.now i }
{
    let mut block = [0u8; 16];
    block.copy_from_slice(&bytes[16 * i..16 * i + 16]);
    block
}

/// Adds the first `count` blocks of the bytes to the chain.
pub(crate) fn chain_blocks<C: BlockCipher>(
    cipher: &C,
    chain: &mut [u8; 16],
    bytes: &[u8],
    count: usize,
)
    requires { 16 * count ≤ length bytes.now }
    ensures { chain.new ≡ chained (C.sealed cipher.now) chain.old bytes.now count }
{
    for i in 0..count {
        let block = block_at(bytes, i);
        chain_block(cipher, chain, &block);
    }
}

/// Fewer than sixteen bytes, and zeros behind them.
fn filled(bytes: &[u8]) -> [u8; 16]
    requires { length bytes.now < 16 }
    ensures { result ≡ bytes.now ++ replicate (16 - length bytes.now) 0 }
{
    let mut block = [0u8; 16];
    block[..bytes.len()].copy_from_slice(bytes);
    block
}

/// Adds the blocks of the bytes, with zeros behind them to a whole block, to the chain.
pub(crate) fn chain_padded<C: BlockCipher>(cipher: &C, chain: &mut [u8; 16], bytes: &[u8])
    ensures { chain.new ≡ chained (C.sealed cipher.now) chain.old (padded bytes.now) (length (padded bytes.now) / 16) }
{
    let whole = bytes.len() / 16;
    chain_blocks(cipher, chain, bytes, whole);
    if bytes.len() % 16 != 0 {
        let last = filled(&bytes[16 * whole..]);
        chain_block(cipher, chain, &last);
    }
}
