//! Blocks as sixteen bytes and as numbers.

ghost use Rattle.std.specs.Prelude.{◌≡◌};
ghost use Rattle.std_defs.specs.Blocks.{block_number as number_of, block_bytes as bytes_of};

/// The 16 bytes of a block, from the number that they write, leftmost bit first (SP 800-38D, 4.2.2).
/// Each half is one swap of bytes; `u128::to_be_bytes` compiles to shifts and masks.
#[inline(always)]
pub fn block_bytes(block: u128) -> [u8; 16]
    ensures { result ≡ bytes_of block }
{
    let high = (block >> 64) as u64;
    let low = (block & 0xffff_ffff_ffff_ffff) as u64;
    let mut bytes = [0u8; 16];
    bytes[..8].copy_from_slice(&high.swap_bytes().to_le_bytes());
    bytes[8..].copy_from_slice(&low.swap_bytes().to_le_bytes());
    bytes
}

/// The number that the 16 bytes of a block write, leftmost bit first (SP 800-38D, 4.2.2: int).
#[inline(always)]
#[tactic(auto, unfolding(crate::specs::Blocks::block_number))]
pub fn block_number(block: [u8; 16]) -> u128
    ensures { result ≡ number_of block }
{
    u128::from_be_bytes(block)
}
