//! The blocks of a text, as numbers.

ghost use Rattle.std.specs.Prelude.{◌≡◌, ◌*◌, ◌<◌, ℕ, length};
ghost use Rattle.std_defs.specs.Blocks.{block_number as number_of, text_block};

use std_defs::block_number;

/// The number of the block `index` of a text, from 0. Zeros stand behind a last one that is shorter.
#[inline(always)]
pub(crate) fn block_at(text: &[u8], index: usize) -> u128
    requires { 16 * index < length text.now }
    ensures { result ≡ number_of (text_block text.now index) }
{
    let rest = &text[16 * index..];
    if rest.len() < 16 {
        return any_block_at(text, index);
    }
    let mut block = [0u8; 16];
    block.copy_from_slice(&rest[..16]);
    block_number(block)
}

/// The same, whichever length the block has.
fn any_block_at(text: &[u8], index: usize) -> u128
    requires { 16 * index < length text.now }
    ensures { result ≡ number_of (text_block text.now index) }
{
    let rest = &text[16 * index..];
    let count = rest.len().min(16);
    let mut block = [0u8; 16];
    block[..count].copy_from_slice(&rest[..count]);
    block_number(block)
}
