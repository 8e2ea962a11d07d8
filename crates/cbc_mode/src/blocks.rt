//! Chains of whole blocks, in place.

ghost use Rattle.std.specs.Prelude.{◌≡◌, ℕ, map, suc, ◌+◌, ◌*◌, ◌/◌, ◌%◌, ◌<◌, ◌≤◌, [], length, slice_index_or};
ghost use Rattle.std.specs.List.{range_with_len};
ghost use Rattle.std_defs.specs.Blocks.{xor_blocks, text_block, joined};
ghost use Rattle.std_defs.specs.Modes.{cbc_block, cbc_before, cbc_plain_block};

use aes_block::{BlockCipher, xor_block};

/// The sum of two blocks.
fn sum_of(a: &[u8; 16], b: &[u8; 16]) -> [u8; 16]
    ensures { result ≡ xor_blocks a.now b.now }
{
    let mut sum = *a;
    xor_block(&mut sum, b);
    sum
}

/// Adds the block `b` to the chain, which stays where it is: as a value of its own it would go from block to block in
/// single bytes.
fn add_block(chain: &mut [u8; 16], b: &[u8; 16])
    ensures { chain.new ≡ xor_blocks b.now chain.old }
{
    xor_block(chain, b);
}

/// Block `i` of the text.
#[tactic(auto, unfolding(std_defs::specs::Blocks::text_block))]
fn block_at(text: &[u8], i: usize) -> [u8; 16]
    requires { 16 * i + 16 ≤ length text.now }
    ensures { result ≡ text_block text.now i }
{
    let mut block = [0u8; 16];
    block.copy_from_slice(&text[16 * i..16 * i + 16]);
    block
}

/// Seals each block of a text of whole blocks.
pub fn seal_blocks<C: BlockCipher>(cipher: &C, iv: &[u8; 16], text: &mut [u8])
    requires { length text.old % 16 ≡ 0 }
    ensures { text.new ≡ joined (λ j. cbc_block (C.sealed cipher.now) iv.now text.old (suc j)) (length text.old / 16) }
{
    let mut chain = *iv;
    for i in 0..text.len() / 16 {
        add_block(&mut chain, &block_at(text, i));
        cipher.seal_block(&mut chain);
        text[16 * i..16 * i + 16].copy_from_slice(&chain);
    }
}

/// The first eight blocks of the text.
fn eight_blocks(text: &[u8]) -> [[u8; 16]; 8]
    requires { length text.now ≡ 128 }
    ensures { result ≡ map (text_block text.now) (range_with_len 0 8) }
{
    [
        block_at(text, 0),
        block_at(text, 1),
        block_at(text, 2),
        block_at(text, 3),
        block_at(text, 4),
        block_at(text, 5),
        block_at(text, 6),
        block_at(text, 7),
    ]
}

/// Unseals a text of eight blocks, behind the ciphertext block `before`. Its last ciphertext block.
fn unseal_eight<C: BlockCipher>(cipher: &C, before: &[u8; 16], text: &mut [u8]) -> [u8; 16]
    requires { length text.old ≡ 128 }
    ensures text { text.new ≡ joined (cbc_plain_block (C.unsealed cipher.now) before.now text.old) 8 }
    ensures last { result ≡ cbc_before before.now text.old 8 }
{
    let sealed = eight_blocks(text);
    let mut blocks = sealed;
    cipher.unseal_eight(&mut blocks);
    let mut before = *before;
    for j in 0..8usize {
        let plain = sum_of(&blocks[j], &before);
        text[16 * j..16 * j + 16].copy_from_slice(&plain);
        before = sealed[j];
    }
    before
}

/// The blocks of a text of at most eight, and blocks of no meaning behind them.
fn some_blocks(text: &[u8]) -> [[u8; 16]; 8]
    requires { length text.now ≤ 128 }
    ensures { (j : ℕ) → j < length text.now / 16 → slice_index_or result j [] ≡ text_block text.now j }
{
    let mut some = [[0u8; 16]; 8];
    for j in 0..text.len() / 16 {
        some[j] = block_at(text, j);
    }
    some
}

/// Unseals a text of at most eight blocks, behind the ciphertext block `before`.
fn unseal_some<C: BlockCipher>(cipher: &C, before: &[u8; 16], text: &mut [u8])
    requires whole { length text.old % 16 ≡ 0 }
    requires short { length text.old ≤ 128 }
    ensures { text.new ≡ joined (cbc_plain_block (C.unsealed cipher.now) before.now text.old) (length text.old / 16) }
{
    let count = text.len() / 16;
    let sealed = some_blocks(text);
    let mut blocks = sealed;
    cipher.unseal_some(&mut blocks, count);
    let mut previous = *before;
    for j in 0..count {
        let plain = sum_of(&blocks[j], &previous);
        text[16 * j..16 * j + 16].copy_from_slice(&plain);
        previous = sealed[j];
    }
}

/// Unseals each block of a text of whole blocks, eight at a time.
pub fn unseal_blocks<C: BlockCipher>(cipher: &C, iv: &[u8; 16], text: &mut [u8])
    requires { length text.old % 16 ≡ 0 }
    ensures { text.new ≡ joined (cbc_plain_block (C.unsealed cipher.now) iv.now text.old) (length text.old / 16) }
{
    let mut before = *iv;
    let eights = text.len() / 128;
    for i in 0..eights {
        before = unseal_eight(cipher, &before, &mut text[128 * i..128 * i + 128]);
    }
    unseal_some(cipher, &before, &mut text[128 * eights..]);
}
