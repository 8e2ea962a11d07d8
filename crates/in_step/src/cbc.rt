//! Eight texts, sealed side by side.

ghost use Rattle.std.specs.Prelude.{◌≡◌, ◌≢◌, ℕ, List, [], Some, ◌+◌, ◌*◌, ◌/◌, ◌<◌, ◌≤◌, ◌++◌, min, length, take, drop, slice_index, slice_index_or};
ghost use Rattle.std_defs.specs.Blocks.{xor_blocks, text_block};
ghost use Rattle.std_defs.specs.Modes.{cbc_block, cbc_seal};
ghost use Rattle.in_step.specs.Texts.{text_in, front_in, rest_in, block_in, AreWhole, Sealed};

use crate::text::{Text, bytes_at, write_at};
use aes_block::{BlockCipher, xor_block};
use cbc_mode::Cbc;

/// Fewer chains than these are sealed sooner one by one: eight blocks side by side take as long as so many by
/// themselves.
const LEAST_CHAINS: usize = 4;

/// Block `i` of the text.
#[tactic(auto, unfolding(std_defs::specs::Blocks::text_block))]
fn block_at(text: &[u8], i: usize) -> [u8; 16]
    requires { 16 * i + 16 ≤ length text.now }
    ensures { result ≡ text_block text.now i }
{
    let mut block = [0u8; 16];
    block.copy_from_slice(&text[16 * i..16 * i + 16]);
    block
}

/// Adds the block `b` to the chain, which stays where it is.
fn add_block(chain: &mut [u8; 16], b: &[u8; 16])
    ensures { chain.new ≡ xor_blocks b.now chain.old }
{
    xor_block(chain, b);
}

/// How many of the lengths are no less than this one.
fn as_many(lengths: &[usize; 8], least: usize) -> usize {
    lengths.iter().filter(|len| **len >= least).count()
}

/// How many blocks are sealed in step: as many as enough texts have.
fn steps_of(lengths: &[usize; 8]) -> usize {
    let mut steps = 0;
    for len in lengths {
        if *len / 16 > steps && as_many(lengths, *len) >= LEAST_CHAINS {
            steps = *len / 16;
        }
    }
    steps
}

/// Adds block `i` of the text to its chain, where it has one in its first bytes.
fn add_next(chain: &mut [u8; 16], text: &[u8], len: usize, i: usize)
    requires { len ≤ length text.now }
    ensures { i < len / 16 → chain.new ≡ xor_blocks (text_block text.now i) chain.old }
{
    if i < len / 16 {
        add_block(chain, &block_at(text, i));
    }
}

/// Writes the chain over block `i` of text `n`, where it has one in its first bytes.
fn put_next<T: Text>(texts: &mut [T], n: usize, chain: &[u8; 16], len: usize, i: usize)
    requires { len ≤ length (text_in T.bytes_of texts.old n) }
    ensures put { i < len / 16 → text_in T.bytes_of texts.new n
        ≡ take (16 * i) (text_in T.bytes_of texts.old n) ++ chain.now ++ drop (16 * i + 16) (text_in T.bytes_of texts.old n) }
    ensures kept { len / 16 ≤ i → text_in T.bytes_of texts.new n ≡ text_in T.bytes_of texts.old n }
    ensures others { (k : ℕ) → k ≢ n → text_in T.bytes_of texts.new k ≡ text_in T.bytes_of texts.old k }
    ensures same { length (text_in T.bytes_of texts.new n) ≡ length (text_in T.bytes_of texts.old n) }
    ensures count { length texts.new ≡ length texts.old }
{
    if i < len / 16 {
        write_at(texts, n, 16 * i, chain);
    }
}

/// Adds block `i` of each text that has it to its chain.
fn add_blocks<T: Text>(chains: &mut [[u8; 16]; 8], texts: &[T], lengths: &[usize; 8], i: usize)
    requires { AreWhole T.bytes_of lengths.now texts.now }
    ensures { (n : ℕ) → n < 8 → i < slice_index lengths.now n / 16
        → slice_index_or chains.new n [] ≡ xor_blocks (text_block (text_in T.bytes_of texts.now n) i) (slice_index_or chains.old n []) }
{
    for n in 0..8usize {
        add_next(&mut chains[n], bytes_at(texts, n), lengths[n], i);
    }
}

/// Writes each chain over block `i` of its text, where there is one.
fn put_blocks<T: Text>(texts: &mut [T], chains: &[[u8; 16]; 8], lengths: &[usize; 8], i: usize)
    requires { AreWhole T.bytes_of lengths.now texts.old }
    ensures put { (n : ℕ) → n < 8 → i < slice_index lengths.now n / 16 → text_in T.bytes_of texts.new n
        ≡ take (16 * i) (text_in T.bytes_of texts.old n) ++ slice_index_or chains.now n []
        ++ drop (16 * i + 16) (text_in T.bytes_of texts.old n) }
    ensures kept { (n : ℕ) → n < 8 → slice_index lengths.now n / 16 ≤ i → text_in T.bytes_of texts.new n ≡ text_in T.bytes_of texts.old n }
    ensures same { (n : ℕ) → length (text_in T.bytes_of texts.new n) ≡ length (text_in T.bytes_of texts.old n) }
    ensures count { length texts.new ≡ length texts.old }
{
    for n in 0..8usize {
        put_next(texts, n, &chains[n], lengths[n], i);
    }
}

/// Seals the first `steps` blocks of each text, or all where there are fewer. The chains behind them, which mean
/// nothing where all are sealed.
fn seal_steps<C: BlockCipher, T: Text>(
    cipher: &C,
    ivs: &[[u8; 16]; 8],
    texts: &mut [T],
    lengths: &[usize; 8],
    steps: usize,
) -> [[u8; 16]; 8]
    requires { AreWhole T.bytes_of lengths.now texts.old }
    ensures texts { (n : ℕ) → n < 8 → Sealed (C.sealed cipher.now) (block_in ivs.now n) (text_in T.bytes_of texts.old n)
        (text_in T.bytes_of texts.new n) (min steps (slice_index lengths.now n / 16)) }
    ensures chains { (n : ℕ) → n < 8 → steps ≤ slice_index lengths.now n / 16
        → block_in result n ≡ cbc_block (C.sealed cipher.now) (block_in ivs.now n) (text_in T.bytes_of texts.old n) steps }
    ensures count { length texts.new ≡ length texts.old }
{
    let mut chains = *ivs;
    for i in 0..steps {
        add_blocks(&mut chains, texts, lengths, i);
        cipher.seal_eight(&mut chains);
        put_blocks(texts, &chains, lengths, i);
    }
    chains
}

/// Seals what the first bytes of text `n` have behind its first `steps` blocks, where the chain is the last of these.
fn seal_rest<C: BlockCipher, T: Text>(
    cipher: &C,
    chain: &[u8; 16],
    texts: &mut [T],
    n: usize,
    len: usize,
    steps: usize,
)
    requires { len ≤ length (text_in T.bytes_of texts.old n) }
    ensures sealed { (iv orig : List ℕ) → Sealed (C.sealed cipher.now) iv orig (text_in T.bytes_of texts.old n) (min steps (len / 16))
        → (steps ≤ len / 16 → chain.now ≡ cbc_block (C.sealed cipher.now) iv orig steps)
        → Sealed (C.sealed cipher.now) iv orig (text_in T.bytes_of texts.new n) (len / 16) }
    ensures others { (k : ℕ) → k ≢ n → text_in T.bytes_of texts.new k ≡ text_in T.bytes_of texts.old k }
    ensures count { length texts.new ≡ length texts.old }
{
    let mut chain = *chain;
    for i in steps..len / 16 {
        add_block(&mut chain, &block_at(bytes_at(texts, n), i));
        cipher.seal_block(&mut chain);
        write_at(texts, n, 16 * i, &chain);
    }
}

/// Seals what each text has behind its first `steps` blocks.
fn seal_rests<C: BlockCipher, T: Text>(
    cipher: &C,
    chains: &[[u8; 16]; 8],
    texts: &mut [T],
    lengths: &[usize; 8],
    steps: usize,
)
    requires { AreWhole T.bytes_of lengths.now texts.old }
    ensures sealed { (n : ℕ) (iv orig : List ℕ) → n < 8
        → Sealed (C.sealed cipher.now) iv orig (text_in T.bytes_of texts.old n) (min steps (slice_index lengths.now n / 16))
        → (steps ≤ slice_index lengths.now n / 16 → block_in chains.now n ≡ cbc_block (C.sealed cipher.now) iv orig steps)
        → Sealed (C.sealed cipher.now) iv orig (text_in T.bytes_of texts.new n) (slice_index lengths.now n / 16) }
    ensures count { length texts.new ≡ length texts.old }
{
    for n in 0..8usize {
        seal_rest(cipher, &chains[n], texts, n, lengths[n], steps);
    }
}

/// Seals the front of each of at most eight texts in place, under an IV of its own: the first `lengths[n]` bytes of
/// text `n`, which are whole blocks. What stands behind them stays as it is. Chains that go on alone are sealed one by
/// one. No memory is taken.
pub fn seal_cbc_in_step<C: BlockCipher + Drop, T: Text>(
    mode: &Cbc<C>,
    ivs: &[[u8; 16]; 8],
    texts: &mut [T],
    lengths: &[usize; 8],
)
    requires { AreWhole T.bytes_of lengths.now texts.old }
    ensures sealed { (n : ℕ) → n < 8 → cbc_seal (C.sealed mode.now) (block_in ivs.now n) (front_in T.bytes_of lengths.now texts.old n)
        ≡ Some (front_in T.bytes_of lengths.now texts.new n) }
    ensures rest { (n : ℕ) → n < 8 → rest_in T.bytes_of lengths.now texts.new n ≡ rest_in T.bytes_of lengths.now texts.old n }
    ensures length { (n : ℕ) → n < 8 → length (text_in T.bytes_of texts.new n) ≡ length (text_in T.bytes_of texts.old n) }
    ensures count { length texts.new ≡ length texts.old }
{
    let steps = steps_of(lengths);
    let cipher = mode.cipher();
    let chains = seal_steps(cipher, ivs, texts, lengths, steps);
    seal_rests(cipher, &chains, texts, lengths, steps);
}
