//! Blocks of a data unit, in place.

ghost use Rattle.std.specs.Prelude.{◌≡◌, ℕ, ◌+◌, ◌-◌, ◌*◌, ◌/◌, ◌%◌, ◌<◌, ◌≤◌, ◌++◌, [], length, take, drop, map, slice_index_or};
ghost use Rattle.std.specs.List.{range_with_len};
ghost use Rattle.std_defs.specs.Blocks.{xor_blocks, text_block, joined};
ghost use Rattle.std_defs.specs.Xts.{times_alpha_power, xts_block, xts_blocks, with_stealing};

use crate::direction::Direction;
use crate::tweak::Tweak;
use std::simd::prelude::*;

/// Adds the mask to the block, in a vector.
#[inline(always)]
fn add_mask(block: &mut [u8; 16], mask: &[u8; 16])
    ensures { block.new ≡ xor_blocks block.old mask.now }
{
    *block = (u8x16::from_array(*block) ^ u8x16::from_array(*mask)).to_array();
}

/// Eight blocks of a text, each with its mask added.
#[inline(always)]
#[tactic(auto, unfolding(std_defs::specs::Blocks::text_block))]
fn eight_masked(text: &[u8], masks: &[[u8; 16]; 8]) -> [[u8; 16]; 8]
    requires { length text.now ≡ 128 }
    ensures { result ≡ map (λ j. xor_blocks (text_block text.now j) (slice_index_or masks.now j [])) (range_with_len 0 8) }
{
    let mut eight = [[0u8; 16]; 8];
    for j in 0..8usize {
        let mut block = [0u8; 16];
        block.copy_from_slice(&text[16 * j..16 * j + 16]);
        add_mask(&mut block, &masks[j]);
        eight[j] = block;
    }
    eight
}

/// Writes eight blocks into a text, each with its mask added.
#[inline(always)]
fn write_masked(text: &mut [u8], blocks: &[[u8; 16]; 8], masks: &[[u8; 16]; 8])
    requires { length text.old ≡ 128 }
    ensures { text.new ≡ joined (λ j. xor_blocks (slice_index_or blocks.now j []) (slice_index_or masks.now j [])) 8 }
{
    for j in 0..8usize {
        let mut block = blocks[j];
        add_mask(&mut block, &masks[j]);
        text[16 * j..16 * j + 16].copy_from_slice(&block);
    }
}

/// Turns eight blocks, from the tweak's place on. The tweak becomes that of the place behind them.
fn turn_eight<D: Direction>(direction: &D, tweak: &mut Tweak, text: &mut [u8])
    requires { length text.old ≡ 128 }
    ensures text { text.new ≡ xts_blocks (xts_block (D.turned direction.now) tweak.old) text.old 8 }
    ensures tweak { tweak.new ≡ times_alpha_power tweak.old 8 }
{
    let masks = tweak.take_eight();
    let mut blocks = eight_masked(text, &masks);
    direction.turn_eight(&mut blocks);
    write_masked(text, &blocks, &masks);
}

/// The blocks of a text of at most eight, each with its mask added, and blocks of no meaning behind them.
#[inline(always)]
#[tactic(auto, unfolding(std_defs::specs::Blocks::text_block))]
fn some_masked(text: &[u8], masks: &[[u8; 16]; 8]) -> [[u8; 16]; 8]
    requires { length text.now ≤ 128 }
    ensures { (j : ℕ) → j < length text.now / 16
        → slice_index_or result j [] ≡ xor_blocks (text_block text.now j) (slice_index_or masks.now j []) }
{
    let mut some = [[0u8; 16]; 8];
    for j in 0..text.len() / 16 {
        let mut block = [0u8; 16];
        block.copy_from_slice(&text[16 * j..16 * j + 16]);
        add_mask(&mut block, &masks[j]);
        some[j] = block;
    }
    some
}

/// Writes blocks into a text of at most eight, each with its mask added.
#[inline(always)]
fn write_some_masked(text: &mut [u8], blocks: &[[u8; 16]; 8], masks: &[[u8; 16]; 8])
    requires whole { length text.old % 16 ≡ 0 }
    requires short { length text.old ≤ 128 }
    ensures { text.new ≡ joined (λ j. xor_blocks (slice_index_or blocks.now j []) (slice_index_or masks.now j [])) (length text.old / 16) }
{
    for j in 0..text.len() / 16 {
        let mut block = blocks[j];
        add_mask(&mut block, &masks[j]);
        text[16 * j..16 * j + 16].copy_from_slice(&block);
    }
}

/// Turns at most eight blocks, from the tweak's place on. The tweak becomes that of the place behind them.
fn turn_some<D: Direction>(direction: &D, tweak: &mut Tweak, text: &mut [u8])
    requires whole { length text.old % 16 ≡ 0 }
    requires short { length text.old ≤ 128 }
    ensures text { text.new ≡ xts_blocks (xts_block (D.turned direction.now) tweak.old) text.old (length text.old / 16) }
    ensures tweak { tweak.new ≡ times_alpha_power tweak.old (length text.old / 16) }
{
    let count = text.len() / 16;
    let masks = tweak.take_some(count);
    let mut blocks = some_masked(text, &masks);
    direction.turn_some(&mut blocks, count);
    write_some_masked(text, &blocks, &masks);
}

/// Turns the block at the tweak's place.
fn turn_block<D: Direction>(direction: &D, tweak: &Tweak, text: &mut [u8])
    requires { length text.old ≡ 16 }
    ensures { text.new ≡ xts_block (D.turned direction.now) tweak.now 0 text.old }
{
    let mask = tweak.block();
    let mut block = [0u8; 16];
    block.copy_from_slice(text);
    add_mask(&mut block, &mask);
    direction.turn_block(&mut block);
    add_mask(&mut block, &mask);
    text.copy_from_slice(&block);
}

/// Turns at most eight blocks, one of which costs less by itself. The tweak becomes that of the place behind them.
fn turn_rest<D: Direction>(direction: &D, tweak: &mut Tweak, text: &mut [u8])
    requires whole { length text.old % 16 ≡ 0 }
    requires short { length text.old ≤ 128 }
    ensures text { text.new ≡ xts_blocks (xts_block (D.turned direction.now) tweak.old) text.old (length text.old / 16) }
    ensures tweak { tweak.new ≡ times_alpha_power tweak.old (length text.old / 16) }
{
    if text.len() == 16 {
        turn_block(direction, tweak, text);
        *tweak = tweak.next();
    } else {
        turn_some(direction, tweak, text);
    }
}

/// Turns whole blocks, from the tweak's place on. The tweak becomes that of the place behind them.
pub(crate) fn turn_blocks<D: Direction>(direction: &D, tweak: &mut Tweak, text: &mut [u8])
    requires { length text.old % 16 ≡ 0 }
    ensures text { text.new ≡ xts_blocks (xts_block (D.turned direction.now) tweak.old) text.old (length text.old / 16) }
    ensures tweak { tweak.new ≡ times_alpha_power tweak.old (length text.old / 16) }
{
    let eights = text.len() / 128;
    for i in 0..eights {
        turn_eight(direction, tweak, &mut text[128 * i..128 * i + 128]);
    }
    turn_rest(direction, tweak, &mut text[128 * eights..]);
}

/// Exchanges the bytes behind the first block with as many at its front.
fn exchange(text: &mut [u8])
    requires block { 16 ≤ length text.old }
    requires less_than_two { length text.old < 32 }
    ensures { text.new ≡ (drop 16 text.old ++ drop (length text.old - 16) (take 16 text.old)) ++ take (length text.old - 16) text.old }
{
    let stolen = text.len() - 16;
    let mut block = [0u8; 16];
    block.copy_from_slice(&text[..16]);
    text.copy_within(16.., 0);
    text[16..].copy_from_slice(&block[..stolen]);
}

/// Turns the last whole block of a data unit, at the place of the first tweak; its front goes behind it, in place of
/// the bytes there, and what then stands in its place is turned at that of the second tweak.
pub(crate) fn steal<D: Direction>(direction: &D, first: &Tweak, second: &Tweak, text: &mut [u8])
    requires block { 16 ≤ length text.old }
    requires less_than_two { length text.old < 32 }
    ensures { text.new
        ≡ with_stealing (xts_block (D.turned direction.now) first.now 0) (xts_block (D.turned direction.now) second.now 0) text.old }
{
    turn_block(direction, first, &mut text[..16]);
    exchange(text);
    turn_block(direction, second, &mut text[..16]);
}
