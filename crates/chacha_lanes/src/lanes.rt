//! The steps of a quarter round, on vectors of eight lanes.

ghost use Rattle.std.specs.Prelude.{◌≡◌, ℕ, ◌<◌, slice_index};
ghost use Rattle.std_defs.specs.ChaCha20.{add32, xor_roll, quarter_round};

use std::simd::prelude::*;

#[inline(always)]
pub(crate) fn add(a: u32x8, b: u32x8) -> u32x8
    ensures { (j : ℕ) → j < 8 → slice_index result j ≡ add32 (slice_index a j) (slice_index b j) }
{
    a + b
}

#[inline(always)]
fn xor_roll(a: u32x8, b: u32x8, k: u32) -> u32x8
    requires { (0 < k) × (k < 32) }
    ensures { (j : ℕ) → j < 8 → slice_index result j ≡ xor_roll (slice_index a j) (slice_index b j) k }
{
    let x = a ^ b;
    (x << u32x8::splat(k)) | (x >> u32x8::splat(32 - k))
}

#[inline(always)]
pub(crate) fn quarter_round(a: u32x8, b: u32x8, c: u32x8, d: u32x8) -> (u32x8, u32x8, u32x8, u32x8)
    ensures { (j : ℕ) → j < 8
        → (slice_index result.0 j, slice_index result.1 j, slice_index result.2 j, slice_index result.3 j)
        ≡ quarter_round (slice_index a j) (slice_index b j) (slice_index c j) (slice_index d j) }
{
    let a1 = add(a, b);
    let d1 = xor_roll(d, a1, 16);
    let c1 = add(c, d1);
    let b1 = xor_roll(b, c1, 12);
    let a2 = add(a1, b1);
    let d2 = xor_roll(d1, a2, 8);
    let c2 = add(c1, d2);
    let b2 = xor_roll(b1, c2, 7);
    (a2, b2, c2, d2)
}
