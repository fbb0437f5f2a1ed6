//! The functions of FIPS 180-4, 4.1.2, on a word in each lane.

ghost use Rattle.std.specs.Prelude.{◌≡◌, ℕ, ◌<◌, ◌/◌, ◌^◌, bit_and, bit_xor, slice_index};
ghost use Rattle.std.specs.Int.{w32, bit_not, rotate_right as rotated};
ghost use Rattle.sha2.specs.Sha256.{add32, big_sigma0, big_sigma1, ch, maj, small_sigma0, small_sigma1};

use std::simd::u32x4;

#[inline(always)]
pub(crate) fn add(a: u32x4, b: u32x4) -> u32x4
    ensures { (j : ℕ) → j < 4 → slice_index result j ≡ add32 (slice_index a j) (slice_index b j) }
{
    a + b
}

#[inline(always)]
fn xor(a: u32x4, b: u32x4) -> u32x4
    ensures { (j : ℕ) → j < 4 → slice_index result j ≡ bit_xor (slice_index a j) (slice_index b j) }
{
    a ^ b
}

#[inline(always)]
fn and(a: u32x4, b: u32x4) -> u32x4
    ensures { (j : ℕ) → j < 4 → slice_index result j ≡ bit_and (slice_index a j) (slice_index b j) }
{
    a & b
}

#[inline(always)]
fn not(a: u32x4) -> u32x4
    ensures { (j : ℕ) → j < 4 → slice_index result j ≡ bit_not w32 (slice_index a j) }
{
    !a
}

#[inline(always)]
fn rotate_right(x: u32x4, k: u32) -> u32x4
    requires { (0 < k) × (k < 32) }
    ensures { (j : ℕ) → j < 4 → slice_index result j ≡ rotated w32 (slice_index x j) k }
{
    (x >> u32x4::splat(k)) | (x << u32x4::splat(32 - k))
}

#[inline(always)]
fn shift_right(x: u32x4, k: u32) -> u32x4
    requires { k < 32 }
    ensures { (j : ℕ) → j < 4 → slice_index result j ≡ slice_index x j / 2 ^ k }
{
    x >> u32x4::splat(k)
}

#[inline(always)]
pub(crate) fn choose(x: u32x4, y: u32x4, z: u32x4) -> u32x4
    ensures { (j : ℕ) → j < 4 → slice_index result j ≡ ch (slice_index x j) (slice_index y j) (slice_index z j) }
{
    let kept = and(x, y);
    let inverse = not(x);
    let other = and(inverse, z);
    xor(kept, other)
}

#[inline(always)]
pub(crate) fn majority(x: u32x4, y: u32x4, z: u32x4) -> u32x4
    ensures { (j : ℕ) → j < 4 → slice_index result j ≡ maj (slice_index x j) (slice_index y j) (slice_index z j) }
{
    let first = and(x, y);
    let second = and(x, z);
    let both = xor(first, second);
    let third = and(y, z);
    xor(both, third)
}

#[inline(always)]
pub(crate) fn upper_sigma0(x: u32x4) -> u32x4
    ensures { (j : ℕ) → j < 4 → slice_index result j ≡ big_sigma0 (slice_index x j) }
{
    let first = rotate_right(x, 2);
    let second = rotate_right(x, 13);
    let both = xor(first, second);
    let third = rotate_right(x, 22);
    xor(both, third)
}

#[inline(always)]
pub(crate) fn upper_sigma1(x: u32x4) -> u32x4
    ensures { (j : ℕ) → j < 4 → slice_index result j ≡ big_sigma1 (slice_index x j) }
{
    let first = rotate_right(x, 6);
    let second = rotate_right(x, 11);
    let both = xor(first, second);
    let third = rotate_right(x, 25);
    xor(both, third)
}

#[inline(always)]
pub(crate) fn lower_sigma0(x: u32x4) -> u32x4
    ensures { (j : ℕ) → j < 4 → slice_index result j ≡ small_sigma0 (slice_index x j) }
{
    let first = rotate_right(x, 7);
    let second = rotate_right(x, 18);
    let both = xor(first, second);
    let third = shift_right(x, 3);
    xor(both, third)
}

#[inline(always)]
pub(crate) fn lower_sigma1(x: u32x4) -> u32x4
    ensures { (j : ℕ) → j < 4 → slice_index result j ≡ small_sigma1 (slice_index x j) }
{
    let first = rotate_right(x, 17);
    let second = rotate_right(x, 19);
    let both = xor(first, second);
    let third = shift_right(x, 10);
    xor(both, third)
}
