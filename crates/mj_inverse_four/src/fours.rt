//! Vectors of four words.

ghost use Rattle.std.specs.Prelude.{◌≡◌, ◌≤◌, ◌<◌, ◌+◌, ◌*◌, ℕ, length, slice_index};
ghost use Rattle.mj_inverse_four.specs.Starts.{start_of};

use std::simd::prelude::*;

/// Where each of four lists begins.
#[derive(Clone, Copy)]
pub struct Starts {
    pub first: usize,
    pub second: usize,
    pub third: usize,
    pub fourth: usize,
}

/// Two words of each of four lists.
#[derive(Clone, Copy)]
pub struct Two {
    /// The first words.
    pub first: u64x4,
    /// The words after them.
    pub second: u64x4,
}

/// Four words from place `at` on.
#[inline(always)]
pub fn four_at(words: &[u64], at: usize) -> u64x4
    requires { at + 4 ≤ length words.now }
    ensures { (i : ℕ) → i < 4 → slice_index result i ≡ slice_index words.now (at + i) }
{
    u64x4::from_slice(&words[at..])
}

/// Writes four words from place `at` on.
#[inline(always)]
pub fn put_four(four: u64x4, out: &mut [u64], at: usize)
    requires { at + 4 ≤ length out.old }
    ensures here { (i : ℕ) → i < 4 → slice_index out.new (at + i) ≡ slice_index four i }
    ensures below { (k : ℕ) → k < at → slice_index out.new k ≡ slice_index out.old k }
    ensures above { (k : ℕ) → at + 4 ≤ k → slice_index out.new k ≡ slice_index out.old k }
{
    four.copy_to_slice(&mut out[at..]);
}

/// Writes eight words from place `at` on.
#[inline(always)]
pub fn put_eight(low: u64x4, high: u64x4, out: &mut [u64], at: usize)
    requires { at + 8 ≤ length out.old }
    ensures low { (i : ℕ) → i < 4 → slice_index out.new (at + i) ≡ slice_index low i }
    ensures high { (i : ℕ) → i < 4 → slice_index out.new (at + 4 + i) ≡ slice_index high i }
    ensures below { (k : ℕ) → k < at → slice_index out.new k ≡ slice_index out.old k }
    ensures above { (k : ℕ) → at + 8 ≤ k → slice_index out.new k ≡ slice_index out.old k }
{
    put_four(low, out, at);
    put_four(high, out, at + 4);
}

/// Two words from place `x` on, and two from place `y` on.
#[inline(always)]
fn two_and_two(words: &[u64], x: usize, y: usize) -> u64x4
    requires low { x + 2 ≤ length words.now }
    requires high { y + 2 ≤ length words.now }
    ensures first { slice_index result 0 ≡ slice_index words.now x }
    ensures second { slice_index result 1 ≡ slice_index words.now (x + 1) }
    ensures third { slice_index result 2 ≡ slice_index words.now y }
    ensures fourth { slice_index result 3 ≡ slice_index words.now (y + 1) }
{
    let low = u64x2::from_slice(&words[x..]);
    let high = u64x2::from_slice(&words[y..]);
    low.shuffle(high, [0, 1, 2, 3])
}

/// The first of each two words.
#[inline(always)]
fn firsts(a: u64x4, b: u64x4) -> u64x4
    ensures first { slice_index result 0 ≡ slice_index a 0 }
    ensures second { slice_index result 1 ≡ slice_index b 0 }
    ensures third { slice_index result 2 ≡ slice_index a 2 }
    ensures fourth { slice_index result 3 ≡ slice_index b 2 }
{
    a.shuffle(b, [0, 4, 2, 6])
}

/// The second of each two words.
#[inline(always)]
fn seconds(a: u64x4, b: u64x4) -> u64x4
    ensures first { slice_index result 0 ≡ slice_index a 1 }
    ensures second { slice_index result 1 ≡ slice_index b 1 }
    ensures third { slice_index result 2 ≡ slice_index a 3 }
    ensures fourth { slice_index result 3 ≡ slice_index b 3 }
{
    a.shuffle(b, [1, 5, 3, 7])
}

/// Words `k` and `k + 1` of each of four lists.
#[inline(always)]
pub fn two_of(words: &[u64], starts: Starts, k: usize) -> Two
    requires { (i : ℕ) → i < 4 → start_of starts i + (k + 2) ≤ length words.now }
    ensures first { (i : ℕ) → i < 4 → slice_index result.first i ≡ slice_index words.now (start_of starts i + k) }
    ensures second { (i : ℕ) → i < 4 → slice_index result.second i ≡ slice_index words.now (start_of starts i + (k + 1)) }
{
    let odd = two_and_two(words, starts.first + k, starts.third + k);
    let even = two_and_two(words, starts.second + k, starts.fourth + k);
    Two {
        first: firsts(odd, even),
        second: seconds(odd, even),
    }
}

/// Writes two words of each of four lists side by side from place `at` on.
#[inline(always)]
pub fn put_two(two: Two, out: &mut [u64], at: usize)
    requires { at + 8 ≤ length out.old }
    ensures first { (i : ℕ) → i < 4 → slice_index out.new (at + i) ≡ slice_index two.first i }
    ensures second { (i : ℕ) → i < 4 → slice_index out.new (at + 4 + i) ≡ slice_index two.second i }
    ensures below { (k : ℕ) → k < at → slice_index out.new k ≡ slice_index out.old k }
    ensures above { (k : ℕ) → at + 8 ≤ k → slice_index out.new k ≡ slice_index out.old k }
{
    put_eight(two.first, two.second, out, at);
}
