//! The words on a line, eight blocks side by side: a place has eight words, one of each block.

ghost use Rattle.std.specs.Prelude.{◌≡◌, ◌≤◌, ◌<◌, ◌+◌, ◌*◌, ℕ, length, slice_index, bit_or, bit_xor};
ghost use Rattle.mj_inverse_sums.specs.Line.{line_sum};

use std::simd::prelude::*;

/// Writes the sum of the words in `n` places into place `own`: of those, the first is `at`, and each of the
/// others `step` places further.
#[inline(always)]
pub fn write_sum(grid: &mut [u64], own: usize, at: usize, step: usize, n: usize)
    requires line { (j : ℕ) → j < n → 8 * (at + j * step) + 8 ≤ length grid.old }
    requires own { 8 * own + 8 ≤ length grid.old }
    ensures here { (i : ℕ) → i < 8 → slice_index grid.new (8 * own + i) ≡ line_sum grid.old i n at step }
    ensures below { (k : ℕ) → k < 8 * own → slice_index grid.new k ≡ slice_index grid.old k }
    ensures above { (k : ℕ) → 8 * own + 8 ≤ k → slice_index grid.new k ≡ slice_index grid.old k }
{
    let sum = sum_of_line(grid, at, step, n);
    sum.copy_to_slice(&mut grid[8 * own..]);
}

/// Adds to `rest` what the bins `bin` and the sum of their lines differ in, as a bit or.
#[inline(always)]
pub fn add_difference(
    rest: u64x8,
    grid: &[u64],
    given: &[u64],
    bin: usize,
    at: usize,
    step: usize,
    n: usize,
) -> u64x8
    requires line { (j : ℕ) → j < n → 8 * (at + j * step) + 8 ≤ length grid.now }
    requires given { 8 * bin + 8 ≤ length given.now }
    ensures { (i : ℕ) → i < 8 → slice_index result i ≡ bit_or (slice_index rest i) (bit_xor (slice_index given.now (8 * bin + i)) (line_sum grid.now i n at step)) }
{
    let sum = sum_of_line(grid, at, step, n);
    rest | (u64x8::from_slice(&given[8 * bin..]) ^ sum)
}

/// The exclusive or of the words of each block in `n` places, of which the first is `at`, and each of the
/// others `step` places further.
#[inline(always)]
fn sum_of_line(grid: &[u64], at: usize, step: usize, n: usize) -> u64x8
    requires { (j : ℕ) → j < n → 8 * (at + j * step) + 8 ≤ length grid.now }
    ensures { (i : ℕ) → i < 8 → slice_index result i ≡ line_sum grid.now i n at step }
{
    let mut sum = u64x8::splat(0);
    for j in 0..n {
        sum = sum ^ u64x8::from_slice(&grid[8 * (at + j * step)..]);
    }
    sum
}
