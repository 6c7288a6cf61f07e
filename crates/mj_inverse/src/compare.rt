//! The words of eight blocks compared with the bins that gave none of them.

ghost use Rattle.std.specs.Prelude.{◌≡◌, ◌≤◌, ◌<◌, ◌+◌, ◌*◌, ◌↔◌, ℕ, length, slice_index, unsigned_abs};
ghost use Rattle.rz_words.specs.Grid.{IsShape};
ghost use Rattle.mj_angles.specs.Projection.{bin, bins as bin_count};
ghost use Rattle.mj_inverse.specs.Rows.{Every};
ghost use Rattle.mj_inverse.specs.Padded.{AreTold, HasBins, IsLined, IsPadded, IsPlaced, IsTold, inner, width_of};

use crate::lines::{Frame, first_bin, line_start, line_step};
use crate::placed::Placed;
use mj_angles::bins;
use mj_inverse_sums::add_difference;
use std::simd::prelude::*;

/// How many bins there are.
#[inline(always)]
fn bins_in(s: &Placed, rows: usize, cols: usize) -> usize
    requires small { unsigned_abs s.now.direction ≤ 16 }
    requires shape { IsShape rows cols }
    ensures { result ≡ bin_count s.now.direction rows cols }
{
    bins(s.direction, rows, cols)
}

/// Adds to `rest` what the bins from `from` to `to` of a projection differ in from the lines of the words, as
/// a bit or.
#[inline(always)]
fn compare_run(
    s: &Placed,
    words: &[u64],
    frame: Frame,
    grid: &[u64],
    rest: u64x8,
    from: usize,
    to: usize,
) -> u64x8
    requires given { IsPlaced frame.rows frame.cols (length words.now) s.now }
    requires lined { IsLined frame.rows frame.reach s.now }
    requires shape { IsShape frame.rows frame.cols }
    requires few { frame.reach ≤ 256 }
    requires room { length grid.now ≡ 8 * (frame.rows * width_of frame.cols frame.reach) }
    requires padded { IsPadded frame.rows frame.cols frame.reach grid.now }
    requires order { from ≤ to }
    requires within { to ≤ bin_count s.now.direction frame.rows frame.cols }
    ensures { (i : ℕ) → i < 8 → (slice_index result i ≡ 0 ↔ ((slice_index rest i ≡ 0) × ((b : ℕ) → from ≤ b → b < to →
        slice_index words.now (8 * (s.now.from + b) + i) ≡ bin (inner grid.now (width_of frame.cols frame.reach) frame.reach i) frame.rows frame.cols s.now.direction b))) }
{
    let begin = line_start(s, frame);
    let step = line_step(s, frame.width());
    let mut sum = rest;
    for b in from..to {
        sum = add_difference(sum, grid, words, s.from + b, begin + b, step, frame.rows);
    }
    sum
}

/// The same of all bins, where those that gave row `n` need not be compared.
#[inline(always)]
fn compare(s: &Placed, words: &[u64], n: usize, frame: Frame, grid: &[u64], rest: u64x8) -> u64x8
    requires given { IsPlaced frame.rows frame.cols (length words.now) s.now }
    requires lined { IsLined frame.rows frame.reach s.now }
    requires shape { IsShape frame.rows frame.cols }
    requires few { frame.reach ≤ 256 }
    requires row { n < frame.rows }
    requires room { length grid.now ≡ 8 * (frame.rows * width_of frame.cols frame.reach) }
    requires padded { IsPadded frame.rows frame.cols frame.reach grid.now }
    requires told { IsTold frame.rows frame.cols frame.reach words.now grid.now n s.now }
    ensures { (i : ℕ) → i < 8 → (slice_index result i ≡ 0 ↔ ((slice_index rest i ≡ 0) × HasBins frame.rows frame.cols i (inner grid.now (width_of frame.cols frame.reach) frame.reach i) words.now s.now)) }
{
    let start = first_bin(s, frame.rows, n);
    let end = bins_in(s, frame.rows, frame.cols);
    let before = compare_run(s, words, frame, grid, rest, 0, start);
    compare_run(s, words, frame, grid, before, start + frame.cols, end)
}

/// The same, made anew for each number of rows that a layout has.
fn compare_one(
    s: &Placed,
    words: &[u64],
    n: usize,
    frame: Frame,
    grid: &[u64],
    rest: u64x8,
) -> u64x8
    requires given { IsPlaced frame.rows frame.cols (length words.now) s.now }
    requires lined { IsLined frame.rows frame.reach s.now }
    requires shape { IsShape frame.rows frame.cols }
    requires few { frame.reach ≤ 256 }
    requires row { n < frame.rows }
    requires room { length grid.now ≡ 8 * (frame.rows * width_of frame.cols frame.reach) }
    requires padded { IsPadded frame.rows frame.cols frame.reach grid.now }
    requires told { IsTold frame.rows frame.cols frame.reach words.now grid.now n s.now }
    ensures { (i : ℕ) → i < 8 → (slice_index result i ≡ 0 ↔ ((slice_index rest i ≡ 0) × HasBins frame.rows frame.cols i (inner grid.now (width_of frame.cols frame.reach) frame.reach i) words.now s.now)) }
{
    match frame.rows {
        2 => compare(s, words, n, Frame { rows: 2, ..frame }, grid, rest),
        4 => compare(s, words, n, Frame { rows: 4, ..frame }, grid, rest),
        8 => compare(s, words, n, Frame { rows: 8, ..frame }, grid, rest),
        _ => compare(s, words, n, frame, grid, rest),
    }
}

/// The same of all projections, of which the first gave row `n`.
pub fn compare_all(
    all: &[Placed],
    words: &[u64],
    n: usize,
    frame: Frame,
    grid: &[u64],
    rest: u64x8,
) -> u64x8
    requires given { Every (IsPlaced frame.rows frame.cols (length words.now)) all.now }
    requires lined { Every (IsLined frame.rows frame.reach) all.now }
    requires shape { IsShape frame.rows frame.cols }
    requires few { frame.reach ≤ 256 }
    requires count { n + length all.now ≡ frame.rows }
    requires room { length grid.now ≡ 8 * (frame.rows * width_of frame.cols frame.reach) }
    requires padded { IsPadded frame.rows frame.cols frame.reach grid.now }
    requires told { AreTold frame.rows frame.cols frame.reach words.now grid.now n all.now }
    ensures { (i : ℕ) → i < 8 → (slice_index result i ≡ 0 ↔ ((slice_index rest i ≡ 0) × Every (HasBins frame.rows frame.cols i (inner grid.now (width_of frame.cols frame.reach) frame.reach i) words.now) all.now)) }
{
    match all.split_first() {
        None => rest,
        Some((first, others)) => {
            let more = compare_one(first, words, n, frame, grid, rest);
            compare_all(others, words, n + 1, frame, grid, more)
        }
    }
}
