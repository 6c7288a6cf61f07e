//! The words of four blocks compared with the bins that gave none of them.

ghost use Rattle.std.specs.Prelude.{◌≡◌, ◌^◌, ◌≤◌, ◌<◌, ◌+◌, ◌-◌, ◌*◌, ◌/◌, ◌%◌, ◌↔◌, ℕ, ℤ, length, slice_index, unsigned_abs, bit_or, bit_xor};
ghost use Rattle.rz_words.specs.Grid.{IsShape};
ghost use Rattle.mj_angles.specs.Projection.{bin, bins as bin_count, row_start as start_of_row};
ghost use Rattle.mj_inverse_four.specs.Fragments.{AreAngles, AreThere, given_by};
ghost use Rattle.mj_inverse_four.specs.Rows.{AreGiven, HasBins, IsPadded, direction_of, inner, line_sum, room_of, width_of};
ghost use Rattle.mj_inverse_four.specs.Starts.{start_of};

use crate::fours::{Starts, two_of};
use crate::frame::Frame;
use crate::lines::{Slope, bins_in, first_bin, line_start, line_step, slope_at};
use crate::peel::sum_of_line;
use crate::starts::{Group, starts_of, words_at};
use std::simd::prelude::*;

/// Adds to `rest` what four words and the sums of lines differ in, as a bit or.
#[inline(always)]
fn add_difference(rest: u64x4, four: u64x4, grid: &[u64], at: usize, step: usize, n: usize) -> u64x4
    requires { (j : ℕ) → j < n → at + j * step + 4 ≤ length grid.now }
    ensures { (i : ℕ) → i < 4 → slice_index result i ≡ bit_or (slice_index rest i) (bit_xor (slice_index four i) (line_sum grid.now i n at step)) }
{
    rest | (four ^ sum_of_line(grid, at, step, n))
}

/// Adds to `rest` what the bins from `from` on, `2 * twos` of each block, differ in from the lines of the words at the
/// angle `p`, as a bit or.
#[inline(always)]
fn compare_run(
    words: &[u64],
    starts: Starts,
    p: Slope,
    frame: Frame,
    grid: &[u64],
    rest: u64x4,
    from: usize,
    twos: usize,
) -> u64x4
    requires small { unsigned_abs p.angle ≤ 16 }
    requires near { unsigned_abs p.angle ≤ frame.reach }
    requires reaches { unsigned_abs p.angle * (frame.rows - 1) ≤ frame.reach }
    requires shape { IsShape frame.rows frame.cols }
    requires few { frame.reach ≤ 256 }
    requires room { length grid.now ≡ room_of frame.rows frame.cols frame.reach }
    requires padded { IsPadded (frame.rows + 1) frame.cols frame.reach grid.now }
    requires within { from + 2 * twos ≤ bin_count p.angle frame.rows frame.cols }
    requires there { (i : ℕ) → i < 4 → start_of starts i + bin_count p.angle frame.rows frame.cols ≤ length words.now }
    ensures { (i : ℕ) → i < 4 → (slice_index result i ≡ 0 ↔ ((slice_index rest i ≡ 0) × ((b : ℕ) → from ≤ b → b < from + 2 * twos →
        slice_index words.now (start_of starts i + b) ≡ bin (inner grid.now (width_of frame.cols frame.reach) frame.reach i) frame.rows frame.cols p.angle b))) }
{
    let begin = 4 * line_start(p, frame);
    let step = 4 * line_step(p, frame.width());
    let mut sum = rest;
    for h in 0..twos {
        let b = from + 2 * h;
        let two = two_of(words, starts, b);
        let at = begin + 4 * b;
        let more = add_difference(sum, two.first, grid, at, step, frame.rows);
        sum = add_difference(more, two.second, grid, at + 4, step, frame.rows);
    }
    sum
}

/// Half of a number, or of the next one.
#[inline(always)]
fn half_up(n: usize) -> usize
    requires { n ≤ 65536 }
    ensures low { n ≤ 2 * result }
    ensures high { 2 * result ≤ n + 1 }
{
    (n + 1) / 2
}

/// Adds to `rest` what the bins of a projection differ in from the lines of the words, as a bit or, where those that gave row
/// `n` need not be compared.
#[inline(always)]
fn compare(
    words: &[u64],
    starts: Starts,
    p: Slope,
    n: usize,
    frame: Frame,
    grid: &[u64],
    rest: u64x4,
) -> u64x4
    requires small { unsigned_abs p.angle ≤ 16 }
    requires near { unsigned_abs p.angle ≤ frame.reach }
    requires reaches { unsigned_abs p.angle * (frame.rows - 1) ≤ frame.reach }
    requires shape { IsShape frame.rows frame.cols }
    requires few { frame.reach ≤ 256 }
    requires eights { frame.cols / 8 * 8 ≡ frame.cols }
    requires row { n < frame.rows }
    requires room { length grid.now ≡ room_of frame.rows frame.cols frame.reach }
    requires padded { IsPadded (frame.rows + 1) frame.cols frame.reach grid.now }
    requires there { (i : ℕ) → i < 4 → start_of starts i + bin_count p.angle frame.rows frame.cols ≤ length words.now }
    requires told { (i k : ℕ) → i < 4 → k < frame.cols → slice_index words.now (start_of starts i + (start_of_row p.angle frame.rows n + k))
        ≡ bin (inner grid.now (width_of frame.cols frame.reach) frame.reach i) frame.rows frame.cols p.angle (start_of_row p.angle frame.rows n + k) }
    ensures { (i : ℕ) → i < 4 → (slice_index result i ≡ 0 ↔ ((slice_index rest i ≡ 0) × ((b : ℕ) → b < bin_count p.angle frame.rows frame.cols →
        slice_index words.now (start_of starts i + b) ≡ bin (inner grid.now (width_of frame.cols frame.reach) frame.reach i) frame.rows frame.cols p.angle b))) }
{
    let start = first_bin(p, frame.rows, n);
    let end = bins_in(p, frame);
    let behind = half_up(end - (start + frame.cols));
    let before = compare_run(words, starts, p, frame, grid, rest, 0, half_up(start));
    compare_run(
        words,
        starts,
        p,
        frame,
        grid,
        before,
        end - 2 * behind,
        behind,
    )
}

/// The same, made anew for each number of rows that a layout has.
fn compare_one(
    words: &[u64],
    starts: Starts,
    p: Slope,
    n: usize,
    frame: Frame,
    grid: &[u64],
    rest: u64x4,
) -> u64x4
    requires small { unsigned_abs p.angle ≤ 16 }
    requires near { unsigned_abs p.angle ≤ frame.reach }
    requires reaches { unsigned_abs p.angle * (frame.rows - 1) ≤ frame.reach }
    requires shape { IsShape frame.rows frame.cols }
    requires few { frame.reach ≤ 256 }
    requires eights { frame.cols / 8 * 8 ≡ frame.cols }
    requires row { n < frame.rows }
    requires room { length grid.now ≡ room_of frame.rows frame.cols frame.reach }
    requires padded { IsPadded (frame.rows + 1) frame.cols frame.reach grid.now }
    requires there { (i : ℕ) → i < 4 → start_of starts i + bin_count p.angle frame.rows frame.cols ≤ length words.now }
    requires told { (i k : ℕ) → i < 4 → k < frame.cols → slice_index words.now (start_of starts i + (start_of_row p.angle frame.rows n + k))
        ≡ bin (inner grid.now (width_of frame.cols frame.reach) frame.reach i) frame.rows frame.cols p.angle (start_of_row p.angle frame.rows n + k) }
    ensures { (i : ℕ) → i < 4 → (slice_index result i ≡ 0 ↔ ((slice_index rest i ≡ 0) × ((b : ℕ) → b < bin_count p.angle frame.rows frame.cols →
        slice_index words.now (start_of starts i + b) ≡ bin (inner grid.now (width_of frame.cols frame.reach) frame.reach i) frame.rows frame.cols p.angle b))) }
{
    match frame.rows {
        2 => compare(words, starts, p, n, Frame { rows: 2, ..frame }, grid, rest),
        4 => compare(words, starts, p, n, Frame { rows: 4, ..frame }, grid, rest),
        8 => compare(words, starts, p, n, Frame { rows: 8, ..frame }, grid, rest),
        _ => compare(words, starts, p, n, frame, grid, rest),
    }
}

/// Answers a word for each block that is zero exactly where its words have all its bins. Those that gave them need not be
/// compared.
pub fn compare_all(
    angles: &[i32],
    parts: &[&[u64]],
    strides: &[usize],
    group: Group,
    frame: Frame,
    grid: &[u64],
) -> u64x4
    requires angles { AreAngles frame.rows frame.reach angles.now }
    requires some { 0 < group.count }
    requires four { group.count ≤ 4 }
    requires few_blocks { group.first < 2 ^ 62 }
    requires there { AreThere frame.rows frame.cols angles.now parts.now strides.now (group.first + (group.count - 1)) }
    requires shape { IsShape frame.rows frame.cols }
    requires few { frame.reach ≤ 256 }
    requires eights { frame.cols / 8 * 8 ≡ frame.cols }
    requires room { length grid.now ≡ room_of frame.rows frame.cols frame.reach }
    requires padded { IsPadded (frame.rows + 1) frame.cols frame.reach grid.now }
    requires told { AreGiven frame.rows frame.cols frame.reach (given_by frame.rows parts.now strides.now group) (direction_of frame.rows angles.now) grid.now }
    ensures { (i : ℕ) → i < 4 → (slice_index result i ≡ 0 ↔ ((l : ℕ) → l < frame.rows →
        HasBins frame.rows frame.cols (given_by frame.rows parts.now strides.now group) (direction_of frame.rows angles.now) (inner grid.now (width_of frame.cols frame.reach) frame.reach i) i l)) }
{
    let mut rest = u64x4::splat(0);
    for n in 0..frame.rows {
        let m = frame.rows - 1 - n;
        let words = words_at(parts, m);
        let starts = starts_of(words, strides[m], group);
        let p = slope_at(angles, frame, n);
        rest = compare_one(words, starts, p, n, frame, grid, rest);
    }
    rest
}
