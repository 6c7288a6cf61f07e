//! Four blocks that stand side by side, taken apart.

ghost use Rattle.std.specs.Prelude.{◌≡◌, ◌≤◌, ◌<◌, ◌+◌, ◌*◌, ◌/◌, ◌^◌, ℕ, length, slice_index, slice_range};
ghost use Rattle.rz_words.specs.Grid.{IsShape};
ghost use Rattle.mj_inverse_four.specs.Rows.{IsTaken, room_of};

use crate::fours::{Starts, put_eight, two_of};
use crate::frame::Frame;

/// Where the words of four places begin, of which the first begins in word `at`.
#[inline(always)]
fn places_from(at: usize) -> Starts
    requires { at < 2 ^ 62 }
    ensures first { result.first ≡ at }
    ensures second { result.second ≡ at + 4 }
    ensures third { result.third ≡ at + 8 }
    ensures fourth { result.fourth ≡ at + 12 }
{
    Starts {
        first: at,
        second: at + 4,
        third: at + 8,
        fourth: at + 12,
    }
}

/// Writes the words of two blocks in eight places, of which the first block's first word is `at`.
#[inline(always)]
fn take_two(grid: &[u64], at: usize, a: &mut [u64], b: &mut [u64], to: usize)
    requires grid { at + 30 ≤ length grid.now }
    requires first { to + 8 ≤ length a.old }
    requires second { to + 8 ≤ length b.old }
    ensures first { (r : ℕ) → r < 8 → slice_index a.new (to + r) ≡ slice_index grid.now (at + 4 * r) }
    ensures second { (r : ℕ) → r < 8 → slice_index b.new (to + r) ≡ slice_index grid.now (at + 4 * r + 1) }
    ensures first_below { (m : ℕ) → m < to → slice_index a.new m ≡ slice_index a.old m }
    ensures second_below { (m : ℕ) → m < to → slice_index b.new m ≡ slice_index b.old m }
{
    let low = two_of(grid, places_from(at), 0);
    let high = two_of(grid, places_from(at + 16), 0);
    put_eight(low.first, high.first, a, to);
    put_eight(low.second, high.second, b, to);
}

/// Takes `8 * eights` places from word `from` on apart.
fn take_row(
    grid: &[u64],
    from: usize,
    eights: usize,
    a: &mut [u64],
    b: &mut [u64],
    c: &mut [u64],
    d: &mut [u64],
    to: usize,
)
    requires grid { from + 32 * eights ≤ length grid.now }
    requires first { to + 8 * eights ≤ length a.old }
    requires second { to + 8 * eights ≤ length b.old }
    requires third { to + 8 * eights ≤ length c.old }
    requires fourth { to + 8 * eights ≤ length d.old }
    ensures first { (k : ℕ) → k < 8 * eights → slice_index a.new (to + k) ≡ slice_index grid.now (from + 4 * k + 0) }
    ensures second { (k : ℕ) → k < 8 * eights → slice_index b.new (to + k) ≡ slice_index grid.now (from + 4 * k + 1) }
    ensures third { (k : ℕ) → k < 8 * eights → slice_index c.new (to + k) ≡ slice_index grid.now (from + 4 * k + 2) }
    ensures fourth { (k : ℕ) → k < 8 * eights → slice_index d.new (to + k) ≡ slice_index grid.now (from + 4 * k + 3) }
    ensures first_below { (m : ℕ) → m < to → slice_index a.new m ≡ slice_index a.old m }
    ensures second_below { (m : ℕ) → m < to → slice_index b.new m ≡ slice_index b.old m }
    ensures third_below { (m : ℕ) → m < to → slice_index c.new m ≡ slice_index c.old m }
    ensures fourth_below { (m : ℕ) → m < to → slice_index d.new m ≡ slice_index d.old m }
{
    for h in 0..eights {
        take_two(grid, from + 32 * h, a, b, to + 8 * h);
        take_two(grid, from + 32 * h + 2, c, d, to + 8 * h);
    }
}

/// Writes the words of each of four blocks that stand in `grid`.
fn take_apart(
    grid: &[u64],
    frame: Frame,
    a: &mut [u64],
    b: &mut [u64],
    c: &mut [u64],
    d: &mut [u64],
)
    requires shape { IsShape frame.rows frame.cols }
    requires eights { frame.cols / 8 * 8 ≡ frame.cols }
    requires few { frame.reach ≤ 256 }
    requires room { length grid.now ≡ room_of frame.rows frame.cols frame.reach }
    requires first { length a.old ≡ frame.rows * frame.cols }
    requires second { length b.old ≡ frame.rows * frame.cols }
    requires third { length c.old ≡ frame.rows * frame.cols }
    requires fourth { length d.old ≡ frame.rows * frame.cols }
    ensures first { IsTaken frame.rows frame.cols frame.reach grid.now 0 a.new }
    ensures second { IsTaken frame.rows frame.cols frame.reach grid.now 1 b.new }
    ensures third { IsTaken frame.rows frame.cols frame.reach grid.now 2 c.new }
    ensures fourth { IsTaken frame.rows frame.cols frame.reach grid.now 3 d.new }
{
    for l in 0..frame.rows {
        let from = 4 * (l * frame.width() + frame.reach);
        take_row(grid, from, frame.cols / 8, a, b, c, d, l * frame.cols);
    }
}

/// Writes the words of four blocks that stand in `grid`, one block after the other.
pub fn take_four(grid: &[u64], frame: Frame, out: &mut [u64])
    requires shape { IsShape frame.rows frame.cols }
    requires eights { frame.cols / 8 * 8 ≡ frame.cols }
    requires few { frame.reach ≤ 256 }
    requires room { length grid.now ≡ room_of frame.rows frame.cols frame.reach }
    requires out { length out.old ≡ 4 * (frame.rows * frame.cols) }
    ensures { (i : ℕ) → i < 4 → IsTaken frame.rows frame.cols frame.reach grid.now i
        (slice_range out.new (i * (frame.rows * frame.cols)) (i * (frame.rows * frame.cols) + frame.rows * frame.cols)) }
{
    let words = frame.rows * frame.cols;
    let (a, others) = out.split_at_mut(words);
    let (b, others) = others.split_at_mut(words);
    let (c, d) = others.split_at_mut(words);
    take_apart(grid, frame, a, b, c, d);
}

/// Writes the words of block `i` of four that stand in `grid`.
pub fn take_one(grid: &[u64], i: usize, frame: Frame, out: &mut [u64])
    requires few { i < 4 }
    requires shape { IsShape frame.rows frame.cols }
    requires reach { frame.reach ≤ 256 }
    requires room { length grid.now ≡ room_of frame.rows frame.cols frame.reach }
    requires out { length out.old ≡ frame.rows * frame.cols }
    ensures { IsTaken frame.rows frame.cols frame.reach grid.now i out.new }
{
    for l in 0..frame.rows {
        let from = 4 * (l * frame.width() + frame.reach) + i;
        take_each_fourth(
            grid,
            from,
            &mut out[l * frame.cols..l * frame.cols + frame.cols],
        );
    }
}

/// Writes each fourth word from place `from` on.
fn take_each_fourth(grid: &[u64], from: usize, out: &mut [u64])
    requires { (k : ℕ) → k < length out.old → from + 4 * k < length grid.now }
    ensures { (k : ℕ) → k < length out.old → slice_index out.new k ≡ slice_index grid.now (from + 4 * k) }
{
    for k in 0..out.len() {
        out[k] = grid[from + 4 * k];
    }
}
