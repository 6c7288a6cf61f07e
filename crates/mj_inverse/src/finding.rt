//! Eight blocks looked for in rows of words.

ghost use Rattle.std.specs.Prelude.{◌≡◌, ◌≤◌, ◌<◌, ◌+◌, ◌-◌, ◌*◌, ◌/◌, ◌%◌, ◌^◌, ◌↔◌, ℕ, List, length, slice_index, unsigned_abs, All};
ghost use Rattle.rz_words.specs.Grid.{Grid, IsShape, grid_of};
ghost use Rattle.mj_inverse.specs.Fits.{AnglesDiffer, IsFound, search_from, total_bins};
ghost use Rattle.mj_inverse.specs.Rows.{Differ, Every};
ghost use Rattle.mj_inverse.specs.Store.{lane_grid, lane_search};
ghost use Rattle.mj_inverse.specs.Padded.{IsLined, IsPadded, IsPlaced, IsTaken, inner, raised_angle, search_over, width_of};

use crate::lines::Frame;
use crate::order::sort_falling;
use crate::placed::{Placed, place_from};
use crate::sweep::{copy_words, sweep};
use std::simd::prelude::*;

/// Reads the words of eight blocks into `grid`. Bit `j` of the answer is 1 where no words of block `j` have its bins.
pub fn find(all: &mut [Placed], words: &[u64], frame: Frame, grid: &mut [u64]) -> u8
    requires given { Every (IsPlaced frame.rows frame.cols (length words.now)) all.old }
    requires lined { Every (IsLined frame.rows frame.reach) all.old }
    requires differ { Differ raised_angle all.old }
    requires count { length all.old ≡ frame.rows }
    requires shape { IsShape frame.rows frame.cols }
    requires few { frame.reach ≤ 256 }
    requires room { length grid.old ≡ 8 * (frame.rows * width_of frame.cols frame.reach) }
    requires padded { IsPadded frame.rows frame.cols frame.reach grid.old }
    ensures padded { IsPadded frame.rows frame.cols frame.reach grid.new }
    ensures found { (j : ℕ) (ws : List ℕ) → j < 8 → result / 2 ^ j % 2 ≡ 0 → IsTaken frame.rows frame.cols frame.reach grid.new j ws →
        IsFound (lane_search 8 j (search_over frame.rows frame.cols words.now all.old)) (grid_of frame.rows frame.cols ws) }
    ensures complete { (j : ℕ) (g : Grid) → j < 8 → IsFound (lane_search 8 j (search_over frame.rows frame.cols words.now all.old)) g →
        (result / 2 ^ j % 2 ≡ 0) × ((ws : List ℕ) → IsTaken frame.rows frame.cols frame.reach grid.new j ws → g ≡ grid_of frame.rows frame.cols ws) }
{
    sort_falling(all);
    let mut marks = [0u64; 8];
    mark(sweep(all, words, frame, grid), &mut marks);
    mask(&marks)
}

/// The same, and the words are written side by side. Those of a block whose bit is 1 are any words.
pub fn find_beside(
    all: &mut [Placed],
    words: &[u64],
    frame: Frame,
    grid: &mut [u64],
    out: &mut [u64],
) -> u8
    requires given { Every (IsPlaced frame.rows frame.cols (length words.now)) all.old }
    requires lined { Every (IsLined frame.rows frame.reach) all.old }
    requires differ { Differ raised_angle all.old }
    requires count { length all.old ≡ frame.rows }
    requires shape { IsShape frame.rows frame.cols }
    requires few { frame.reach ≤ 256 }
    requires room { length grid.old ≡ 8 * (frame.rows * width_of frame.cols frame.reach) }
    requires padded { IsPadded frame.rows frame.cols frame.reach grid.old }
    requires out { length out.old ≡ 8 * (frame.rows * frame.cols) }
    ensures padded { IsPadded frame.rows frame.cols frame.reach grid.new }
    ensures exact { (j : ℕ) → j < 8 → (result / 2 ^ j % 2 ≡ 0 ↔ ((g : Grid) × IsFound (lane_search 8 j (search_over frame.rows frame.cols words.now all.old)) g)) }
    ensures found { (j : ℕ) → j < 8 → result / 2 ^ j % 2 ≡ 0 → IsFound (lane_search 8 j (search_over frame.rows frame.cols words.now all.old)) (lane_grid 8 j frame.rows frame.cols out.new) }
    ensures only { (j : ℕ) (g : Grid) → j < 8 → IsFound (lane_search 8 j (search_over frame.rows frame.cols words.now all.old)) g → g ≡ lane_grid 8 j frame.rows frame.cols out.new }
{
    let answer = find(all, words, frame, grid);
    copy_rows(grid, frame, out);
    answer
}

/// The same of projections at these angles, whose bins stand one after the other in `words`.
pub fn find_from(angles: &[i32], words: &[u64], frame: Frame, grid: &mut [u64]) -> u8
    requires small { All (λ p. unsigned_abs p ≤ 16) angles.now }
    requires near { All (λ p. unsigned_abs p ≤ frame.reach) angles.now }
    requires reaches { All (λ p. unsigned_abs p * (frame.rows - 1) ≤ frame.reach) angles.now }
    requires differ { AnglesDiffer angles.now }
    requires count { length angles.now ≡ frame.rows }
    requires size { length words.now ≡ 8 * total_bins frame.rows frame.cols angles.now }
    requires shape { IsShape frame.rows frame.cols }
    requires few { frame.reach ≤ 256 }
    requires room { length grid.old ≡ 8 * (frame.rows * width_of frame.cols frame.reach) }
    requires padded { IsPadded frame.rows frame.cols frame.reach grid.old }
    ensures padded { IsPadded frame.rows frame.cols frame.reach grid.new }
    ensures found { (j : ℕ) (ws : List ℕ) → j < 8 → result / 2 ^ j % 2 ≡ 0 → IsTaken frame.rows frame.cols frame.reach grid.new j ws →
        IsFound (lane_search 8 j (search_from frame.rows frame.cols angles.now words.now)) (grid_of frame.rows frame.cols ws) }
    ensures complete { (j : ℕ) (g : Grid) → j < 8 → IsFound (lane_search 8 j (search_from frame.rows frame.cols angles.now words.now)) g →
        (result / 2 ^ j % 2 ≡ 0) × ((ws : List ℕ) → IsTaken frame.rows frame.cols frame.reach grid.new j ws → g ≡ grid_of frame.rows frame.cols ws) }
{
    let mut room = [Placed {
        direction: 0,
        angle: 0,
        from: 0,
    }; 16];
    let all = &mut room[..frame.rows];
    place_from(all, angles, 0, frame.rows, frame.cols);
    find(all, words, frame, grid)
}

/// Both of these.
pub fn find_from_beside(
    angles: &[i32],
    words: &[u64],
    frame: Frame,
    grid: &mut [u64],
    out: &mut [u64],
) -> u8
    requires small { All (λ p. unsigned_abs p ≤ 16) angles.now }
    requires near { All (λ p. unsigned_abs p ≤ frame.reach) angles.now }
    requires reaches { All (λ p. unsigned_abs p * (frame.rows - 1) ≤ frame.reach) angles.now }
    requires differ { AnglesDiffer angles.now }
    requires count { length angles.now ≡ frame.rows }
    requires size { length words.now ≡ 8 * total_bins frame.rows frame.cols angles.now }
    requires shape { IsShape frame.rows frame.cols }
    requires few { frame.reach ≤ 256 }
    requires room { length grid.old ≡ 8 * (frame.rows * width_of frame.cols frame.reach) }
    requires padded { IsPadded frame.rows frame.cols frame.reach grid.old }
    requires out { length out.old ≡ 8 * (frame.rows * frame.cols) }
    ensures padded { IsPadded frame.rows frame.cols frame.reach grid.new }
    ensures exact { (j : ℕ) → j < 8 → (result / 2 ^ j % 2 ≡ 0 ↔ ((g : Grid) × IsFound (lane_search 8 j (search_from frame.rows frame.cols angles.now words.now)) g)) }
    ensures found { (j : ℕ) → j < 8 → result / 2 ^ j % 2 ≡ 0 → IsFound (lane_search 8 j (search_from frame.rows frame.cols angles.now words.now)) (lane_grid 8 j frame.rows frame.cols out.new) }
    ensures only { (j : ℕ) (g : Grid) → j < 8 → IsFound (lane_search 8 j (search_from frame.rows frame.cols angles.now words.now)) g → g ≡ lane_grid 8 j frame.rows frame.cols out.new }
{
    let answer = find_from(angles, words, frame, grid);
    copy_rows(grid, frame, out);
    answer
}

/// Copies the words row by row, without the zeros beside them.
pub fn copy_rows(grid: &[u64], frame: Frame, out: &mut [u64])
    requires shape { IsShape frame.rows frame.cols }
    requires few { frame.reach ≤ 256 }
    requires room { length grid.now ≡ 8 * (frame.rows * width_of frame.cols frame.reach) }
    requires out { length out.old ≡ 8 * (frame.rows * frame.cols) }
    ensures { (i l k : ℕ) → i < 8 → l < frame.rows → k < frame.cols → slice_index out.new (8 * (l * frame.cols + k) + i) ≡ inner grid.now (width_of frame.cols frame.reach) frame.reach i l k }
{
    for l in 0..frame.rows {
        let from = 8 * (l * frame.width() + frame.reach);
        let to = 8 * (l * frame.cols);
        copy_words(grid, from, 8 * frame.cols, out, to);
    }
}

/// Writes eight words.
fn mark(rest: u64x8, bad: &mut [u64])
    requires { length bad.old ≡ 8 }
    ensures { (j : ℕ) → j < 8 → slice_index bad.new j ≡ slice_index rest j }
{
    rest.copy_to_slice(bad);
}

/// Which of eight words are not zero, a bit for each.
fn mask(marks: &[u64]) -> u8
    requires { length marks.now ≡ 8 }
    ensures { (j : ℕ) → j < 8 → (result / 2 ^ j % 2 ≡ 0 ↔ slice_index marks.now j ≡ 0) }
{
    let lanes = u64x8::from_slice(marks)
        .simd_ne(u64x8::splat(0))
        .to_bitmask();
    lanes as u8
}
