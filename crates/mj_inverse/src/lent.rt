//! Eight blocks found in room that the caller lends.

ghost use Rattle.std.specs.Prelude.{◌≡◌, ◌≤◌, ◌<◌, ◌+◌, ◌-◌, ◌*◌, ◌/◌, ◌%◌, ◌^◌, ◌↔◌, ℕ, List, length, slice_index, unsigned_abs, All};
ghost use Rattle.rz_words.specs.Grid.{Grid, IsShape, grid_of};
ghost use Rattle.mj_inverse.specs.Fits.{AnglesDiffer, IsFound, search_from, total_bins};
ghost use Rattle.mj_inverse.specs.Store.{lane_grid, lane_search};
ghost use Rattle.mj_inverse.specs.Padded.{IsPadded, IsTaken, width_of};

use crate::finding::{find_from, find_from_beside};
use crate::lines::Frame;

/// Looks for eight blocks by their projections at these angles, whose bins stand side by side in `bins`, one
/// projection after the other. Word `k` of row `l` of block `j` stands in `room[8 * (l * width + reach + k) + j]`
/// then. Bit `j` of the answer is 1 where no block has the projections of block `j`.
pub fn solve_in(angles: &[i32], bins: &[u64], frame: Frame, room: &mut [u64]) -> u8
    requires small { All (λ p. unsigned_abs p ≤ 16) angles.now }
    requires near { All (λ p. unsigned_abs p ≤ frame.reach) angles.now }
    requires reaches { All (λ p. unsigned_abs p * (frame.rows - 1) ≤ frame.reach) angles.now }
    requires differ { AnglesDiffer angles.now }
    requires count { length angles.now ≡ frame.rows }
    requires size { length bins.now ≡ 8 * total_bins frame.rows frame.cols angles.now }
    requires shape { IsShape frame.rows frame.cols }
    requires few { frame.reach ≤ 256 }
    requires room { length room.old ≡ 8 * (frame.rows * width_of frame.cols frame.reach) }
    ensures found { (j : ℕ) (ws : List ℕ) → j < 8 → result / 2 ^ j % 2 ≡ 0 → IsTaken frame.rows frame.cols frame.reach room.new j ws →
        IsFound (lane_search 8 j (search_from frame.rows frame.cols angles.now bins.now)) (grid_of frame.rows frame.cols ws) }
    ensures complete { (j : ℕ) (g : Grid) → j < 8 → IsFound (lane_search 8 j (search_from frame.rows frame.cols angles.now bins.now)) g →
        (result / 2 ^ j % 2 ≡ 0) × ((ws : List ℕ) → IsTaken frame.rows frame.cols frame.reach room.new j ws → g ≡ grid_of frame.rows frame.cols ws) }
{
    clear_beside(room, frame);
    find_from(angles, bins, frame, room)
}

/// The same, and the words of the eight blocks are written side by side. Those of a block whose bit is 1 are any words.
pub fn solve_beside(
    angles: &[i32],
    bins: &[u64],
    frame: Frame,
    room: &mut [u64],
    out: &mut [u64],
) -> u8
    requires small { All (λ p. unsigned_abs p ≤ 16) angles.now }
    requires near { All (λ p. unsigned_abs p ≤ frame.reach) angles.now }
    requires reaches { All (λ p. unsigned_abs p * (frame.rows - 1) ≤ frame.reach) angles.now }
    requires differ { AnglesDiffer angles.now }
    requires count { length angles.now ≡ frame.rows }
    requires size { length bins.now ≡ 8 * total_bins frame.rows frame.cols angles.now }
    requires shape { IsShape frame.rows frame.cols }
    requires few { frame.reach ≤ 256 }
    requires room { length room.old ≡ 8 * (frame.rows * width_of frame.cols frame.reach) }
    requires out { length out.old ≡ 8 * (frame.rows * frame.cols) }
    ensures exact { (j : ℕ) → j < 8 → (result / 2 ^ j % 2 ≡ 0 ↔ ((g : Grid) × IsFound (lane_search 8 j (search_from frame.rows frame.cols angles.now bins.now)) g)) }
    ensures found { (j : ℕ) → j < 8 → result / 2 ^ j % 2 ≡ 0 →
        IsFound (lane_search 8 j (search_from frame.rows frame.cols angles.now bins.now)) (lane_grid 8 j frame.rows frame.cols out.new) }
    ensures only { (j : ℕ) (g : Grid) → j < 8 → IsFound (lane_search 8 j (search_from frame.rows frame.cols angles.now bins.now)) g →
        g ≡ lane_grid 8 j frame.rows frame.cols out.new }
{
    clear_beside(room, frame);
    find_from_beside(angles, bins, frame, room, out)
}

/// Makes the places beside all rows zero.
fn clear_beside(grid: &mut [u64], frame: Frame)
    requires shape { IsShape frame.rows frame.cols }
    requires few { frame.reach ≤ 256 }
    requires room { length grid.old ≡ 8 * (frame.rows * width_of frame.cols frame.reach) }
    ensures { IsPadded frame.rows frame.cols frame.reach grid.new }
{
    for l in 0..frame.rows {
        clear_row(grid, l, frame);
    }
}

/// Makes the places beside row `l` zero.
fn clear_row(grid: &mut [u64], l: usize, frame: Frame)
    requires shape { IsShape frame.rows frame.cols }
    requires few { frame.reach ≤ 256 }
    requires row { l < frame.rows }
    requires room { length grid.old ≡ 8 * (frame.rows * width_of frame.cols frame.reach) }
    ensures { IsPadded l frame.cols frame.reach grid.old → IsPadded (l + 1) frame.cols frame.reach grid.new }
{
    let row = l * frame.width();
    clear_places(grid, row, frame.reach);
    clear_places(grid, row + (frame.reach + frame.cols), frame.reach);
}

/// Makes `n` places zero.
fn clear_places(grid: &mut [u64], from: usize, n: usize)
    requires { 8 * (from + n) ≤ length grid.old }
    ensures zero { (c i : ℕ) → c < n → i < 8 → slice_index grid.new (8 * (from + c) + i) ≡ 0 }
    ensures below { (k : ℕ) → k < 8 * from → slice_index grid.new k ≡ slice_index grid.old k }
{
    grid[8 * from..8 * (from + n)].fill(0);
}
