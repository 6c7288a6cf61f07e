//! Up to four blocks looked for.

ghost use Rattle.std.specs.Prelude.{◌≡◌, ◌≤◌, ◌<◌, ◌+◌, ◌-◌, ◌*◌, ◌/◌, ◌%◌, ◌^◌, ◌↔◌, ℕ, ℤ, List, length, slice_index};
ghost use Rattle.rz_words.specs.Grid.{Grid, IsShape, grid_of};
ghost use Rattle.mj_inverse.specs.Fits.{IsFound};
ghost use Rattle.mj_inverse_four.specs.Fragments.{AreAngles, AreThere, fragment_search, given_by};
ghost use Rattle.mj_inverse_four.specs.Rows.{HasBins, IsPadded, IsTaken, direction_of, inner, room_of, width_of};

use crate::compare::compare_all;
use crate::fill::fill_rows;
use crate::frame::{Frame, clear_between};
use crate::lines::{Line, fill_lines};
use crate::peel::peel_rows;
use crate::starts::Group;
use std::simd::prelude::*;

/// Looks for the blocks of a group by their projections at these angles. The bins of block `i` in projection `m` begin
/// at `i * strides[m]` in `parts[m]`. Bit `i` of the answer is 1 where the block that comes `i` after the first has no words;
/// the words of the others stand side by side in `room`.
pub fn find_four(
    angles: &[i32],
    parts: &[&[u64]],
    strides: &[usize],
    group: Group,
    frame: Frame,
    room: &mut [u64],
) -> u8
    requires angles { AreAngles frame.rows frame.reach angles.now }
    requires some { 0 < group.count }
    requires four { group.count ≤ 4 }
    requires few_blocks { group.first < 2 ^ 62 }
    requires there { AreThere frame.rows frame.cols angles.now parts.now strides.now (group.first + (group.count - 1)) }
    requires shape { IsShape frame.rows frame.cols }
    requires few { frame.reach ≤ 256 }
    requires eights { frame.cols / 8 * 8 ≡ frame.cols }
    requires room { length room.old ≡ room_of frame.rows frame.cols frame.reach }
    ensures found { (i : ℕ) (ws : List ℕ) → i < group.count → result / 2 ^ i % 2 ≡ 0 → IsTaken frame.rows frame.cols frame.reach room.new i ws →
        IsFound (fragment_search frame.rows frame.cols angles.now parts.now strides.now (group.first + i)) (grid_of frame.rows frame.cols ws) }
    ensures complete { (i : ℕ) (g : Grid) → i < group.count → IsFound (fragment_search frame.rows frame.cols angles.now parts.now strides.now (group.first + i)) g →
        (result / 2 ^ i % 2 ≡ 0) × ((ws : List ℕ) → IsTaken frame.rows frame.cols frame.reach room.new i ws → g ≡ grid_of frame.rows frame.cols ws) }
{
    mask(sweep(angles, parts, strides, group, frame, room))
}

/// Reads the words of each of four blocks into `grid`. Answers a word for each block that is zero exactly where they have
/// all its bins.
fn sweep(
    angles: &[i32],
    parts: &[&[u64]],
    strides: &[usize],
    group: Group,
    frame: Frame,
    grid: &mut [u64],
) -> u64x4
    requires angles { AreAngles frame.rows frame.reach angles.now }
    requires some { 0 < group.count }
    requires four { group.count ≤ 4 }
    requires few_blocks { group.first < 2 ^ 62 }
    requires there { AreThere frame.rows frame.cols angles.now parts.now strides.now (group.first + (group.count - 1)) }
    requires shape { IsShape frame.rows frame.cols }
    requires few { frame.reach ≤ 256 }
    requires eights { frame.cols / 8 * 8 ≡ frame.cols }
    requires room { length grid.old ≡ room_of frame.rows frame.cols frame.reach }
    ensures exact { (i : ℕ) → i < 4 → (slice_index result i ≡ 0 ↔ ((l : ℕ) → l < frame.rows →
        HasBins frame.rows frame.cols (given_by frame.rows parts.now strides.now group) (direction_of frame.rows angles.now) (inner grid.new (width_of frame.cols frame.reach) frame.reach i) i l)) }
    ensures only { (i : ℕ) (f : ℕ → ℕ → ℕ) → i < 4 →
        ((l : ℕ) → l < frame.rows → HasBins frame.rows frame.cols (given_by frame.rows parts.now strides.now group) (direction_of frame.rows angles.now) f i l) →
        (l k : ℕ) → l < frame.rows → k < frame.cols → f l k ≡ inner grid.new (width_of frame.cols frame.reach) frame.reach i l k }
{
    let mut room = [Line {
        turn: 0,
        at: 0,
        step: 0,
        own: 0,
    }; 16];
    let lines = &mut room[..frame.rows];
    fill_lines(lines, angles, frame);
    clear_between(grid, frame);
    fill_rows(angles, parts, strides, group, frame, grid);
    peel_rows(angles, lines, frame, grid);
    compare_all(angles, parts, strides, group, frame, grid)
}

/// Which of four words are not zero, a bit for each.
fn mask(rest: u64x4) -> u8
    ensures { (i : ℕ) → i < 4 → (result / 2 ^ i % 2 ≡ 0 ↔ slice_index rest i ≡ 0) }
{
    let lanes = rest.simd_ne(u64x4::splat(0)).to_bitmask();
    lanes as u8
}
