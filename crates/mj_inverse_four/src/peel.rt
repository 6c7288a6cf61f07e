//! Four blocks read off their projections, a word of each at a time.
//!
//! The angles fall from row to row, and row `n` is read off its own projection: column `k` in turn `k` after
//! column 0, and within a turn the rows follow one another. All other words on the line of a word are then
//! read before it, so it is the bin and those words. The words stand in rows with zeros between them, so
//! that a line meets every row; before a word is read, its bin stands in its place.

ghost use Rattle.std.specs.Prelude.{◌≡◌, ◌≤◌, ◌<◌, ◌+◌, ◌-◌, ◌*◌, ℕ, ℤ, length, slice_index};
ghost use Rattle.rz_words.specs.Grid.{IsShape};
ghost use Rattle.mj_angles.specs.Projection.{bin, row_start as start_of_row};
ghost use Rattle.mj_angles.proofs.Peel.{turn_of};
ghost use Rattle.mj_inverse_four.specs.Fragments.{AreAngles};
ghost use Rattle.mj_inverse_four.specs.Rows.{AreBins, AreGiven, AreLines, IsPadded, IsSwept, direction_of, inner, line_sum, room_of, width_of};

use crate::fours::{four_at, put_four};
use crate::frame::Frame;
use crate::lines::{Line, first_turn, last_turn};
use std::simd::prelude::*;

/// The exclusive or of the words of each block in `n` rows, of which the first is met in word `at`, and each of the
/// others `step` words further.
#[inline(always)]
pub fn sum_of_line(grid: &[u64], at: usize, step: usize, n: usize) -> u64x4
    requires { (j : ℕ) → j < n → at + j * step + 4 ≤ length grid.now }
    ensures { (i : ℕ) → i < 4 → slice_index result i ≡ line_sum grid.now i n at step }
{
    let mut sum = u64x4::splat(0);
    for j in 0..n {
        sum = sum ^ four_at(grid, at + j * step);
    }
    sum
}

/// Reads the words in column `k` of row `n`, in whose place their bins stand: they are the sums of their lines.
#[inline(always)]
fn read_word(angles: &[i32], lines: &[Line], n: usize, k: usize, frame: Frame, grid: &mut [u64])
    requires angles { AreAngles frame.rows frame.reach angles.now }
    requires lines { AreLines frame.rows frame.cols frame.reach (direction_of frame.rows angles.now) lines.now frame.rows }
    requires rows { length lines.now ≡ frame.rows }
    requires shape { IsShape frame.rows frame.cols }
    requires few { frame.reach ≤ 256 }
    requires row { n < frame.rows }
    requires column { k < frame.cols }
    requires room { length grid.old ≡ room_of frame.rows frame.cols frame.reach }
    requires padded { IsPadded (frame.rows + 1) frame.cols frame.reach grid.old }
    ensures here { (i : ℕ) → i < 4 → inner grid.new (width_of frame.cols frame.reach) frame.reach i n k ≡
        bin (inner grid.old (width_of frame.cols frame.reach) frame.reach i) frame.rows frame.cols (direction_of frame.rows angles.now n) (start_of_row (direction_of frame.rows angles.now n) frame.rows n + k) }
    ensures other { (i l' k' : ℕ) → i < 4 → l' < frame.rows → k' < frame.cols → (l' ≡ n → k' ≡ k → ⊥) →
        inner grid.new (width_of frame.cols frame.reach) frame.reach i l' k' ≡ inner grid.old (width_of frame.cols frame.reach) frame.reach i l' k' }
    ensures padded { IsPadded (frame.rows + 1) frame.cols frame.reach grid.new }
{
    let line = lines[n];
    let sum = sum_of_line(grid, line.at + 4 * k, line.step, frame.rows);
    put_four(sum, grid, line.own + 4 * k);
}

/// The same of the words that are next in turn.
#[inline(always)]
fn read_next(angles: &[i32], lines: &[Line], n: usize, k: usize, frame: Frame, grid: &mut [u64])
    requires angles { AreAngles frame.rows frame.reach angles.now }
    requires lines { AreLines frame.rows frame.cols frame.reach (direction_of frame.rows angles.now) lines.now frame.rows }
    requires rows { length lines.now ≡ frame.rows }
    requires shape { IsShape frame.rows frame.cols }
    requires few { frame.reach ≤ 256 }
    requires row { n < frame.rows }
    requires column { k < frame.cols }
    requires room { length grid.old ≡ room_of frame.rows frame.cols frame.reach }
    requires padded { IsPadded (frame.rows + 1) frame.cols frame.reach grid.old }
    ensures padded { IsPadded (frame.rows + 1) frame.cols frame.reach grid.new }
    ensures swept { (given : ℕ → ℕ → ℕ → ℕ) (t : ℕ) → k + turn_of (direction_of frame.rows angles.now) 16 frame.rows n ≡ t →
        IsSwept frame.rows frame.cols frame.reach given (direction_of frame.rows angles.now) grid.old t n → IsSwept frame.rows frame.cols frame.reach given (direction_of frame.rows angles.now) grid.new t (n + 1) }
{
    read_word(angles, lines, n, k, frame, grid);
}

/// Reads the words of the turns from `from` to `to`.
#[inline(always)]
fn peel_some(angles: &[i32], lines: &[Line], frame: Frame, grid: &mut [u64], from: usize, to: usize)
    requires angles { AreAngles frame.rows frame.reach angles.now }
    requires lines { AreLines frame.rows frame.cols frame.reach (direction_of frame.rows angles.now) lines.now frame.rows }
    requires rows { length lines.now ≡ frame.rows }
    requires shape { IsShape frame.rows frame.cols }
    requires few { frame.reach ≤ 256 }
    requires room { length grid.old ≡ room_of frame.rows frame.cols frame.reach }
    requires padded { IsPadded (frame.rows + 1) frame.cols frame.reach grid.old }
    requires order { from ≤ to }
    ensures padded { IsPadded (frame.rows + 1) frame.cols frame.reach grid.new }
    ensures swept { (given : ℕ → ℕ → ℕ → ℕ) → IsSwept frame.rows frame.cols frame.reach given (direction_of frame.rows angles.now) grid.old from 0 → IsSwept frame.rows frame.cols frame.reach given (direction_of frame.rows angles.now) grid.new to 0 }
{
    'turns: for t in from..to {
        'rows: for n in 0..frame.rows {
            let turn = lines[n].turn;
            if turn <= t && t - turn < frame.cols {
                read_next(angles, lines, n, t - turn, frame, grid);
            }
        }
    }
}

/// The same of turns in which each row gives a word.
#[inline(always)]
fn peel_each(angles: &[i32], lines: &[Line], frame: Frame, grid: &mut [u64], from: usize, to: usize)
    requires angles { AreAngles frame.rows frame.reach angles.now }
    requires lines { AreLines frame.rows frame.cols frame.reach (direction_of frame.rows angles.now) lines.now frame.rows }
    requires rows { length lines.now ≡ frame.rows }
    requires shape { IsShape frame.rows frame.cols }
    requires few { frame.reach ≤ 256 }
    requires room { length grid.old ≡ room_of frame.rows frame.cols frame.reach }
    requires padded { IsPadded (frame.rows + 1) frame.cols frame.reach grid.old }
    requires order { from ≤ to }
    requires begun { from < to → (l : ℕ) → l < frame.rows → turn_of (direction_of frame.rows angles.now) 16 frame.rows l ≤ from }
    requires going { (l : ℕ) → l < frame.rows → to ≤ turn_of (direction_of frame.rows angles.now) 16 frame.rows l + frame.cols }
    ensures padded { IsPadded (frame.rows + 1) frame.cols frame.reach grid.new }
    ensures swept { (given : ℕ → ℕ → ℕ → ℕ) → IsSwept frame.rows frame.cols frame.reach given (direction_of frame.rows angles.now) grid.old from 0 → IsSwept frame.rows frame.cols frame.reach given (direction_of frame.rows angles.now) grid.new to 0 }
{
    'turns: for t in from..to {
        'rows: for n in 0..frame.rows {
            read_next(angles, lines, n, t - lines[n].turn, frame, grid);
        }
    }
}

/// Reads all words.
#[inline(always)]
fn peel(angles: &[i32], lines: &[Line], frame: Frame, grid: &mut [u64])
    requires angles { AreAngles frame.rows frame.reach angles.now }
    requires lines { AreLines frame.rows frame.cols frame.reach (direction_of frame.rows angles.now) lines.now frame.rows }
    requires rows { length lines.now ≡ frame.rows }
    requires shape { IsShape frame.rows frame.cols }
    requires few { frame.reach ≤ 256 }
    requires room { length grid.old ≡ room_of frame.rows frame.cols frame.reach }
    requires padded { IsPadded (frame.rows + 1) frame.cols frame.reach grid.old }
    ensures padded { IsPadded (frame.rows + 1) frame.cols frame.reach grid.new }
    ensures given { (given : ℕ → ℕ → ℕ → ℕ) → AreBins frame.rows frame.cols frame.reach given (direction_of frame.rows angles.now) grid.old frame.rows → AreGiven frame.rows frame.cols frame.reach given (direction_of frame.rows angles.now) grid.new }
{
    let first = first_turn(lines, 768);
    let last = last_turn(lines, first);
    let end = first + frame.cols;
    let steady = last.min(end);
    peel_some(angles, lines, frame, grid, first, steady);
    peel_each(angles, lines, frame, grid, steady, end);
    peel_some(angles, lines, frame, grid, end, last + frame.cols);
}

/// The same, made anew for each number of rows that a layout has.
pub fn peel_rows(angles: &[i32], lines: &[Line], frame: Frame, grid: &mut [u64])
    requires angles { AreAngles frame.rows frame.reach angles.now }
    requires lines { AreLines frame.rows frame.cols frame.reach (direction_of frame.rows angles.now) lines.now frame.rows }
    requires rows { length lines.now ≡ frame.rows }
    requires shape { IsShape frame.rows frame.cols }
    requires few { frame.reach ≤ 256 }
    requires room { length grid.old ≡ room_of frame.rows frame.cols frame.reach }
    requires padded { IsPadded (frame.rows + 1) frame.cols frame.reach grid.old }
    ensures padded { IsPadded (frame.rows + 1) frame.cols frame.reach grid.new }
    ensures given { (given : ℕ → ℕ → ℕ → ℕ) → AreBins frame.rows frame.cols frame.reach given (direction_of frame.rows angles.now) grid.old frame.rows → AreGiven frame.rows frame.cols frame.reach given (direction_of frame.rows angles.now) grid.new }
{
    match frame.rows {
        2 => peel(angles, lines, Frame { rows: 2, ..frame }, grid),
        4 => peel(angles, lines, Frame { rows: 4, ..frame }, grid),
        8 => peel(angles, lines, Frame { rows: 8, ..frame }, grid),
        _ => peel(angles, lines, frame, grid),
    }
}
