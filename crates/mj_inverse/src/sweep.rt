//! Eight blocks read off their projections, a word of each at a time.
//!
//! The angles fall from row to row, and row `n` is read off projection `n`: column `k` in turn `k` after
//! column 0, and within a turn the rows follow one another. All other words on the line of a word are then
//! read before it, so it is the bin and those words. The words stand in rows with zeros on both sides, so
//! that a line meets every row; before a word is read, its bin stands in its place.

ghost use Rattle.std.specs.Prelude.{◌≡◌, ◌≤◌, ◌<◌, ◌+◌, ◌-◌, ◌*◌, ◌↔◌, ℕ, List, length, slice_index};
ghost use Rattle.rz_words.specs.Grid.{IsShape};
ghost use Rattle.mj_angles.specs.Projection.{bin, offset as offset_of, row_start as start_of_row};
ghost use Rattle.mj_angles.proofs.Peel.{turn_of};
ghost use Rattle.mj_inverse.specs.Rows.{Every};
ghost use Rattle.mj_inverse.specs.Padded.{AreBins, AreGiven, AreLines, HasBins, IsFalling, IsLined, IsPadded, IsPlaced, IsSwept, direction_at, inner, step_of, width_of};

use crate::compare::compare_all;
use crate::lines::{Frame, Line, fill_lines, first_bin, first_turn, last_turn};
use crate::placed::Placed;
use mj_inverse_sums::write_sum;
use std::simd::prelude::*;

/// Copies `n` words from place `from` on to place `to` and on.
pub fn copy_words(words: &[u64], from: usize, n: usize, out: &mut [u64], to: usize)
    requires from { from + n ≤ length words.now }
    requires to { to + n ≤ length out.old }
    ensures inside { (k : ℕ) → k < n → slice_index out.new (to + k) ≡ slice_index words.now (from + k) }
    ensures below { (k : ℕ) → k < to → slice_index out.new k ≡ slice_index out.old k }
    ensures above { (k : ℕ) → to + n ≤ k → slice_index out.new k ≡ slice_index out.old k }
{
    out[to..to + n].copy_from_slice(&words[from..from + n]);
}

/// Copies the bins that give row `n` into its place.
fn fill_row(s: &Placed, words: &[u64], n: usize, frame: Frame, grid: &mut [u64])
    requires given { IsPlaced frame.rows frame.cols (length words.now) s.now }
    requires shape { IsShape frame.rows frame.cols }
    requires few { frame.reach ≤ 256 }
    requires row { n < frame.rows }
    requires room { length grid.old ≡ 8 * (frame.rows * width_of frame.cols frame.reach) }
    requires padded { IsPadded frame.rows frame.cols frame.reach grid.old }
    ensures here { (i k : ℕ) → i < 8 → k < frame.cols → inner grid.new (width_of frame.cols frame.reach) frame.reach i n k ≡
        slice_index words.now (8 * (s.now.from + (start_of_row s.now.direction frame.rows n + k)) + i) }
    ensures before { (i l k : ℕ) → i < 8 → l < n → k < frame.cols →
        inner grid.new (width_of frame.cols frame.reach) frame.reach i l k ≡ inner grid.old (width_of frame.cols frame.reach) frame.reach i l k }
    ensures padded { IsPadded frame.rows frame.cols frame.reach grid.new }
{
    let from = 8 * (s.from + first_bin(s, frame.rows, n));
    let to = 8 * (n * frame.width() + frame.reach);
    copy_words(words, from, 8 * frame.cols, grid, to);
}

/// Copies the bins that give the words into their places.
fn fill_rows(all: &[Placed], words: &[u64], frame: Frame, grid: &mut [u64])
    requires given { Every (IsPlaced frame.rows frame.cols (length words.now)) all.now }
    requires count { length all.now ≡ frame.rows }
    requires shape { IsShape frame.rows frame.cols }
    requires few { frame.reach ≤ 256 }
    requires room { length grid.old ≡ 8 * (frame.rows * width_of frame.cols frame.reach) }
    requires padded { IsPadded frame.rows frame.cols frame.reach grid.old }
    ensures padded { IsPadded frame.rows frame.cols frame.reach grid.new }
    ensures bins { AreBins frame.rows frame.cols frame.reach words.now all.now grid.new frame.rows }
{
    for n in 0..frame.rows {
        fill_row(&all[n], words, n, frame, grid);
    }
}

/// Reads the words in column `k` of row `n`, in whose place their bins stand: they are the sums of their lines.
#[inline(always)]
fn read_word(s: &Placed, line: Line, n: usize, k: usize, frame: Frame, grid: &mut [u64])
    requires lined { IsLined frame.rows frame.reach s.now }
    requires at { line.at ≡ frame.reach - offset_of s.now.direction frame.rows + start_of_row s.now.direction frame.rows n }
    requires step { line.step ≡ step_of (width_of frame.cols frame.reach) s.now.direction }
    requires own { line.own ≡ n * width_of frame.cols frame.reach + frame.reach }
    requires shape { IsShape frame.rows frame.cols }
    requires few { frame.reach ≤ 256 }
    requires row { n < frame.rows }
    requires column { k < frame.cols }
    requires room { length grid.old ≡ 8 * (frame.rows * width_of frame.cols frame.reach) }
    requires padded { IsPadded frame.rows frame.cols frame.reach grid.old }
    ensures here { (i : ℕ) → i < 8 → inner grid.new (width_of frame.cols frame.reach) frame.reach i n k ≡
        bin (inner grid.old (width_of frame.cols frame.reach) frame.reach i) frame.rows frame.cols s.now.direction (start_of_row s.now.direction frame.rows n + k) }
    ensures other { (i l' k' : ℕ) → i < 8 → l' < frame.rows → k' < frame.cols → (l' ≡ n → k' ≡ k → ⊥) →
        inner grid.new (width_of frame.cols frame.reach) frame.reach i l' k' ≡ inner grid.old (width_of frame.cols frame.reach) frame.reach i l' k' }
    ensures padded { IsPadded frame.rows frame.cols frame.reach grid.new }
{
    write_sum(grid, line.own + k, line.at + k, line.step, frame.rows);
}

/// Reads the words in column `k` of row `n`, which are next in turn.
#[inline(always)]
fn read_next(all: &[Placed], lines: &[Line], n: usize, k: usize, frame: Frame, grid: &mut [u64])
    requires lined { Every (IsLined frame.rows frame.reach) all.now }
    requires lines { AreLines frame.rows frame.cols frame.reach (direction_at all.now) lines.now frame.rows }
    requires rows { length lines.now ≡ frame.rows }
    requires falls { IsFalling all.now }
    requires count { length all.now ≡ frame.rows }
    requires shape { IsShape frame.rows frame.cols }
    requires few { frame.reach ≤ 256 }
    requires row { n < frame.rows }
    requires column { k < frame.cols }
    requires room { length grid.old ≡ 8 * (frame.rows * width_of frame.cols frame.reach) }
    requires padded { IsPadded frame.rows frame.cols frame.reach grid.old }
    ensures padded { IsPadded frame.rows frame.cols frame.reach grid.new }
    ensures swept { (ws : List ℕ) (t : ℕ) → k + turn_of (direction_at all.now) 16 frame.rows n ≡ t →
        IsSwept frame.rows frame.cols frame.reach ws all.now grid.old t n → IsSwept frame.rows frame.cols frame.reach ws all.now grid.new t (n + 1) }
{
    read_word(&all[n], lines[n], n, k, frame, grid);
}

/// Reads the words of the turns from `from` to `to`.
#[inline(always)]
fn peel_some(all: &[Placed], lines: &[Line], frame: Frame, grid: &mut [u64], from: usize, to: usize)
    requires lined { Every (IsLined frame.rows frame.reach) all.now }
    requires lines { AreLines frame.rows frame.cols frame.reach (direction_at all.now) lines.now frame.rows }
    requires rows { length lines.now ≡ frame.rows }
    requires falls { IsFalling all.now }
    requires count { length all.now ≡ frame.rows }
    requires shape { IsShape frame.rows frame.cols }
    requires few { frame.reach ≤ 256 }
    requires room { length grid.old ≡ 8 * (frame.rows * width_of frame.cols frame.reach) }
    requires padded { IsPadded frame.rows frame.cols frame.reach grid.old }
    requires order { from ≤ to }
    ensures padded { IsPadded frame.rows frame.cols frame.reach grid.new }
    ensures swept { (ws : List ℕ) → IsSwept frame.rows frame.cols frame.reach ws all.now grid.old from 0 → IsSwept frame.rows frame.cols frame.reach ws all.now grid.new to 0 }
{
    'turns: for t in from..to {
        'rows: for n in 0..frame.rows {
            let turn = lines[n].turn;
            if turn <= t && t - turn < frame.cols {
                read_next(all, lines, n, t - turn, frame, grid);
            }
        }
    }
}

/// The same of turns in which each row gives a word.
#[inline(always)]
fn peel_each(all: &[Placed], lines: &[Line], frame: Frame, grid: &mut [u64], from: usize, to: usize)
    requires lined { Every (IsLined frame.rows frame.reach) all.now }
    requires lines { AreLines frame.rows frame.cols frame.reach (direction_at all.now) lines.now frame.rows }
    requires rows { length lines.now ≡ frame.rows }
    requires falls { IsFalling all.now }
    requires count { length all.now ≡ frame.rows }
    requires shape { IsShape frame.rows frame.cols }
    requires few { frame.reach ≤ 256 }
    requires room { length grid.old ≡ 8 * (frame.rows * width_of frame.cols frame.reach) }
    requires padded { IsPadded frame.rows frame.cols frame.reach grid.old }
    requires order { from ≤ to }
    requires begun { from < to → (l : ℕ) → l < frame.rows → turn_of (direction_at all.now) 16 frame.rows l ≤ from }
    requires going { (l : ℕ) → l < frame.rows → to ≤ turn_of (direction_at all.now) 16 frame.rows l + frame.cols }
    ensures padded { IsPadded frame.rows frame.cols frame.reach grid.new }
    ensures swept { (ws : List ℕ) → IsSwept frame.rows frame.cols frame.reach ws all.now grid.old from 0 → IsSwept frame.rows frame.cols frame.reach ws all.now grid.new to 0 }
{
    'turns: for t in from..to {
        'rows: for n in 0..frame.rows {
            read_next(all, lines, n, t - lines[n].turn, frame, grid);
        }
    }
}

/// Reads all words.
#[inline(always)]
fn peel(all: &[Placed], lines: &[Line], frame: Frame, grid: &mut [u64])
    requires lined { Every (IsLined frame.rows frame.reach) all.now }
    requires lines { AreLines frame.rows frame.cols frame.reach (direction_at all.now) lines.now frame.rows }
    requires rows { length lines.now ≡ frame.rows }
    requires falls { IsFalling all.now }
    requires count { length all.now ≡ frame.rows }
    requires shape { IsShape frame.rows frame.cols }
    requires few { frame.reach ≤ 256 }
    requires room { length grid.old ≡ 8 * (frame.rows * width_of frame.cols frame.reach) }
    requires padded { IsPadded frame.rows frame.cols frame.reach grid.old }
    ensures padded { IsPadded frame.rows frame.cols frame.reach grid.new }
    ensures given { (ws : List ℕ) → AreBins frame.rows frame.cols frame.reach ws all.now grid.old frame.rows → AreGiven frame.rows frame.cols frame.reach ws all.now grid.new }
{
    let first = first_turn(lines, 768);
    let last = last_turn(lines, first);
    let end = first + frame.cols;
    let steady = last.min(end);
    peel_some(all, lines, frame, grid, first, steady);
    peel_each(all, lines, frame, grid, steady, end);
    peel_some(all, lines, frame, grid, end, last + frame.cols);
}

/// The same, made anew for each number of rows that a layout has.
fn peel_rows(all: &[Placed], lines: &[Line], frame: Frame, grid: &mut [u64])
    requires lined { Every (IsLined frame.rows frame.reach) all.now }
    requires lines { AreLines frame.rows frame.cols frame.reach (direction_at all.now) lines.now frame.rows }
    requires rows { length lines.now ≡ frame.rows }
    requires falls { IsFalling all.now }
    requires count { length all.now ≡ frame.rows }
    requires shape { IsShape frame.rows frame.cols }
    requires few { frame.reach ≤ 256 }
    requires room { length grid.old ≡ 8 * (frame.rows * width_of frame.cols frame.reach) }
    requires padded { IsPadded frame.rows frame.cols frame.reach grid.old }
    ensures padded { IsPadded frame.rows frame.cols frame.reach grid.new }
    ensures given { (ws : List ℕ) → AreBins frame.rows frame.cols frame.reach ws all.now grid.old frame.rows → AreGiven frame.rows frame.cols frame.reach ws all.now grid.new }
{
    match frame.rows {
        2 => peel(all, lines, Frame { rows: 2, ..frame }, grid),
        4 => peel(all, lines, Frame { rows: 4, ..frame }, grid),
        8 => peel(all, lines, Frame { rows: 8, ..frame }, grid),
        _ => peel(all, lines, frame, grid),
    }
}

/// Reads the words of each of eight blocks into `grid`. Answers a word for each block that is zero exactly
/// where they have all its bins. The angles fall from projection to projection.
pub fn sweep(all: &[Placed], words: &[u64], frame: Frame, grid: &mut [u64]) -> u64x8
    requires given { Every (IsPlaced frame.rows frame.cols (length words.now)) all.now }
    requires lined { Every (IsLined frame.rows frame.reach) all.now }
    requires falls { IsFalling all.now }
    requires count { length all.now ≡ frame.rows }
    requires shape { IsShape frame.rows frame.cols }
    requires few { frame.reach ≤ 256 }
    requires room { length grid.old ≡ 8 * (frame.rows * width_of frame.cols frame.reach) }
    requires padded { IsPadded frame.rows frame.cols frame.reach grid.old }
    ensures padded { IsPadded frame.rows frame.cols frame.reach grid.new }
    ensures exact { (i : ℕ) → i < 8 → (slice_index result i ≡ 0 ↔ Every (HasBins frame.rows frame.cols i (inner grid.new (width_of frame.cols frame.reach) frame.reach i) words.now) all.now) }
    ensures only { (i : ℕ) (f : ℕ → ℕ → ℕ) → i < 8 → Every (HasBins frame.rows frame.cols i f words.now) all.now →
        (l k : ℕ) → l < frame.rows → k < frame.cols → f l k ≡ inner grid.new (width_of frame.cols frame.reach) frame.reach i l k }
{
    let mut room = [Line {
        turn: 0,
        at: 0,
        step: 0,
        own: 0,
    }; 16];
    let lines = &mut room[..frame.rows];
    fill_lines(lines, all, frame);
    fill_rows(all, words, frame, grid);
    peel_rows(all, lines, frame, grid);
    compare_all(all, words, 0, frame, grid, u64x8::splat(0))
}
