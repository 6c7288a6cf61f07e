//! The bins that give the words of four blocks, brought into the places of the words.

ghost use Rattle.std.specs.Prelude.{◌≡◌, ◌^◌, ◌≤◌, ◌<◌, ◌+◌, ◌-◌, ◌*◌, ◌/◌, ℕ, length, slice_index};
ghost use Rattle.rz_words.specs.Grid.{IsShape};
ghost use Rattle.mj_inverse_four.specs.Fragments.{AreAngles, AreThere, given_by};
ghost use Rattle.mj_inverse_four.specs.Rows.{AreBins, IsPadded, direction_of, inner, room_of, width_of};
ghost use Rattle.mj_inverse_four.specs.Starts.{start_of};

use crate::fours::{Starts, put_two, two_of};
use crate::frame::Frame;
use crate::lines::{first_bin, slope_at};
use crate::starts::{Group, starts_of, words_at};

/// Writes `2 * twos` words of each of four lists, from word `from` on, side by side from place `to` on.
fn bring_together(
    words: &[u64],
    starts: Starts,
    from: usize,
    twos: usize,
    out: &mut [u64],
    to: usize,
)
    requires within { (i : ℕ) → i < 4 → start_of starts i + (from + 2 * twos) ≤ length words.now }
    requires out { to + 8 * twos ≤ length out.old }
    ensures inside { (k i : ℕ) → k < 2 * twos → i < 4 → slice_index out.new (to + 4 * k + i) ≡ slice_index words.now (start_of starts i + (from + k)) }
    ensures below { (m : ℕ) → m < to → slice_index out.new m ≡ slice_index out.old m }
    ensures above { (m : ℕ) → to + 8 * twos ≤ m → slice_index out.new m ≡ slice_index out.old m }
{
    for h in 0..twos {
        put_two(two_of(words, starts, from + 2 * h), out, to + 8 * h);
    }
}

/// Brings the bins that give row `n` into its place, of which the first is bin `from`.
fn fill_row(words: &[u64], starts: Starts, from: usize, n: usize, frame: Frame, grid: &mut [u64])
    requires within { (i : ℕ) → i < 4 → start_of starts i + (from + frame.cols) ≤ length words.now }
    requires shape { IsShape frame.rows frame.cols }
    requires few { frame.reach ≤ 256 }
    requires eights { frame.cols / 8 * 8 ≡ frame.cols }
    requires row { n < frame.rows }
    requires room { length grid.old ≡ room_of frame.rows frame.cols frame.reach }
    requires padded { IsPadded (frame.rows + 1) frame.cols frame.reach grid.old }
    ensures here { (i k : ℕ) → i < 4 → k < frame.cols → inner grid.new (width_of frame.cols frame.reach) frame.reach i n k ≡
        slice_index words.now (start_of starts i + (from + k)) }
    ensures before { (i l k : ℕ) → i < 4 → l < n → k < frame.cols →
        inner grid.new (width_of frame.cols frame.reach) frame.reach i l k ≡ inner grid.old (width_of frame.cols frame.reach) frame.reach i l k }
    ensures padded { IsPadded (frame.rows + 1) frame.cols frame.reach grid.new }
{
    let own = 4 * (n * frame.width() + frame.reach);
    bring_together(words, starts, from, frame.cols / 2, grid, own);
}

/// Brings the bins that give all rows into their places.
pub fn fill_rows(
    angles: &[i32],
    parts: &[&[u64]],
    strides: &[usize],
    group: Group,
    frame: Frame,
    grid: &mut [u64],
)
    requires angles { AreAngles frame.rows frame.reach angles.now }
    requires some { 0 < group.count }
    requires four { group.count ≤ 4 }
    requires few_blocks { group.first < 2 ^ 62 }
    requires there { AreThere frame.rows frame.cols angles.now parts.now strides.now (group.first + (group.count - 1)) }
    requires shape { IsShape frame.rows frame.cols }
    requires few { frame.reach ≤ 256 }
    requires eights { frame.cols / 8 * 8 ≡ frame.cols }
    requires room { length grid.old ≡ room_of frame.rows frame.cols frame.reach }
    requires padded { IsPadded (frame.rows + 1) frame.cols frame.reach grid.old }
    ensures padded { IsPadded (frame.rows + 1) frame.cols frame.reach grid.new }
    ensures bins { AreBins frame.rows frame.cols frame.reach (given_by frame.rows parts.now strides.now group) (direction_of frame.rows angles.now) grid.new frame.rows }
{
    for n in 0..frame.rows {
        let m = frame.rows - 1 - n;
        let words = words_at(parts, m);
        let starts = starts_of(words, strides[m], group);
        let from = first_bin(slope_at(angles, frame, n), frame.rows, n);
        fill_row(words, starts, from, n, frame, grid);
    }
}
