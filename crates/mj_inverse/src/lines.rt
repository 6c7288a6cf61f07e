//! How the rows of eight blocks are read off their projections.

ghost use Rattle.std.specs.Prelude.{◌≡◌, ◌≤◌, ◌<◌, ◌+◌, ◌-◌, ◌*◌, ◌^◌, ℕ, length, unsigned_abs};
ghost use Rattle.rz_words.specs.Grid.{IsShape};
ghost use Rattle.mj_angles.specs.Projection.{bins as bin_count, offset as offset_of, row_start as start_of_row};
ghost use Rattle.mj_angles.proofs.Order.{lifted};
ghost use Rattle.mj_angles.proofs.Peel.{turn_of};
ghost use Rattle.mj_inverse.specs.Rows.{Every};
ghost use Rattle.mj_inverse.specs.Padded.{AreLines, IsLined, direction_at, step_of, width_of};

use crate::placed::Placed;
use mj_angles::{offset, row_start};

/// Where the words of eight blocks stand: in rows, with zeros on both sides of each.
#[derive(Clone, Copy)]
pub struct Frame {
    pub rows: usize,
    pub cols: usize,
    /// So many places on each side of a row are zero. A line that meets a row meets all others within them.
    pub reach: usize,
}

impl Frame {
    /// The places of a row, with those on both sides.
    #[inline(always)]
    pub fn width(self) -> usize
        requires few_columns { self.cols ≤ 2048 }
        requires few { self.reach ≤ 256 }
        ensures { result ≡ width_of self.cols self.reach }
    {
        self.cols + (self.reach + self.reach)
    }
}

/// How a row is read.
#[derive(Clone, Copy)]
pub struct Line {
    /// The turn in which column 0 is read. Each column is read a turn after the one before it.
    pub turn: usize,
    /// Where the line of column 0 meets row 0. Each column's line is a place further on.
    pub at: usize,
    /// How many places a line is further in each row than in the row before it.
    pub step: usize,
    /// Where column 0 stands.
    pub own: usize,
}

/// The bin of column 0 of row `n`.
#[inline(always)]
pub fn first_bin(s: &Placed, rows: usize, n: usize) -> usize
    requires small { unsigned_abs s.now.direction ≤ 16 }
    requires few { rows ≤ 16 }
    requires row { n < rows }
    ensures value { result ≡ start_of_row s.now.direction rows n }
    ensures within { (cols : ℕ) → result + cols ≤ bin_count s.now.direction rows cols }
    ensures few { result ≤ 256 }
{
    row_start(s.direction, rows, n)
}

/// Where the line of bin 0 meets row 0.
#[inline(always)]
pub fn line_start(s: &Placed, frame: Frame) -> usize
    requires lined { IsLined frame.rows frame.reach s.now }
    requires some { 1 ≤ frame.rows }
    requires few { frame.rows ≤ 16 }
    ensures value { result ≡ frame.reach - offset_of s.now.direction frame.rows }
    ensures within { result ≤ frame.reach }
{
    frame.reach - offset(s.direction, frame.rows)
}

/// How many places a line is further in each row than in the row before it.
#[inline(always)]
pub fn line_step(s: &Placed, width: usize) -> usize
    requires small { unsigned_abs s.now.direction ≤ 16 }
    requires wide { unsigned_abs s.now.direction ≤ width }
    requires few { width < 2 ^ 32 }
    ensures { result ≡ step_of width s.now.direction }
{
    let size = s.direction.unsigned_abs() as usize;
    if s.direction >= 0 {
        width - size
    } else {
        width + size
    }
}

/// How row `l` is read, of which column 0 is read in this turn.
fn line_of(s: &Placed, l: usize, turn: usize, frame: Frame) -> Line
    requires lined { IsLined frame.rows frame.reach s.now }
    requires shape { IsShape frame.rows frame.cols }
    requires few { frame.reach ≤ 256 }
    requires row { l < frame.rows }
    ensures turn { result.turn ≡ turn }
    ensures at { result.at ≡ frame.reach - offset_of s.now.direction frame.rows + start_of_row s.now.direction frame.rows l }
    ensures step { result.step ≡ step_of (width_of frame.cols frame.reach) s.now.direction }
    ensures own { result.own ≡ l * width_of frame.cols frame.reach + frame.reach }
{
    let width = frame.width();
    Line {
        turn,
        at: line_start(s, frame) + first_bin(s, frame.rows, l),
        step: line_step(s, width),
        own: l * width + frame.reach,
    }
}

/// The angle of projection `l`, raised so that it is none below zero.
fn lifted_angle(all: &[Placed], l: usize, frame: Frame) -> usize
    requires lined { Every (IsLined frame.rows frame.reach) all.now }
    requires within { l < length all.now }
    ensures value { result ≡ lifted 16 (direction_at all.now l) }
    ensures small { result ≤ 32 }
{
    all[l].angle
}

/// Writes how each row is read.
pub fn fill_lines(lines: &mut [Line], all: &[Placed], frame: Frame)
    requires lined { Every (IsLined frame.rows frame.reach) all.now }
    requires count { length all.now ≡ frame.rows }
    requires rows { length lines.old ≡ frame.rows }
    requires shape { IsShape frame.rows frame.cols }
    requires few { frame.reach ≤ 256 }
    ensures { AreLines frame.rows frame.cols frame.reach (direction_at all.now) lines.new frame.rows }
{
    let mut sum = 0;
    for l in 0..frame.rows {
        if l > 0 {
            sum += lifted_angle(all, l, frame);
        }
        lines[l] = line_of(&all[l], l, sum + 16 * (frame.rows - 1 - l), frame);
    }
}

/// The least of the turns, or `most` if that is less.
pub fn first_turn(lines: &[Line], most: usize) -> usize
    ensures least { Every (λ x. result ≤ x.turn) lines.now }
    ensures most { result ≤ most }
{
    match lines.split_first() {
        None => most,
        Some((first, rest)) => first_turn(rest, most.min(first.turn)),
    }
}

/// The greatest of the turns, or `least` if that is more.
pub fn last_turn(lines: &[Line], least: usize) -> usize
    ensures greatest { Every (λ x. x.turn ≤ result) lines.now }
    ensures least { least ≤ result }
    ensures within { (n : ℕ) → least ≤ n → Every (λ x. x.turn ≤ n) lines.now → result ≤ n }
{
    match lines.split_first() {
        None => least,
        Some((first, rest)) => last_turn(rest, least.max(first.turn)),
    }
}
