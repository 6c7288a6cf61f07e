//! How the rows of four blocks are read off their projections.

ghost use Rattle.std.specs.Prelude.{◌≡◌, ◌≤◌, ◌<◌, ◌+◌, ◌-◌, ◌*◌, ◌^◌, ℕ, length, unsigned_abs, All};
ghost use Rattle.rz_words.specs.Grid.{IsShape};
ghost use Rattle.mj_angles.specs.Projection.{bins as bin_count, offset as offset_of, row_start as start_of_row};
ghost use Rattle.mj_angles.proofs.Order.{lifted};
ghost use Rattle.mj_angles.proofs.Peel.{turn_of};
ghost use Rattle.mj_inverse_four.specs.Fragments.{AreAngles};
ghost use Rattle.mj_inverse_four.specs.Rows.{AreLines, Every, direction_of, step_of, width_of};

use crate::frame::Frame;
use mj_angles::{bins, offset, row_start};

/// How the lines of a projection run.
#[derive(Clone, Copy)]
pub struct Slope {
    /// The angle of the projection.
    pub angle: i32,
}

/// How a row is read.
#[derive(Clone, Copy)]
pub struct Line {
    /// The turn in which column 0 is read. Each column is read a turn after the one before it.
    pub turn: usize,
    /// Where the line of column 0 meets row 0, in words. Each column's line is four words further on.
    pub at: usize,
    /// How many words a line is further in each row than in the row before it.
    pub step: usize,
    /// Where column 0 stands, in words.
    pub own: usize,
}

/// The slope at which row `l` is read.
#[inline(always)]
pub fn slope_at(angles: &[i32], frame: Frame, l: usize) -> Slope
    requires angles { AreAngles frame.rows frame.reach angles.now }
    requires row { l < frame.rows }
    ensures value { result.angle ≡ direction_of frame.rows angles.now l }
    ensures small { unsigned_abs result.angle ≤ 16 }
    ensures near { unsigned_abs result.angle ≤ frame.reach }
    ensures reaches { unsigned_abs result.angle * (frame.rows - 1) ≤ frame.reach }
{
    Slope {
        angle: angles[frame.rows - 1 - l],
    }
}

/// How many bins the projection has.
#[inline(always)]
pub fn bins_in(p: Slope, frame: Frame) -> usize
    requires small { unsigned_abs p.angle ≤ 16 }
    requires shape { IsShape frame.rows frame.cols }
    ensures { result ≡ bin_count p.angle frame.rows frame.cols }
{
    bins(p.angle, frame.rows, frame.cols)
}

/// The angle, raised so that it is none below zero.
fn raised(p: Slope) -> usize
    requires { unsigned_abs p.angle ≤ 16 }
    ensures value { result ≡ lifted 16 p.angle }
    ensures small { result ≤ 32 }
{
    (p.angle + 16) as usize
}

/// The bin of column 0 of row `n`.
#[inline(always)]
pub fn first_bin(p: Slope, rows: usize, n: usize) -> usize
    requires small { unsigned_abs p.angle ≤ 16 }
    requires few { rows ≤ 16 }
    requires row { n < rows }
    ensures value { result ≡ start_of_row p.angle rows n }
    ensures within { (cols : ℕ) → result + cols ≤ bin_count p.angle rows cols }
    ensures few { result ≤ 256 }
{
    row_start(p.angle, rows, n)
}

/// Where the line of bin 0 meets row 0, in places.
#[inline(always)]
pub fn line_start(p: Slope, frame: Frame) -> usize
    requires small { unsigned_abs p.angle ≤ 16 }
    requires reaches { unsigned_abs p.angle * (frame.rows - 1) ≤ frame.reach }
    requires some { 1 ≤ frame.rows }
    requires few { frame.rows ≤ 16 }
    ensures value { result ≡ frame.reach - offset_of p.angle frame.rows }
    ensures within { result ≤ frame.reach }
{
    frame.reach - offset(p.angle, frame.rows)
}

/// How many places a line is further in each row than in the row before it.
#[inline(always)]
pub fn line_step(p: Slope, width: usize) -> usize
    requires small { unsigned_abs p.angle ≤ 16 }
    requires wide { unsigned_abs p.angle ≤ width }
    requires few { width < 2 ^ 32 }
    ensures value { result ≡ step_of width p.angle }
    ensures few { result ≤ width + 16 }
{
    let size = p.angle.unsigned_abs() as usize;
    if p.angle >= 0 {
        width - size
    } else {
        width + size
    }
}

/// How row `l` is read, of which column 0 is read in this turn.
fn line_of(p: Slope, l: usize, turn: usize, frame: Frame) -> Line
    requires small { unsigned_abs p.angle ≤ 16 }
    requires near { unsigned_abs p.angle ≤ frame.reach }
    requires reaches { unsigned_abs p.angle * (frame.rows - 1) ≤ frame.reach }
    requires shape { IsShape frame.rows frame.cols }
    requires few { frame.reach ≤ 256 }
    requires row { l < frame.rows }
    ensures turn { result.turn ≡ turn }
    ensures at { result.at ≡ 4 * (frame.reach - offset_of p.angle frame.rows + start_of_row p.angle frame.rows l) }
    ensures step { result.step ≡ 4 * step_of (width_of frame.cols frame.reach) p.angle }
    ensures own { result.own ≡ 4 * (l * width_of frame.cols frame.reach + frame.reach) }
{
    let width = frame.width();
    Line {
        turn,
        at: 4 * (line_start(p, frame) + first_bin(p, frame.rows, l)),
        step: 4 * line_step(p, width),
        own: 4 * (l * width + frame.reach),
    }
}

/// Writes how each row is read.
pub fn fill_lines(lines: &mut [Line], angles: &[i32], frame: Frame)
    requires angles { AreAngles frame.rows frame.reach angles.now }
    requires rows { length lines.old ≡ frame.rows }
    requires shape { IsShape frame.rows frame.cols }
    requires few { frame.reach ≤ 256 }
    ensures { AreLines frame.rows frame.cols frame.reach (direction_of frame.rows angles.now) lines.new frame.rows }
{
    let mut sum = 0;
    for l in 0..frame.rows {
        let p = slope_at(angles, frame, l);
        if l > 0 {
            sum += raised(p);
        }
        lines[l] = line_of(p, l, sum + 16 * (frame.rows - 1 - l), frame);
    }
}

/// The least of the turns, or `most` if that is less.
pub fn first_turn(lines: &[Line], most: usize) -> usize
    ensures least { Every (λ x. result ≤ x.turn) lines.now }
    ensures most { result ≤ most }
{
    match lines.split_first() {
        None => most,
        Some((first, rest)) => first_turn(rest, most.min(first.turn)),
    }
}

/// The greatest of the turns, or `least` if that is more.
pub fn last_turn(lines: &[Line], least: usize) -> usize
    ensures greatest { Every (λ x. x.turn ≤ result) lines.now }
    ensures least { least ≤ result }
    ensures within { (n : ℕ) → least ≤ n → Every (λ x. x.turn ≤ n) lines.now → result ≤ n }
{
    match lines.split_first() {
        None => least,
        Some((first, rest)) => last_turn(rest, least.max(first.turn)),
    }
}
