//! The series of a work: the first ones have a projection each, and the others are blank.

ghost use Rattle.std.specs.Prelude.{◌≡◌, ◌≢◌, ◌≤◌, ◌<◌, ◌+◌, ◌*◌, ◌^◌, ◌++◌, ◌∷◌, [], ℕ, IfOk, length, unsigned_abs, slice_index, vec_len, true, false};
ghost use Rattle.rz_words.specs.Grid.{Grid, IsShape};
ghost use Rattle.mj_angles.specs.Projection.{bins as bin_count};
ghost use Rattle.mj_inverse.specs.Fits.{IsFound};
ghost use Rattle.mj_inverse.specs.Rows.{Both, Differ, Every, HaveValues, block_rows};
ghost use Rattle.mj_inverse.specs.Series.{seq, angle as angle_of, angles, HaveRoom, IsSpread, IsUnmarked, MaySpread};
ghost use Rattle.mj_inverse.specs.Store.{IsFilled, pairs_in, search_in, lane_search, lane_grid};

use crate::invert::solve;
use crate::order::sort;
use crate::series::Series;
use std::alloc::{AllocError, Global};

/// As many blank series as rows. The last one that took memory stands first, so that memory is given back
/// from its end on, which costs the least.
pub fn blanks(
    alloc: Global,
    rows: usize,
    cols: usize,
    unit: usize,
) -> Result<Vec<Series>, AllocError>
    requires shape { IsShape rows cols }
    requires few { unit ≤ 8 }
    ensures { IfOk result (λ v. IsFilled unit rows cols 0 v.items × (length v.items ≡ rows)) }
{
    let mut all = Vec::with_capacity(alloc, rows)?;
    for _i in 0..rows {
        all.push(Series::new(alloc, rows, cols, unit)?)?;
    }
    all.reverse();
    Ok(all)
}

/// Makes the first `count` series blank.
pub fn wipe_all(all: &mut [Series], count: usize, unit: usize, rows: usize, cols: usize)
    requires { IsFilled unit rows cols count all.old }
    ensures filled { IsFilled unit rows cols 0 all.new }
    ensures len { length all.new ≡ length all.old }
{
    match all.split_first_mut() {
        None => {}
        Some((first, rest)) => {
            if count > 0 {
                first.wipe();
                wipe_all(rest, count - 1, unit, rows, cols);
            }
        }
    }
}

/// Puts a projection at the angle `p` into series number `count`.
pub fn put_at(
    all: &mut [Series],
    count: usize,
    p: i32,
    rows: usize,
    cols: usize,
    unit: usize,
    bins: &[u64],
)
    requires filled { IsFilled unit rows cols count all.old }
    requires room { count < length all.old }
    requires some { 0 < unit }
    requires shape { IsShape rows cols }
    requires small { unsigned_abs p ≤ 16 }
    requires size { length bins.now ≡ unit * bin_count p rows cols }
    ensures filled { IsFilled unit rows cols (count + 1) all.new }
    ensures pairs { pairs_in unit (count + 1) all.new ≡ pairs_in unit count all.old ++ (p, bins.now) ∷ [] }
    ensures len { length all.new ≡ length all.old }
{
    match all.split_first_mut() {
        None => {}
        Some((first, rest)) => {
            if count == 0 {
                first.put(p, rows, cols, unit, bins);
            } else {
                put_at(rest, count - 1, p, rows, cols, unit, bins);
            }
        }
    }
}

/// All angles together.
fn total_angle(all: &[Series]) -> usize
    requires angles { Every (λ s. s.angle ≤ 32) all.now }
    requires few { length all.now ≤ 16 }
    ensures value { result ≡ angles all.now }
    ensures few { result ≤ 32 * length all.now }
{
    match all.split_first() {
        None => 0,
        Some((first, rest)) => first.angle + total_angle(rest),
    }
}

/// So many places are used, or `least` if that is more. That is `most` at most.
fn reach(all: &[Series], least: usize, most: usize) -> usize
    requires order { least ≤ most }
    requires within { Every (λ s. s.to ≤ most) all.now }
    ensures least { least ≤ result }
    ensures most { result ≤ most }
    ensures each { Every (λ s. s.to ≤ result) all.now }
{
    match all.split_first() {
        None => least,
        Some((first, rest)) => reach(rest, least.max(first.to), most),
    }
}

/// Makes `room` places in the first series, and in each of the others as many more as the angles before it,
/// which it may yet be divided by.
fn spread_all(all: &mut [Series], unit: usize, room: usize)
    requires may { MaySpread unit room all.old }
    requires limit { room + angles all.old < 2 ^ 32 }
    ensures spread { Both (IsSpread unit) all.old all.new }
    ensures room { HaveRoom room all.new }
{
    match all.split_first_mut() {
        None => {}
        Some((first, rest)) => {
            first.spread(unit, room);
            let more = room + first.angle;
            spread_all(rest, unit, more);
        }
    }
}

/// Writes the words of each block into `out`, and says whether each block has some. Otherwise `out` stays as it
/// was. `bad` is room for a mark of each block.
pub fn solve_all(
    all: &mut [Series],
    rows: usize,
    cols: usize,
    unit: usize,
    out: &mut [u64],
    bad: &mut [u64],
) -> bool
    requires filled { IsFilled unit rows cols rows all.old }
    requires full { length all.old ≡ rows }
    requires differ { Differ angle_of all.old }
    requires shape { IsShape rows cols }
    requires blocks { length bad.old ≡ unit }
    requires out { length out.old ≡ unit * (rows * cols) }
    ensures filled { IsFilled unit rows cols 0 all.new }
    ensures len { length all.new ≡ length all.old }
    ensures found { result ≡ true → (j : ℕ) → j < unit → IsFound (lane_search unit j (search_in unit rows cols rows all.old)) (lane_grid unit j rows cols out.new) }
    ensures only { result ≡ true → (j : ℕ) (g : Grid) → j < unit → IsFound (lane_search unit j (search_in unit rows cols rows all.old)) g →
        g ≡ lane_grid unit j rows cols out.new }
    ensures complete { ((j : ℕ) → j < unit → (g : Grid) × IsFound (lane_search unit j (search_in unit rows cols rows all.old)) g) → result ≡ true }
    ensures unchanged { result ≡ false → out.new ≡ out.old }
{
    sort(all);
    bad.fill(0);
    let total = total_angle(all);
    let least = total.max(16 * rows + cols + 16);
    let high = reach(all, least, 32 * rows + cols);
    spread_all(all, unit, high);
    solve(all, 0, cols, unit, out, bad, high, high)
}
