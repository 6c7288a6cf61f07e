//! The inversion: one angle after the other is divided out, and the rows are put together on the way back.

ghost use Rattle.std.specs.Prelude.{◌≡◌, ◌≢◌, ◌≤◌, ◌<◌, ◌+◌, ◌-◌, ◌*◌, ◌^◌, ℕ, List, ◌∷◌, length, map, slice_index, true, false};
ghost use Rattle.mj_inverse_sums.specs.Polynomials.{IsFinite};
ghost use Rattle.mj_inverse.specs.Rows.{joined, Every, Both, HaveValues, Differ, IsDividedOut, Divides, block_rows, AreRows};
ghost use Rattle.mj_inverse.specs.Series.{seq, angle as angle_of, angles, AreAt, IsWide, IsNext, IsUnmarked, IsBlank, KeepsRoom, Meet};

use crate::series::Series;
use rz_lanes::all_zero;

/// Divides the angle of `by` out of each of `rest`. Marks the blocks where something remains.
fn divide_each(rest: &mut [Series], by: &Series, unit: usize, bad: &mut [u64])
    requires meet { Every (λ s. Meet unit s by.now) rest.old }
    requires differ { Every (λ s. s.angle ≢ by.now.angle) rest.old }
    requires blocks { length bad.old ≡ unit }
    ensures next { Both (IsNext unit by.now) rest.old rest.new }
    ensures exact { (j : ℕ) → j < unit → IsUnmarked bad.new j →
        IsUnmarked bad.old j × Both (IsDividedOut angle_of (seq unit j) by.now) rest.old rest.new }
    ensures divides { (j : ℕ) → j < unit → IsUnmarked bad.old j → Every (Divides angle_of (seq unit j) by.now) rest.old → IsUnmarked bad.new j }
{
    match rest.split_first_mut() {
        None => {}
        Some((first, others)) => {
            first.divide_out(by, unit, bad);
            divide_each(others, by, unit, bad);
        }
    }
}

/// Divides the angle of `by` out of each of `rest`, and trims the first of them, by which the others are
/// divided next. Marks the blocks where something remains.
fn divide_all(rest: &mut [Series], by: &Series, unit: usize, bad: &mut [u64])
    requires meet { Every (λ s. Meet unit s by.now) rest.old }
    requires differ { Every (λ s. s.angle ≢ by.now.angle) rest.old }
    requires blocks { length bad.old ≡ unit }
    ensures next { Both (IsNext unit by.now) rest.old rest.new }
    ensures exact { (j : ℕ) → j < unit → IsUnmarked bad.new j →
        IsUnmarked bad.old j × Both (IsDividedOut angle_of (seq unit j) by.now) rest.old rest.new }
    ensures divides { (j : ℕ) → j < unit → IsUnmarked bad.old j → Every (Divides angle_of (seq unit j) by.now) rest.old → IsUnmarked bad.new j }
{
    divide_each(rest, by, unit, bad);
    match rest.split_first_mut() {
        None => {}
        Some((first, _others)) => first.trim(unit),
    }
}

/// Puts the rows `rest` and a projection of all rows at the angle `angle` together.
fn join(
    first: &mut Series,
    rest: &mut [Series],
    angle: usize,
    unit: usize,
    inner: usize,
    high: usize,
    most: usize,
)
    requires first { IsWide unit high most first.old }
    requires rest { Every (IsWide unit inner most) rest.old }
    requires raise { inner + angle ≤ high }
    requires room { high ≤ most }
    requires limit { most < 2 ^ 32 }
    ensures rows { (j : ℕ) → j < unit → map (seq unit j) (first.new ∷ rest.new) ≡ joined angle (seq unit j first.old) (map (seq unit j) rest.old) }
    ensures first { IsWide unit high most first.new }
    ensures rest { Every (IsWide unit high most) rest.new }
    ensures same { Both KeepsRoom (first.old ∷ rest.old) (first.new ∷ rest.new) }
{
    match rest.split_first_mut() {
        None => {}
        Some((next, others)) => {
            first.add_raised(next, angle, unit);
            join(next, others, angle, unit, inner, high, most);
        }
    }
}

/// Makes the rows of each block out of its projections, and marks the blocks that have none.
pub fn invert(all: &mut [Series], unit: usize, bad: &mut [u64], high: usize, most: usize)
    requires at { AreAt unit 0 high most all.old }
    requires differ { Differ angle_of all.old }
    requires high { angles all.old ≤ high }
    requires room { high ≤ most }
    requires least { 32 ≤ most }
    requires limit { most < 2 ^ 32 }
    requires blocks { length bad.old ≡ unit }
    ensures wide { Every (IsWide unit high most) all.new }
    ensures same { Both KeepsRoom all.old all.new }
    ensures values { (j : ℕ) → j < unit → IsUnmarked bad.new j →
        IsUnmarked bad.old j × HaveValues angle_of (seq unit j) (map (seq unit j) all.new) all.old }
    ensures complete { (j : ℕ) (fs : List (ℕ → ℕ)) → j < unit → IsUnmarked bad.old j → length fs ≡ length all.old → Every IsFinite fs →
        HaveValues angle_of (seq unit j) fs all.old → IsUnmarked bad.new j × (fs ≡ map (seq unit j) all.new) }
{
    match all.split_first_mut() {
        None => {}
        Some((pivot, rest)) => {
            divide_all(rest, pivot, unit, bad);
            let angle = pivot.angle;
            let inner = high - angle;
            invert(rest, unit, bad, inner, most);
            join(pivot, rest, angle, unit, inner, high, most);
        }
    }
}

/// Whether the words of each are those of a row of a block.
fn are_rows(all: &[Series], low: usize, cols: usize, unit: usize, high: usize, most: usize) -> bool
    requires wide { Every (IsWide unit high most) all.now }
    requires room { low + 16 * length all.now + cols ≤ most }
    requires limit { most < 2 ^ 32 }
    ensures rows { result ≡ true → (j : ℕ) → j < unit → AreRows cols low (map (seq unit j) all.now) }
    ensures fits { ((j : ℕ) → j < unit → AreRows cols low (map (seq unit j) all.now)) → result ≡ true }
{
    match all.split_first() {
        None => true,
        Some((first, rest)) => {
            let at = low + 16 * (rest.len() + 1);
            if first.is_row(at, cols, unit) {
                are_rows(rest, low, cols, unit, high, most)
            } else {
                false
            }
        }
    }
}

/// Writes the rows into `out`, and forgets all words of `all`.
fn give_rows(
    all: &mut [Series],
    low: usize,
    cols: usize,
    unit: usize,
    out: &mut [u64],
    high: usize,
    most: usize,
)
    requires wide { Every (IsWide unit high most) all.old }
    requires room { low + 16 * length all.old + cols ≤ most }
    requires limit { most < 2 ^ 32 }
    requires out { length out.old ≡ unit * (cols * length all.old) }
    ensures blank { Every IsBlank all.new }
    ensures same { Both KeepsRoom all.old all.new }
    ensures rows { (j : ℕ) → j < unit → AreRows cols low (map (seq unit j) all.old) →
        map (seq unit j) all.old ≡ block_rows cols low (length all.old) (λ i. slice_index out.new (unit * i + j)) }
{
    match all.split_first_mut() {
        None => {}
        Some((first, rest)) => {
            let at = low + 16 * (rest.len() + 1);
            let (row, others) = out.split_at_mut(unit * cols);
            first.give_row(at, cols, unit, row);
            give_rows(rest, low, cols, unit, others, high, most);
        }
    }
}

/// Forgets all words.
fn forget(all: &mut [Series])
    ensures blank { Every IsBlank all.new }
    ensures same { Both KeepsRoom all.old all.new }
{
    match all.split_first_mut() {
        None => {}
        Some((first, rest)) => {
            first.wipe();
            forget(rest);
        }
    }
}

/// Writes the words of each block into `out` where all are rows of blocks, and forgets them. Otherwise `out`
/// stays as it was.
fn give_all(
    all: &mut [Series],
    low: usize,
    cols: usize,
    unit: usize,
    out: &mut [u64],
    high: usize,
    most: usize,
) -> bool
    requires wide { Every (IsWide unit high most) all.old }
    requires room { low + 16 * length all.old + cols ≤ most }
    requires limit { most < 2 ^ 32 }
    requires out { length out.old ≡ unit * (cols * length all.old) }
    ensures blank { Every IsBlank all.new }
    ensures same { Both KeepsRoom all.old all.new }
    ensures rows { result ≡ true → (j : ℕ) → j < unit →
        map (seq unit j) all.old ≡ block_rows cols low (length all.old) (λ i. slice_index out.new (unit * i + j)) }
    ensures fits { ((j : ℕ) → j < unit → AreRows cols low (map (seq unit j) all.old)) → result ≡ true }
    ensures unchanged { result ≡ false → out.new ≡ out.old }
{
    if are_rows(all, low, cols, unit, high, most) {
        give_rows(all, low, cols, unit, out, high, most);
        true
    } else {
        forget(all);
        false
    }
}

/// Writes the words of each block into `out`, and says whether each block has some. Otherwise `out` stays as it was.
pub fn solve(
    all: &mut [Series],
    low: usize,
    cols: usize,
    unit: usize,
    out: &mut [u64],
    bad: &mut [u64],
    high: usize,
    most: usize,
) -> bool
    requires at { AreAt unit 0 high most all.old }
    requires differ { Differ angle_of all.old }
    requires high { angles all.old ≤ high }
    requires room { high ≤ most }
    requires least { 32 ≤ most }
    requires columns { low + 16 * length all.old + cols ≤ most }
    requires limit { most < 2 ^ 32 }
    requires blocks { length bad.old ≡ unit }
    requires unmarked { (j : ℕ) → j < unit → IsUnmarked bad.old j }
    requires out { length out.old ≡ unit * (cols * length all.old) }
    ensures blank { Every IsBlank all.new }
    ensures same { Both KeepsRoom all.old all.new }
    ensures exact { result ≡ true → (j : ℕ) → j < unit →
        HaveValues angle_of (seq unit j) (block_rows cols low (length all.old) (λ i. slice_index out.new (unit * i + j))) all.old }
    ensures only { result ≡ true → (j : ℕ) (w : ℕ → ℕ) → j < unit → HaveValues angle_of (seq unit j) (block_rows cols low (length all.old) w) all.old →
        block_rows cols low (length all.old) w ≡ block_rows cols low (length all.old) (λ i. slice_index out.new (unit * i + j)) }
    ensures complete { ((j : ℕ) → j < unit → (w : ℕ → ℕ) × HaveValues angle_of (seq unit j) (block_rows cols low (length all.old) w) all.old) → result ≡ true }
    ensures unchanged { result ≡ false → out.new ≡ out.old }
{
    invert(all, unit, bad, high, most);
    if all_zero(bad) {
        give_all(all, low, cols, unit, out, high, most)
    } else {
        forget(all);
        false
    }
}
