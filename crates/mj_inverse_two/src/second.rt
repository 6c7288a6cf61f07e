//! Row 1 from the bins of both projections, and row 0 from row 1.

ghost use Rattle.std.specs.Prelude.{◌≡◌, ◌≤◌, ◌<◌, ◌+◌, ◌-◌, ◌*◌, ◌⊎◌, ℕ, length, slice_index, bit_xor};
ghost use Rattle.mj_inverse_two.specs.Two.{IsSecond, first_row};

use crate::run::{copy_words, run};
use crate::starts::Starts;

/// Writes row 1 behind the 32 zeros that `row` begins with. The bins `a` are those at the lesser angle.
pub fn read_second(a: &[u64], b: &[u64], p: Starts, q: Starts, cols: usize, row: &mut [u64])
    requires p_one { (p.first ≡ 0) ⊎ (p.second ≡ 0) }
    requires q_one { (q.first ≡ 0) ⊎ (q.second ≡ 0) }
    requires p_few { p.first + p.second ≤ 16 }
    requires q_few { q.first + q.second ≤ 16 }
    requires order { p.second + q.first < p.first + q.second }
    requires wide { 16 ≤ cols }
    requires few { cols ≤ 2048 }
    requires a { length a.now ≡ cols + (p.first + p.second) }
    requires b { length b.now ≡ cols + (q.first + q.second) }
    requires row { length row.old ≡ 32 + cols }
    requires zero { (k : ℕ) → k < 32 → slice_index row.old k ≡ 0 }
    ensures second { IsSecond cols p q a.now b.now (λ e. slice_index row.new (32 + e)) }
    ensures zero { (k : ℕ) → k < 32 → slice_index row.new k ≡ 0 }
{
    let step = p.first + q.second - p.second - q.first;
    let n = cols - p.first - p.second;
    copy_words(a, p.second, p.first, row, 32);
    copy_words(a, cols, p.second, row, 32 + (cols - p.second));
    let ours = &a[p.first + p.second..p.first + p.second + n];
    let others = &b[q.first + p.second..q.first + p.second + n];
    run(ours, others, row, 32 + p.first, step);
}

/// The word in column `k` of row 0.
pub fn first_word(b: &[u64], q: Starts, cols: usize, row: &[u64], k: usize) -> u64
    requires few { q.first + q.second ≤ 16 }
    requires short { cols ≤ 2048 }
    requires b { length b.now ≡ cols + (q.first + q.second) }
    requires row { length row.now ≡ 32 + cols }
    requires column { k < cols }
    ensures { result ≡ first_row cols q b.now (λ e. slice_index row.now (32 + e)) k }
{
    let at = q.first + k;
    if q.second <= at && at - q.second < cols {
        b[at] ^ row[32 + (at - q.second)]
    } else {
        b[at]
    }
}

/// Writes row 0, and row 1 behind it.
pub fn write_rows(b: &[u64], q: Starts, cols: usize, row: &[u64], out: &mut [u64])
    requires one { (q.first ≡ 0) ⊎ (q.second ≡ 0) }
    requires few { q.first + q.second ≤ 16 }
    requires wide { 16 ≤ cols }
    requires short { cols ≤ 2048 }
    requires b { length b.now ≡ cols + (q.first + q.second) }
    requires row { length row.now ≡ 32 + cols }
    requires out { length out.old ≡ 2 * cols }
    ensures first { (k : ℕ) → k < cols → slice_index out.new k ≡ first_row cols q b.now (λ e. slice_index row.now (32 + e)) k }
    ensures second { (k : ℕ) → k < cols → slice_index out.new (cols + k) ≡ slice_index row.now (32 + k) }
{
    let n = cols - q.first - q.second;
    copy_words(b, q.first, q.second, out, 0);
    add_words(
        &b[q.first + q.second..q.first + q.second + n],
        &row[32 + q.first..32 + q.first + n],
        out,
        q.second,
    );
    copy_words(b, cols, q.first, out, cols - q.first);
    copy_words(row, 32, cols, out, cols);
}

/// Writes the exclusive or of two lists into `out`, from place `to` on.
fn add_words(a: &[u64], b: &[u64], out: &mut [u64], to: usize)
    requires same { length b.now ≡ length a.now }
    requires room { to + length a.now ≤ length out.old }
    ensures inside { (k : ℕ) → k < length a.now → slice_index out.new (to + k) ≡ bit_xor (slice_index a.now k) (slice_index b.now k) }
    ensures below { (k : ℕ) → k < to → slice_index out.new k ≡ slice_index out.old k }
    ensures above { (k : ℕ) → to + length a.now ≤ k → slice_index out.new k ≡ slice_index out.old k }
{
    let place = &mut out[to..to + a.len()];
    for n in 0..a.len() {
        place[n] = a[n] ^ b[n];
    }
}
