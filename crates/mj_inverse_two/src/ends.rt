//! The bins that gave no word.

ghost use Rattle.std.specs.Prelude.{◌≡◌, ◌≤◌, ◌<◌, ◌+◌, ◌-◌, ◌⊎◌, ℕ, true, length, slice_index};
ghost use Rattle.mj_inverse_two.specs.Two.{AreEnds, first_row};

use crate::second::first_word;
use crate::starts::Starts;

/// Whether the rows have the bins that gave no word.
pub fn have_ends(a: &[u64], b: &[u64], p: Starts, q: Starts, cols: usize, row: &[u64]) -> bool
    requires p_one { (p.first ≡ 0) ⊎ (p.second ≡ 0) }
    requires q_one { (q.first ≡ 0) ⊎ (q.second ≡ 0) }
    requires p_few { p.first + p.second ≤ 16 }
    requires q_few { q.first + q.second ≤ 16 }
    requires wide { 16 ≤ cols }
    requires few { cols ≤ 2048 }
    requires a { length a.now ≡ cols + (p.first + p.second) }
    requires b { length b.now ≡ cols + (q.first + q.second) }
    requires row { length row.now ≡ 32 + cols }
    ensures yes { result ≡ true → AreEnds cols p q a.now b.now (λ e. slice_index row.now (32 + e)) }
    ensures no { AreEnds cols p q a.now b.now (λ e. slice_index row.now (32 + e)) → result ≡ true }
{
    has_low_second(b, q, row)
        && has_high_second(b, q, cols, row)
        && has_low_first(a, b, p, q, cols, row)
        && has_high_first(a, b, p, q, cols, row)
}

/// Whether row 1 has the first bins at the greater angle.
fn has_low_second(b: &[u64], q: Starts, row: &[u64]) -> bool
    requires b { q.first ≤ length b.now }
    requires row { 32 + q.first ≤ length row.now }
    ensures yes { result ≡ true → (i : ℕ) → i < q.first → slice_index b.now i ≡ slice_index row.now (32 + i) }
    ensures no { ((i : ℕ) → i < q.first → slice_index b.now i ≡ slice_index row.now (32 + i)) → result ≡ true }
{
    for i in 0..q.first {
        if b[i] != row[32 + i] {
            return false;
        }
    }
    true
}

/// Whether row 1 has the last bins at the greater angle.
fn has_high_second(b: &[u64], q: Starts, cols: usize, row: &[u64]) -> bool
    requires few { q.second ≤ 16 }
    requires wide { 16 ≤ cols }
    requires short { cols ≤ 2048 }
    requires b { cols + q.second ≤ length b.now }
    requires row { length row.now ≡ 32 + cols }
    ensures yes { result ≡ true → (i : ℕ) → i < q.second → slice_index b.now (cols + i) ≡ slice_index row.now (32 + (cols + i - q.second)) }
    ensures no { ((i : ℕ) → i < q.second → slice_index b.now (cols + i) ≡ slice_index row.now (32 + (cols + i - q.second))) → result ≡ true }
{
    for i in 0..q.second {
        if b[cols + i] != row[32 + (cols + i - q.second)] {
            return false;
        }
    }
    true
}

/// Whether row 0 has the first bins at the lesser angle.
fn has_low_first(a: &[u64], b: &[u64], p: Starts, q: Starts, cols: usize, row: &[u64]) -> bool
    requires p_few { p.second ≤ 16 }
    requires q_few { q.first + q.second ≤ 16 }
    requires wide { 16 ≤ cols }
    requires short { cols ≤ 2048 }
    requires a { p.second ≤ length a.now }
    requires b { length b.now ≡ cols + (q.first + q.second) }
    requires row { length row.now ≡ 32 + cols }
    ensures yes { result ≡ true → (i : ℕ) → i < p.second → slice_index a.now i ≡ first_row cols q b.now (λ e. slice_index row.now (32 + e)) i }
    ensures no { ((i : ℕ) → i < p.second → slice_index a.now i ≡ first_row cols q b.now (λ e. slice_index row.now (32 + e)) i) → result ≡ true }
{
    for i in 0..p.second {
        if a[i] != first_word(b, q, cols, row, i) {
            return false;
        }
    }
    true
}

/// Whether row 0 has the last bins at the lesser angle.
fn has_high_first(a: &[u64], b: &[u64], p: Starts, q: Starts, cols: usize, row: &[u64]) -> bool
    requires p_few { p.first ≤ 16 }
    requires q_few { q.first + q.second ≤ 16 }
    requires wide { 16 ≤ cols }
    requires short { cols ≤ 2048 }
    requires a { cols + p.first ≤ length a.now }
    requires b { length b.now ≡ cols + (q.first + q.second) }
    requires row { length row.now ≡ 32 + cols }
    ensures yes { result ≡ true → (i : ℕ) → i < p.first → slice_index a.now (cols + i) ≡ first_row cols q b.now (λ e. slice_index row.now (32 + e)) (cols + i - p.first) }
    ensures no { ((i : ℕ) → i < p.first → slice_index a.now (cols + i) ≡ first_row cols q b.now (λ e. slice_index row.now (32 + e)) (cols + i - p.first)) → result ≡ true }
{
    for i in 0..p.first {
        if a[cols + i] != first_word(b, q, cols, row, cols + i - p.first) {
            return false;
        }
    }
    true
}
