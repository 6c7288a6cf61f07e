//! What remains of a division.

ghost use Rattle.std.specs.Prelude.{◌≡◌, ◌≤◌, ◌<◌, ◌+◌, ◌*◌, ℕ, length, slice_index, vec_len, vec_capacity};

use rz_lanes::all_zero;

/// Makes the words from place `from` to place `to` zero, and marks each block that had another word there.
/// A place has `unit` words, one of each block.
pub fn take_rest(words: &mut Vec<u64>, unit: usize, from: usize, to: usize, bad: &mut [u64])
    requires order { from ≤ to }
    requires within { unit * to ≤ vec_len words.old }
    requires blocks { length bad.old ≡ unit }
    ensures zero { (t j : ℕ) → from ≤ t → t < to → j < unit → slice_index words.new.items (unit * t + j) ≡ 0 }
    ensures below { (i : ℕ) → i < unit * from → slice_index words.new.items i ≡ slice_index words.old.items i }
    ensures above { (i : ℕ) → unit * to ≤ i → slice_index words.new.items i ≡ slice_index words.old.items i }
    ensures len { vec_len words.new ≡ vec_len words.old }
    ensures capacity { vec_capacity words.new ≡ vec_capacity words.old }
    ensures marked { (j : ℕ) → j < unit → slice_index bad.new j ≡ 0 →
        (slice_index bad.old j ≡ 0) × ((t : ℕ) → from ≤ t → t < to → slice_index words.old.items (unit * t + j) ≡ 0) }
    ensures unmarked { (j : ℕ) → j < unit → slice_index bad.old j ≡ 0 →
        ((t : ℕ) → from ≤ t → t < to → slice_index words.old.items (unit * t + j) ≡ 0) → slice_index bad.new j ≡ 0 }
{
    if !all_zero(&words[unit * from..unit * to]) {
        take_each(words, unit, from, to, bad);
    }
}

/// The same, place by place.
fn take_each(words: &mut Vec<u64>, unit: usize, from: usize, to: usize, bad: &mut [u64])
    requires order { from ≤ to }
    requires within { unit * to ≤ vec_len words.old }
    requires blocks { length bad.old ≡ unit }
    ensures zero { (t j : ℕ) → from ≤ t → t < to → j < unit → slice_index words.new.items (unit * t + j) ≡ 0 }
    ensures below { (i : ℕ) → i < unit * from → slice_index words.new.items i ≡ slice_index words.old.items i }
    ensures above { (i : ℕ) → unit * to ≤ i → slice_index words.new.items i ≡ slice_index words.old.items i }
    ensures len { vec_len words.new ≡ vec_len words.old }
    ensures capacity { vec_capacity words.new ≡ vec_capacity words.old }
    ensures marked { (j : ℕ) → j < unit → slice_index bad.new j ≡ 0 →
        (slice_index bad.old j ≡ 0) × ((t : ℕ) → from ≤ t → t < to → slice_index words.old.items (unit * t + j) ≡ 0) }
    ensures unmarked { (j : ℕ) → j < unit → slice_index bad.old j ≡ 0 →
        ((t : ℕ) → from ≤ t → t < to → slice_index words.old.items (unit * t + j) ≡ 0) → slice_index bad.new j ≡ 0 }
{
    for t in from..to {
        take_place(words, unit, t, bad);
    }
}

/// The same of one place.
fn take_place(words: &mut Vec<u64>, unit: usize, t: usize, bad: &mut [u64])
    requires within { unit * t + unit ≤ vec_len words.old }
    requires blocks { length bad.old ≡ unit }
    ensures zero { (j : ℕ) → j < unit → slice_index words.new.items (unit * t + j) ≡ 0 }
    ensures below { (i : ℕ) → i < unit * t → slice_index words.new.items i ≡ slice_index words.old.items i }
    ensures above { (i : ℕ) → unit * t + unit ≤ i → slice_index words.new.items i ≡ slice_index words.old.items i }
    ensures len { vec_len words.new ≡ vec_len words.old }
    ensures capacity { vec_capacity words.new ≡ vec_capacity words.old }
    ensures marked { (j : ℕ) → j < unit → slice_index bad.new j ≡ 0 →
        (slice_index bad.old j ≡ 0) × (slice_index words.old.items (unit * t + j) ≡ 0) }
    ensures unmarked { (j : ℕ) → j < unit → slice_index bad.old j ≡ 0 → slice_index words.old.items (unit * t + j) ≡ 0 → slice_index bad.new j ≡ 0 }
{
    take_group(&mut words[unit * t..unit * t + unit], bad);
}

/// Makes all words zero, and marks each place that had another word.
fn take_group(group: &mut [u64], bad: &mut [u64])
    requires { length bad.old ≡ length group.old }
    ensures zero { (j : ℕ) → j < length group.old → slice_index group.new j ≡ 0 }
    ensures marked { (j : ℕ) → j < length group.old → slice_index bad.new j ≡ 0 → (slice_index bad.old j ≡ 0) × (slice_index group.old j ≡ 0) }
    ensures unmarked { (j : ℕ) → j < length group.old → slice_index bad.old j ≡ 0 → slice_index group.old j ≡ 0 → slice_index bad.new j ≡ 0 }
{
    for j in 0..group.len() {
        if group[j] != 0 {
            group[j] = 0;
            bad[j] = 1;
        }
    }
}
