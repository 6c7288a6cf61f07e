//! The places at the ends of a series.

ghost use Rattle.std.specs.Prelude.{◌≡◌, ◌≤◌, ◌<◌, ◌+◌, ◌*◌, ℕ, true, slice_index, vec_len};

use rz_lanes::all_zero;

/// The first place from `from` on, and before `to`, that has a word other than zero; `to` where there is none.
pub fn first_used(words: &Vec<u64>, unit: usize, from: usize, to: usize) -> usize
    requires order { from ≤ to }
    requires within { unit * to ≤ vec_len words.now }
    ensures low { from ≤ result }
    ensures high { result ≤ to }
    ensures zero { (t j : ℕ) → from ≤ t → t < result → j < unit → slice_index words.now.items (unit * t + j) ≡ 0 }
{
    for t in from..to {
        if !is_zero_place(words, unit, t) {
            return t;
        }
    }
    to
}

/// The place after the last one before `to`, and not before `from`, that has a word other than zero; `from`
/// where there is none.
pub fn end_of_used(words: &Vec<u64>, unit: usize, from: usize, to: usize) -> usize
    requires order { from ≤ to }
    requires within { unit * to ≤ vec_len words.now }
    ensures low { from ≤ result }
    ensures high { result ≤ to }
    ensures zero { (t j : ℕ) → result ≤ t → t < to → j < unit → slice_index words.now.items (unit * t + j) ≡ 0 }
{
    for n in 0..to - from {
        let t = to - 1 - n;
        if !is_zero_place(words, unit, t) {
            return t + 1;
        }
    }
    from
}

/// An end from `to` on, and not past `most`, that makes whole groups of eight places where there is room for
/// that, so that no single words are left over.
pub fn padded_end(from: usize, to: usize, most: usize) -> usize
    requires order { from ≤ to }
    requires room { to ≤ most }
    ensures low { to ≤ result }
    ensures high { result ≤ most }
{
    let over = (to - from) % 8;
    if over > 0 && most - to >= 8 {
        to + (8 - over)
    } else {
        to
    }
}

/// Whether all words from place `from` to place `to` are zero.
pub fn are_zero(words: &Vec<u64>, unit: usize, from: usize, to: usize) -> bool
    requires order { from ≤ to }
    requires within { unit * to ≤ vec_len words.now }
    requires some { 0 < unit }
    ensures yes { result ≡ true → (t j : ℕ) → from ≤ t → t < to → j < unit → slice_index words.now.items (unit * t + j) ≡ 0 }
    ensures no { ((t j : ℕ) → from ≤ t → t < to → j < unit → slice_index words.now.items (unit * t + j) ≡ 0) → result ≡ true }
{
    all_zero(&words[unit * from..unit * to])
}

/// Whether all words of a place are zero.
fn is_zero_place(words: &Vec<u64>, unit: usize, t: usize) -> bool
    requires { unit * t + unit ≤ vec_len words.now }
    ensures { result ≡ true → (j : ℕ) → j < unit → slice_index words.now.items (unit * t + j) ≡ 0 }
{
    all_zero(&words[unit * t..unit * t + unit])
}
