//! Words that are put into a list, and taken out of it.

ghost use Rattle.std.specs.Prelude.{IfOk, ◌≡◌, ◌≤◌, ◌<◌, ◌+◌, ℕ, length, slice_index, vec_len, vec_capacity};

use std::alloc::{AllocError, Global};

/// So many words that are zero.
///
/// # Errors
///
/// `AllocError` where memory is wanting.
pub fn zeros(alloc: Global, n: usize) -> Result<Vec<u64>, AllocError>
    ensures len { IfOk result (λ v. vec_len v ≡ n) }
    ensures zero { IfOk result (λ v. (i : ℕ) → slice_index v.items i ≡ 0) }
{
    let mut words = Vec::new(alloc);
    words.resize(n, 0)?;
    Ok(words)
}

/// Writes the words from `from` to `to` into `out`, and forgets all words.
pub fn give_words(words: &mut Vec<u64>, from: usize, to: usize, out: &mut [u64])
    requires order { from ≤ to }
    requires within { to ≤ vec_len words.old }
    requires room { from + length out.old ≡ to }
    ensures out { (k : ℕ) → from + k < to → slice_index out.new k ≡ slice_index words.old.items (from + k) }
    ensures blank { vec_len words.new ≡ 0 }
    ensures capacity { vec_capacity words.new ≡ vec_capacity words.old }
{
    out.copy_from_slice(&words[from..to]);
    words.clear();
}

/// Writes `from` zeros and then `bins` into `words`, where there are none, and room for them.
pub fn put_words(words: &mut Vec<u64>, from: usize, bins: &[u64])
    requires blank { vec_len words.old ≡ 0 }
    requires room { from + length bins.now ≤ vec_capacity words.old }
    ensures inside { (k : ℕ) → k < length bins.now → slice_index words.new.items (from + k) ≡ slice_index bins.now k }
    ensures below { (i : ℕ) → i < from → slice_index words.new.items i ≡ 0 }
    ensures len { vec_len words.new ≡ from + length bins.now }
    ensures capacity { vec_capacity words.old ≤ vec_capacity words.new }
{
    let Ok(()) = words.resize(from, 0) else {
        return;
    };
    let Ok(()) = words.extend_from_slice(bins) else {
        return;
    };
}

/// Adds zeros, for which there is room, until there are `n` words.
pub fn add_zeros(words: &mut Vec<u64>, n: usize)
    requires more { vec_len words.old ≤ n }
    requires room { n ≤ vec_capacity words.old }
    ensures same { (i : ℕ) → slice_index words.new.items i ≡ slice_index words.old.items i }
    ensures len { vec_len words.new ≡ n }
    ensures capacity { vec_capacity words.old ≤ vec_capacity words.new }
{
    let Ok(()) = words.resize(n, 0) else {
        return;
    };
}
