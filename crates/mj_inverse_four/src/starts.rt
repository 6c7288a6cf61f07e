//! Where the bins of up to four blocks begin.

ghost use Rattle.std.specs.Prelude.{◌≡◌, ◌≤◌, ◌<◌, ◌+◌, ◌-◌, ◌*◌, ◌^◌, ℕ, length, min};
ghost use Rattle.mj_inverse_four.specs.Fragments.{AreThere, part_at};
ghost use Rattle.mj_inverse_four.specs.Starts.{block_of, start_of};

use crate::fours::Starts;

/// Up to four blocks.
#[derive(Clone, Copy)]
pub struct Group {
    /// The number of the first.
    pub first: usize,
    /// How many there are, at least one.
    pub count: usize,
}

/// The words of projection `m`.
#[inline(always)]
pub fn words_at<'a>(parts: &[&'a [u64]], m: usize) -> &'a [u64]
    requires { m < length parts.now }
    ensures { result.now ≡ part_at parts.now m }
{
    parts[m]
}

/// Where each block of a group begins in these words, where blocks stand `stride` words apart. For a block that
/// the group has not stands its last one.
pub fn starts_of(words: &[u64], stride: usize, group: Group) -> Starts
    requires some { 0 < group.count }
    requires few { group.count ≤ 4 }
    requires few_blocks { group.first < 2 ^ 62 }
    requires within { (group.first + (group.count - 1)) * stride ≤ length words.now }
    ensures { (i : ℕ) → i < 4 → start_of result i ≡ block_of group i * stride }
{
    let last = group.count - 1;
    let second = at_most(1, last);
    let third = at_most(2, last);
    Starts {
        first: group.first * stride,
        second: (group.first + second) * stride,
        third: (group.first + third) * stride,
        fourth: (group.first + last) * stride,
    }
}

/// The lesser number.
fn at_most(i: usize, most: usize) -> usize
    ensures { result ≡ min i most }
{
    if i < most { i } else { most }
}
