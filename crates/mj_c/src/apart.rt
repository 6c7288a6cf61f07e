//! Inversions of many blocks whose fragments stand apart, in room that the caller lends.

ghost use Rattle.std.specs.Prelude.{◌≡◌, ◌≢◌, ◌<◌, ◌≤◌, ◌+◌, ◌-◌, ◌*◌, ℕ, true, map, nat_lt, nat_le, length, slice_index, IfSome};
ghost use Rattle.std.specs.List.{list_all};
ghost use Rattle.mj_angles.specs.Layout.{inverse_of, cols_of, safe_of, angle_of, bins_at_of};
ghost use Rattle.mj_inverse_four.specs.Fragments.{fragment_search};
ghost use Rattle.mj_c.specs.Layouts.{IsKnown, layout_at, part_of};
ghost use Rattle.mj_c.specs.Answers.{apart_refusal, are_long as long_enough};

use crate::Answer;
use crate::fragments::find_in;
use crate::inverse::{are_positions, is_ascending};
use crate::layouts::layout_of;
use crate::many::is_product;
use crate::room::room_words;
use mj_angles::Layout;

/// Tests everything, and looks for as many blocks as `lost` has bytes.
pub fn solve_apart_in_at(
    layout: u32,
    positions: &[u32],
    parts: &[&[u64]],
    strides: &[usize],
    out: &mut [u64],
    lost: &mut [u8],
    room: &mut [u64],
) -> Answer
    ensures refused { let refusal = apart_refusal (layout_at layout) positions.now parts.now strides.now (length out.old) (length lost.old) (length room.old) in
        refusal ≢ Answer.Done → result ≡ refusal }
    ensures done { apart_refusal (layout_at layout) positions.now parts.now strides.now (length out.old) (length lost.old) (length room.old) ≡ Answer.Done → result ≡ Answer.Done }
    ensures known { result ≡ Answer.Done → IfSome (layout_at layout)
        (λ y. (i : ℕ) → i < length lost.old → IsKnown y (fragment_search (inverse_of y) (cols_of y) (map (angle_of y) positions.now) parts.now strides.now i)
        (part_of y out.old i) (part_of y out.new i) (slice_index lost.new i)) }
    ensures unchanged { result ≢ Answer.Done → out.new ≡ out.old }
    ensures unnamed { result ≢ Answer.Done → lost.new ≡ lost.old }
{
    let Some(layout) = layout_of(layout) else {
        return Answer::BadLayout;
    };
    if !are_positions(layout, positions) {
        return Answer::BadPosition;
    }
    if !is_ascending(layout, positions) {
        return Answer::NotAscending;
    }
    let words = layout.inverse() * layout.cols();
    if positions.len() != layout.inverse() || !is_product(out.len(), lost.len(), words) {
        return Answer::BadLength;
    }
    if lost.len() > 0 && !are_long(layout, positions, parts, strides, lost.len() - 1) {
        return Answer::BadLength;
    }
    if room.len() < room_words(layout) {
        return Answer::BadLength;
    }
    find_in(layout, positions, parts, strides, out, lost, room);
    Answer::Done
}

/// Whether each position has a list of words with the bins of all blocks up to number `last`, a stride apart.
fn are_long(
    layout: Layout,
    positions: &[u32],
    parts: &[&[u64]],
    strides: &[usize],
    last: usize,
) -> bool
    requires { list_all (λ i. nat_lt i (safe_of layout)) positions.now ≡ true }
    ensures { result ≡ long_enough layout last positions.now parts.now strides.now }
{
    match (
        positions.split_first(),
        parts.split_first(),
        strides.split_first(),
    ) {
        (Some((position, positions)), Some((part, parts)), Some((stride, strides))) => {
            is_long(part.len(), last, *stride, layout.bins_at(*position as u8))
                && are_long(layout, positions, parts, strides, last)
        }
        (None, None, None) => true,
        _ => false,
    }
}

/// Whether so many words have the bins of block `last`.
fn is_long(words: usize, last: usize, stride: usize, bins: usize) -> bool
    ensures { result ≡ nat_le (last * stride + bins) words }
{
    match last.checked_mul(stride) {
        Some(start) => bins <= words && start <= words - bins,
        None => false,
    }
}
