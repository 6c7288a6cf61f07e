//! Inversions of groups of eight blocks side by side.

ghost use Rattle.std.specs.Prelude.{◌≡◌, ◌≢◌, ◌⊎◌, ◌<◌, ◌≤◌, ◌+◌, ◌*◌, ℕ, List, true, map, nat_lt, length, slice_index, IfSome};
ghost use Rattle.std.specs.List.{list_all, sum_by};
ghost use Rattle.mj_angles.specs.Layout.{inverse_of, cols_of, safe_of, angle_of, bins_at_of};
ghost use Rattle.mj_inverse.specs.Fits.{empty_search};
ghost use Rattle.mj_c.specs.Layouts.{layout_at, words_of, eight_search, group_search, group_at, IsSolved};
ghost use Rattle.mj_c.specs.Answers.{eight_refusal, is_ascending_from};

use crate::Answer;
use crate::inverse::{are_positions, is_ascending, total_bins};
use crate::layouts::layout_of;
use crate::many::is_product;
use mj_angles::Layout;
use mj_inverse::WorkEight;
use std::alloc::Global;

/// Tests everything, and looks for the blocks of as many groups as `answers` has bytes.
pub fn solve_eight_at(
    alloc: Global,
    layout: u32,
    positions: &[u32],
    bins: &[u64],
    out: &mut [u64],
    answers: &mut [u8],
) -> Answer
    ensures refused { let refusal = eight_refusal (layout_at layout) positions.now (length bins.now) (length out.old) (length answers.old) in
        refusal ≢ Answer.Done → result ≡ refusal }
    ensures tried { eight_refusal (layout_at layout) positions.now (length bins.now) (length out.old) (length answers.old) ≡ Answer.Done →
        (result ≡ Answer.Done) ⊎ (result ≡ Answer.NoMemory) }
    ensures done { result ≡ Answer.Done → IfSome (layout_at layout)
        (λ y. (i j : ℕ) → i < length answers.old → j < 8 → IsSolved y (group_search y positions.now bins.now i) (group_at y out.new i) (slice_index answers.new i) j) }
    ensures unchanged { result ≢ Answer.Done → out.new ≡ out.old }
    ensures unanswered { result ≢ Answer.Done → answers.new ≡ answers.old }
{
    let Some(layout) = layout_of(layout) else {
        return Answer::BadLayout;
    };
    if !are_positions(layout, positions) {
        return Answer::BadPosition;
    }
    if !is_ascending(layout, positions) {
        return Answer::NotAscending;
    }
    if positions.len() != layout.inverse() {
        return Answer::BadLength;
    }
    let words = 8 * (layout.inverse() * layout.cols());
    let each = eight_bins(layout, positions);
    if !is_product(out.len(), answers.len(), words)
        || !is_product(bins.len(), answers.len(), each)
    {
        return Answer::BadLength;
    }
    let Ok(mut work) = WorkEight::new(alloc, layout.inverse(), layout.cols()) else {
        return Answer::NoMemory;
    };
    find_groups(&mut work, layout, positions, bins, out, answers);
    Answer::Done
}

/// How many bins the projections of eight blocks at these positions have.
pub fn eight_bins(layout: Layout, positions: &[u32]) -> usize
    requires positions { list_all (λ i. nat_lt i (safe_of layout)) positions.now ≡ true }
    requires few { length positions.now ≤ 8 }
    ensures { result ≡ sum_by (λ i. 8 * bins_at_of layout i) positions.now }
{
    let mut total = 0;
    for position in positions {
        total += 8 * layout.bins_at(*position as u8);
    }
    total
}

/// Looks for the blocks of each group.
fn find_groups(
    work: &mut WorkEight,
    layout: Layout,
    positions: &[u32],
    bins: &[u64],
    out: &mut [u64],
    answers: &mut [u8],
)
    requires empty { work.old ≡ empty_search (inverse_of layout) (cols_of layout) }
    requires positions { list_all (λ i. nat_lt i (safe_of layout)) positions.now ≡ true }
    requires ascending { is_ascending_from 0 positions.now ≡ true }
    requires count { length positions.now ≡ inverse_of layout }
    requires bins { length bins.now ≡ length answers.old * sum_by (λ i. 8 * bins_at_of layout i) positions.now }
    requires room { length out.old ≡ length answers.old * (8 * words_of layout) }
    ensures solved { (i j : ℕ) → i < length answers.old → j < 8 →
        IsSolved layout (group_search layout positions.now bins.now i) (group_at layout out.new i) (slice_index answers.new i) j }
    ensures empty { work.new ≡ empty_search (inverse_of layout) (cols_of layout) }
{
    let each = eight_bins(layout, positions);
    let words = 8 * (layout.inverse() * layout.cols());
    let mut room = [0i32; 8];
    let angles = &mut room[..positions.len()];
    write_angles(layout, positions, angles);
    for i in 0..answers.len() {
        let given = &bins[i * each..i * each + each];
        let block = &mut out[i * words..i * words + words];
        answers[i] = find_eight(work, layout, positions, angles, given, block);
    }
}

/// Looks for the eight blocks of one group.
fn find_eight(
    work: &mut WorkEight,
    layout: Layout,
    positions: &[u32],
    angles: &[i32],
    bins: &[u64],
    out: &mut [u64],
) -> u8
    requires empty { work.old ≡ empty_search (inverse_of layout) (cols_of layout) }
    requires positions { list_all (λ i. nat_lt i (safe_of layout)) positions.now ≡ true }
    requires ascending { is_ascending_from 0 positions.now ≡ true }
    requires count { length positions.now ≡ inverse_of layout }
    requires angles { angles.now ≡ map (angle_of layout) positions.now }
    requires bins { length bins.now ≡ sum_by (λ i. 8 * bins_at_of layout i) positions.now }
    requires room { length out.old ≡ 8 * words_of layout }
    ensures solved { (j : ℕ) → j < 8 → IsSolved layout (eight_search layout positions.now bins.now) out.new result j }
    ensures empty { work.new ≡ empty_search (inverse_of layout) (cols_of layout) }
{
    work.solve_from(angles, bins, out)
}

/// Writes the angles of the projections at these positions.
pub fn write_angles(layout: Layout, positions: &[u32], out: &mut [i32])
    requires positions { list_all (λ i. nat_lt i (safe_of layout)) positions.now ≡ true }
    requires room { length out.old ≡ length positions.now }
    ensures { out.new ≡ map (angle_of layout) positions.now }
{
    match (positions.split_first(), out.split_first_mut()) {
        (Some((position, positions)), Some((first, rest))) => {
            *first = layout.angle(*position as u8);
            write_angles(layout, positions, rest);
        }
        _ => {}
    }
}
