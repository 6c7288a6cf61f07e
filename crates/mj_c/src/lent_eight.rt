//! Inversions of groups of eight blocks side by side, in room that the caller lends.

ghost use Rattle.std.specs.Prelude.{◌≡◌, ◌≢◌, ◌<◌, ◌≤◌, ◌+◌, ◌*◌, ℕ, true, map, nat_lt, length, slice_index, IfSome};
ghost use Rattle.std.specs.List.{list_all, sum_by};
ghost use Rattle.mj_angles.specs.Layout.{inverse_of, safe_of, angle_of, bins_at_of};
ghost use Rattle.mj_c.specs.Layouts.{layout_at, words_of, eight_search, group_search, group_at, rows_room_of, IsSolved};
ghost use Rattle.mj_c.specs.Answers.{lent_eight_refusal, is_ascending_from};

use crate::Answer;
use crate::eight::{eight_bins, write_angles};
use crate::inverse::{are_positions, is_ascending};
use crate::layouts::layout_of;
use crate::many::is_product;
use crate::room::{frame_of, room_words, rows_room};
use mj_angles::Layout;
use mj_inverse::solve_beside;

/// Tests everything, and looks for the blocks of as many groups as `answers` has bytes.
pub fn solve_eight_in_at(
    layout: u32,
    positions: &[u32],
    bins: &[u64],
    out: &mut [u64],
    answers: &mut [u8],
    room: &mut [u64],
) -> Answer
    ensures refused { let refusal = lent_eight_refusal (layout_at layout) positions.now (length bins.now) (length out.old) (length answers.old) (length room.old) in
        refusal ≢ Answer.Done → result ≡ refusal }
    ensures done { lent_eight_refusal (layout_at layout) positions.now (length bins.now) (length out.old) (length answers.old) (length room.old) ≡ Answer.Done → result ≡ Answer.Done }
    ensures solved { result ≡ Answer.Done → IfSome (layout_at layout)
        (λ y. (i j : ℕ) → i < length answers.old → j < 8 → IsSolved y (group_search y positions.now bins.now i) (group_at y out.new i) (slice_index answers.new i) j) }
    ensures unchanged { result ≢ Answer.Done → out.new ≡ out.old }
    ensures unanswered { result ≢ Answer.Done → answers.new ≡ answers.old }
{
    let Some(layout) = layout_of(layout) else {
        return Answer::BadLayout;
    };
    if !are_positions(layout, positions) {
        return Answer::BadPosition;
    }
    if !is_ascending(layout, positions) {
        return Answer::NotAscending;
    }
    if positions.len() != layout.inverse() {
        return Answer::BadLength;
    }
    let words = 8 * (layout.inverse() * layout.cols());
    let each = eight_bins(layout, positions);
    if !is_product(out.len(), answers.len(), words)
        || !is_product(bins.len(), answers.len(), each)
    {
        return Answer::BadLength;
    }
    if room.len() < room_words(layout) {
        return Answer::BadLength;
    }
    let rows = &mut room[..rows_room(layout)];
    find_groups(layout, positions, bins, out, answers, rows);
    Answer::Done
}

/// Looks for the blocks of each group.
fn find_groups(
    layout: Layout,
    positions: &[u32],
    bins: &[u64],
    out: &mut [u64],
    answers: &mut [u8],
    rows: &mut [u64],
)
    requires positions { list_all (λ i. nat_lt i (safe_of layout)) positions.now ≡ true }
    requires ascending { is_ascending_from 0 positions.now ≡ true }
    requires count { length positions.now ≡ inverse_of layout }
    requires bins { length bins.now ≡ length answers.old * sum_by (λ i. 8 * bins_at_of layout i) positions.now }
    requires room { length out.old ≡ length answers.old * (8 * words_of layout) }
    requires rows { length rows.old ≡ rows_room_of layout }
    ensures { (i j : ℕ) → i < length answers.old → j < 8 →
        IsSolved layout (group_search layout positions.now bins.now i) (group_at layout out.new i) (slice_index answers.new i) j }
{
    let each = eight_bins(layout, positions);
    let words = 8 * (layout.inverse() * layout.cols());
    let mut angles = [0i32; 8];
    let angles = &mut angles[..positions.len()];
    write_angles(layout, positions, angles);
    for i in 0..answers.len() {
        let given = &bins[i * each..i * each + each];
        let block = &mut out[i * words..i * words + words];
        answers[i] = find_eight(layout, positions, angles, given, block, rows);
    }
}

/// Looks for the eight blocks of one group.
fn find_eight(
    layout: Layout,
    positions: &[u32],
    angles: &[i32],
    bins: &[u64],
    out: &mut [u64],
    rows: &mut [u64],
) -> u8
    requires positions { list_all (λ i. nat_lt i (safe_of layout)) positions.now ≡ true }
    requires ascending { is_ascending_from 0 positions.now ≡ true }
    requires count { length positions.now ≡ inverse_of layout }
    requires angles { angles.now ≡ map (angle_of layout) positions.now }
    requires bins { length bins.now ≡ sum_by (λ i. 8 * bins_at_of layout i) positions.now }
    requires room { length out.old ≡ 8 * words_of layout }
    requires rows { length rows.old ≡ rows_room_of layout }
    ensures { (j : ℕ) → j < 8 → IsSolved layout (eight_search layout positions.now bins.now) out.new result j }
{
    solve_beside(angles, bins, frame_of(layout), rows, out)
}
