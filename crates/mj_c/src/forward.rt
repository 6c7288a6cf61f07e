//! Projections.

ghost use Rattle.std.specs.Prelude.{◌≡◌, ◌≢◌, ◌≤◌, ◌<◌, ◌+◌, ◌*◌, ℕ, length, slice_index, slice_range, IfSome};
ghost use Rattle.mj_angles.specs.Projection.{bin, projection, word_at};
ghost use Rattle.mj_forward.specs.Forward.{lane_word, start_of};
ghost use Rattle.mj_angles.specs.Layout.{inverse_of, safe_of, cols_of, angle_of, bins_at_of};
ghost use Rattle.mj_c.specs.Layouts.{layout_at};
ghost use Rattle.mj_c.specs.Answers.{project_answer, eight_answer, all_answer};

use crate::Answer;
use crate::layouts::layout_of;
use mj_angles::Layout;
use mj_forward::{project_all, project_at as project_words_at, project_eight};

/// Tests everything, and projects.
pub fn project_at(layout: u32, position: u32, lead: usize, block: &[u64], out: &mut [u64]) -> Answer
    ensures answer { result ≡ project_answer (layout_at layout) position (length block.now) (length out.old) }
    ensures done { result ≡ Answer.Done → IfSome (layout_at layout)
        (λ y. out.new ≡ projection (word_at block.now (cols_of y)) (inverse_of y) (cols_of y) (angle_of y position)) }
    ensures refused { result ≢ Answer.Done → out.new ≡ out.old }
{
    let Some(layout) = layout_of(layout) else {
        return Answer::BadLayout;
    };
    if position as usize >= layout.safe() {
        return Answer::BadPosition;
    }
    let position = position as u8;
    let rows = layout.inverse();
    let cols = layout.cols();
    if block.len() != rows * cols || out.len() != layout.bins_at(position) {
        return Answer::BadLength;
    }
    project_words_at(block, rows, cols, layout.angle(position), lead, out);
    Answer::Done
}

/// The same of eight blocks side by side.
pub fn project_eight_at(layout: u32, position: u32, blocks: &[u64], out: &mut [u64]) -> Answer
    ensures answer { result ≡ eight_answer (layout_at layout) position (length blocks.now) (length out.old) }
    ensures done { result ≡ Answer.Done → IfSome (layout_at layout)
        (λ y. (i b : ℕ) → i < 8 → b < bins_at_of y position →
        slice_index out.new (8 * b + i) ≡ bin (lane_word blocks.now (cols_of y) i) (inverse_of y) (cols_of y) (angle_of y position) b) }
    ensures refused { result ≢ Answer.Done → out.new ≡ out.old }
{
    let Some(layout) = layout_of(layout) else {
        return Answer::BadLayout;
    };
    if position as usize >= layout.safe() {
        return Answer::BadPosition;
    }
    let position = position as u8;
    let rows = layout.inverse();
    let cols = layout.cols();
    if blocks.len() != rows * (8 * cols) || out.len() != 8 * layout.bins_at(position) {
        return Answer::BadLength;
    }
    project_eight(blocks, rows, cols, layout.angle(position), out);
    Answer::Done
}

/// All projections at the positions below `count`.
pub fn project_all_at(
    layout: u32,
    count: u32,
    lead: usize,
    block: &[u64],
    out: &mut [u64],
) -> Answer
    ensures answer { result ≡ all_answer (layout_at layout) count (length block.now) (length out.old) }
    ensures done { result ≡ Answer.Done → IfSome (layout_at layout)
        (λ y. (j : ℕ) → j < count → slice_range out.new (start_of y j) (start_of y j + bins_at_of y j) ≡
        projection (word_at block.now (cols_of y)) (inverse_of y) (cols_of y) (angle_of y j)) }
    ensures refused { result ≢ Answer.Done → out.new ≡ out.old }
{
    let Some(layout) = layout_of(layout) else {
        return Answer::BadLayout;
    };
    if count as usize > layout.safe() {
        return Answer::BadPosition;
    }
    let count = count as u8;
    if block.len() != layout.inverse() * layout.cols() || out.len() != total(layout, count) {
        return Answer::BadLength;
    }
    project_all(layout, block, count, lead, out);
    Answer::Done
}

/// How many bins all projections at the positions below `count` have.
fn total(layout: Layout, count: u8) -> usize
    requires { count ≤ safe_of layout }
    ensures { result ≡ start_of layout count }
{
    let mut sum = 0;
    for j in 0..count {
        sum += layout.bins_at(j);
    }
    sum
}
