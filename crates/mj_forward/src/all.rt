//! All projections of a block.

ghost use Rattle.std.specs.Prelude.{◌≡◌, ◌≤◌, ◌<◌, ◌*◌, ◌+◌, ◌-◌, ℕ, length, slice_index, slice_range, unsigned_abs};
ghost use Rattle.mj_angles.specs.Layout.{inverse_of, safe_of, cols_of, angle_of, bins_at_of};
ghost use Rattle.mj_angles.specs.Projection.{bin, bins, projection, word_at};
ghost use Rattle.mj_forward.specs.Forward.{start_of};

use crate::project_at;
use mj_angles::Layout;

/// Writes the projections at the positions from 0 to `count` one after the other into `out`, whose word
/// number `lead` is the first of a line of eight in memory.
pub fn project_all(layout: Layout, words: &[u64], count: u8, lead: usize, out: &mut [u64])
    requires full { length words.now ≡ inverse_of layout * cols_of layout }
    requires few { count ≤ safe_of layout }
    requires room { length out.old ≡ start_of layout count }
    ensures parts { (j : ℕ) → j < count → slice_range out.new (start_of layout j) (start_of layout j + bins_at_of layout j) ≡
        projection (word_at words.now (cols_of layout)) (inverse_of layout) (cols_of layout) (angle_of layout j) }
    ensures bins { (j b : ℕ) → j < count → b < bins_at_of layout j →
        slice_index out.new (start_of layout j + b) ≡ bin (word_at words.now (cols_of layout)) (inverse_of layout) (cols_of layout) (angle_of layout j) b }
{
    let rows = layout.inverse();
    let cols = layout.cols();
    let mut at = 0;
    for j in 0..count {
        let end = at + layout.bins_at(j);
        project_into(words, rows, cols, layout.angle(j), lead, out, at, end);
        at = end;
    }
}

/// Writes a projection into a part of `out`.
#[inline(always)]
fn project_into(
    words: &[u64],
    rows: usize,
    cols: usize,
    p: i32,
    lead: usize,
    out: &mut [u64],
    from: usize,
    to: usize,
)
    requires full { length words.now ≡ rows * cols }
    requires few_rows { rows ≤ 16 }
    requires angle { unsigned_abs p ≤ 16 }
    requires part { from + bins p rows cols ≡ to }
    requires room { to ≤ length out.old }
    ensures inside { (b : ℕ) → b < bins p rows cols → slice_index out.new (from + b) ≡ bin (word_at words.now cols) rows cols p b }
    ensures below { (i : ℕ) → i < from → slice_index out.new i ≡ slice_index out.old i }
{
    let lead = (lead % 8 + 8 - from % 8) % 8;
    project_at(words, rows, cols, p, lead, &mut out[from..to]);
}
