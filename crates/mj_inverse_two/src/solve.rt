//! A block of two rows looked for by two projections.

ghost use Rattle.std.specs.Prelude.{◌≡◌, ◌≤◌, ◌<◌, ◌<ℤ◌, ◌+◌, ◌*◌, ℕ, true, false, length, slice_index, unsigned_abs};
ghost use Rattle.rz_words.specs.Grid.{Grid, grid_of};
ghost use Rattle.mj_angles.specs.Projection.{bins as bin_count};
ghost use Rattle.mj_inverse.specs.Fits.{IsFound};
ghost use Rattle.mj_inverse_two.specs.Two.{two_search};

use crate::ends::have_ends;
use crate::second::{read_second, write_rows};
use crate::starts::starts_at;

/// Looks for the block of two rows with the bins `a` at the angle `p`, and `b` at the greater angle `q`. Writes its words
/// into `out`, row by row, and says whether there is one; otherwise `out` stays as it was. `row` is room, and begins with 32 zeros.
pub fn solve_two(
    p: i32,
    a: &[u64],
    q: i32,
    b: &[u64],
    cols: usize,
    row: &mut [u64],
    out: &mut [u64],
) -> bool
    requires p { unsigned_abs p ≤ 16 }
    requires q { unsigned_abs q ≤ 16 }
    requires rises { p <ℤ q }
    requires wide { 16 ≤ cols }
    requires few { cols ≤ 2048 }
    requires a { length a.now ≡ bin_count p 2 cols }
    requires b { length b.now ≡ bin_count q 2 cols }
    requires room { length row.old ≡ 32 + cols }
    requires zero { (k : ℕ) → k < 32 → slice_index row.old k ≡ 0 }
    requires out { length out.old ≡ 2 * cols }
    ensures found { result ≡ true → IsFound (two_search cols p a.now q b.now) (grid_of 2 cols out.new) }
    ensures only { result ≡ true → (g : Grid) → IsFound (two_search cols p a.now q b.now) g → g ≡ grid_of 2 cols out.new }
    ensures none { result ≡ false → (g : Grid) → ¬ IsFound (two_search cols p a.now q b.now) g }
    ensures unchanged { result ≡ false → out.new ≡ out.old }
    ensures zero { (k : ℕ) → k < 32 → slice_index row.new k ≡ 0 }
{
    let low = starts_at(p);
    let high = starts_at(q);
    read_second(a, b, low, high, cols, row);
    if !have_ends(a, b, low, high, cols, row) {
        return false;
    }
    write_rows(b, high, cols, row, out);
    true
}
