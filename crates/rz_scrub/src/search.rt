//! The search for a block within the reach.

ghost use Rattle.std.specs.Prelude.{◌≡◌, ◌<◌, ◌≤◌, false, ℕ, IsTrue, length, take};
ghost use Rattle.mj_angles.specs.Layout.{safe_of, inverse_of, cols_of};
ghost use Rattle.rz_words.specs.Grid.{Grid};
ghost use Rattle.rz_scrub.specs.Misfits.{IsWithinReach};
ghost use Rattle.rz_scrub.specs.Choice.{IsChoice, IsNoneLeft, FitsAll};

use crate::slots::Slots;
use crate::solver::Solver;
use rz_words::Block;

/// Looks for a block within the reach that has the bins at the first `count` positions of `choice`, and at
/// enough others from the position `from` on. Where there is one, `out` is it.
pub fn is_found(
    records: &Slots,
    solver: &mut Solver,
    choice: &mut [u8],
    count: usize,
    from: u8,
    out: &mut Block,
) -> bool
    requires layout { solver.old ≡ records.now.layout }
    requires room { length choice.old ≡ inverse_of records.now.layout }
    requires count { count ≤ length choice.old }
    requires from { from ≤ safe_of records.now.layout }
    requires chosen { IsChoice records.now from (take count choice.old) }
    requires rows { out.old.rows ≡ inverse_of records.now.layout }
    requires cols { out.old.cols ≡ cols_of records.now.layout }
    ensures found { IsTrue result → IsWithinReach records.now out.new }
    ensures none { result ≡ false → IsNoneLeft records.now (take count choice.old) from }
    ensures choice { take count choice.new ≡ take count choice.old }
    ensures layout { solver.new ≡ solver.old }
    ensures rows { out.new.rows ≡ out.old.rows }
    ensures cols { out.new.cols ≡ out.old.cols }
{
    let layout = records.layout();
    if count == layout.inverse() {
        return is_within_reach(records, solver, choice, out);
    }
    if count + (layout.safe() - from as usize) < layout.inverse() {
        return false;
    }
    if !records.has_bins(from) {
        return is_found(records, solver, choice, count, from + 1, out);
    }
    choice[count] = from;
    if is_found(records, solver, choice, count + 1, from + 1, out) {
        return true;
    }
    is_found(records, solver, choice, count, from + 1, out)
}

/// Whether the block with the bins at the chosen positions is within the reach. `out` is that block then.
fn is_within_reach(records: &Slots, solver: &mut Solver, chosen: &[u8], out: &mut Block) -> bool
    requires layout { solver.old ≡ records.now.layout }
    requires full { length chosen.now ≡ inverse_of records.now.layout }
    requires chosen { IsChoice records.now (safe_of records.now.layout) chosen.now }
    requires rows { out.old.rows ≡ inverse_of records.now.layout }
    requires cols { out.old.cols ≡ cols_of records.now.layout }
    ensures found { IsTrue result → IsWithinReach records.now out.new }
    ensures none { result ≡ false → (g : Grid) → FitsAll records.now g chosen.now → ¬ IsWithinReach records.now g }
    ensures layout { solver.new ≡ solver.old }
    ensures rows { out.new.rows ≡ out.old.rows }
    ensures cols { out.new.cols ≡ out.old.cols }
{
    if !solver.solve(records, chosen, out) {
        return false;
    }
    solver.misfits(records, out) <= records.reach()
}
