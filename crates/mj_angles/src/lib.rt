//! The layouts of a block, its angles, and what a projection is.
//!
//! The transform is the Dirac Mojette transform of Guédon and Normand with exclusive or as its sum, in
//! the directions `(p, 1)`. A block has rows and columns of 64-bit words. Its projection at the angle
//! `p` has a bin for each line `k + p * l`, where `k` is a column and `l` a row.
//!
//! The contracts give every number of the twelve layouts, and where the words of a row fall. The
//! definitions say what a bin and a projection are. They say nothing of how a block is projected or
//! found again: `mj_forward` and `mj_inverse` do both.
#![tactic(auto)]

ghost use Rattle.std.specs.Prelude.{◌≡◌, ◌≤◌, ◌<◌, ◌*◌, ◌+◌, ◌-◌, ℕ, pos, ◌+ℤ◌, ◌*ℤ◌, unsigned_abs};
ghost use Rattle.mj_angles.specs.Projection.{bins, offset, row_start};

mod layout;

pub use layout::Layout;

/// How many bins the projection at the angle `p` has.
pub fn bins(p: i32, rows: usize, cols: usize) -> usize
    requires angle { unsigned_abs p ≤ 16 }
    requires some_row { 1 ≤ rows }
    requires few_rows { rows ≤ 16 }
    requires few_columns { cols ≤ 2048 }
    ensures value { result ≡ bins p rows cols }
    ensures few { result ≤ cols + 16 * (rows - 1) }
{
    cols + p.unsigned_abs() as usize * (rows - 1)
}

/// How far the bins at the angle `p` are moved, so that the first is number 0.
pub fn offset(p: i32, rows: usize) -> usize
    requires angle { unsigned_abs p ≤ 16 }
    requires some_row { 1 ≤ rows }
    requires few_rows { rows ≤ 16 }
    ensures { result ≡ offset p rows }
{
    let size = p.unsigned_abs() as usize;
    if p < 0 { size * (rows - 1) } else { 0 }
}

/// The bin of column 0 of the row `l`. The other columns follow it one by one.
pub fn row_start(p: i32, rows: usize, l: usize) -> usize
    requires angle { unsigned_abs p ≤ 16 }
    requires few_rows { rows ≤ 16 }
    requires row { l < rows }
    ensures value { result ≡ row_start p rows l }
    ensures law { pos result ≡ (p *ℤ pos l) +ℤ pos (offset p rows) }
    ensures within { (cols : ℕ) → result + cols ≤ bins p rows cols }
{
    let size = p.unsigned_abs() as usize;
    if p >= 0 {
        size * l
    } else {
        size * (rows - 1 - l)
    }
}
