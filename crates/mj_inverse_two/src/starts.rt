//! Where the rows begin among the bins of a projection.

ghost use Rattle.std.specs.Prelude.{◌≡◌, ◌≤◌, ◌+◌, ◌⊎◌, unsigned_abs};
ghost use Rattle.mj_angles.specs.Projection.{row_start as start_of_row};

use mj_angles::row_start;

/// The bins of column 0 of both rows. One of them is bin 0.
#[derive(Clone, Copy)]
pub struct Starts {
    pub first: usize,
    pub second: usize,
}

/// Where the rows begin at an angle.
pub fn starts_at(p: i32) -> Starts
    requires { unsigned_abs p ≤ 16 }
    ensures first { result.first ≡ start_of_row p 2 0 }
    ensures second { result.second ≡ start_of_row p 2 1 }
    ensures one { (result.first ≡ 0) ⊎ (result.second ≡ 0) }
    ensures both { result.first + result.second ≡ unsigned_abs p }
{
    Starts {
        first: row_start(p, 2, 0),
        second: row_start(p, 2, 1),
    }
}
