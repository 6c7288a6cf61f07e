//! Where the words of four blocks stand.

ghost use Rattle.std.specs.Prelude.{◌≡◌, ◌≤◌, ◌<◌, ◌+◌, ◌*◌, ◌/◌, ℕ, length, slice_index};
ghost use Rattle.rz_words.specs.Grid.{IsShape};
ghost use Rattle.mj_inverse_four.specs.Rows.{IsPadded, room_of, width_of};

/// Where the words of four blocks stand: in rows, with zeros before and behind each row.
#[derive(Clone, Copy)]
pub struct Frame {
    pub rows: usize,
    /// The columns, a multiple of eight.
    pub cols: usize,
    /// So many places before each row, and behind the last one, are zero. A line that meets a row meets all
    /// others within them.
    pub reach: usize,
}

impl Frame {
    /// The places of a row, with those before it.
    #[inline(always)]
    pub fn width(self) -> usize
        requires few_columns { self.cols ≤ 2048 }
        requires few { self.reach ≤ 256 }
        ensures { result ≡ width_of self.cols self.reach }
    {
        self.cols + self.reach
    }

    /// The words that four blocks take.
    pub fn room(self) -> usize
        requires shape { IsShape self.rows self.cols }
        requires few { self.reach ≤ 256 }
        ensures { result ≡ room_of self.rows self.cols self.reach }
    {
        4 * (self.rows * self.width() + self.reach)
    }
}

/// Makes the places between the rows zero.
pub fn clear_between(grid: &mut [u64], frame: Frame)
    requires shape { IsShape frame.rows frame.cols }
    requires few { frame.reach ≤ 256 }
    requires room { length grid.old ≡ room_of frame.rows frame.cols frame.reach }
    ensures { IsPadded (frame.rows + 1) frame.cols frame.reach grid.new }
{
    for l in 0..frame.rows + 1 {
        clear_places(grid, l * frame.width(), frame.reach);
    }
}

/// Makes `n` places zero.
fn clear_places(grid: &mut [u64], from: usize, n: usize)
    requires { 4 * (from + n) ≤ length grid.old }
    ensures zero { (c i : ℕ) → c < n → i < 4 → slice_index grid.new (4 * (from + c) + i) ≡ 0 }
    ensures below { (k : ℕ) → k < 4 * from → slice_index grid.new k ≡ slice_index grid.old k }
{
    grid[4 * from..4 * (from + n)].fill(0);
}
