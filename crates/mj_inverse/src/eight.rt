//! The projections by which eight blocks are looked for, side by side.

ghost use Rattle.std.specs.Prelude.{◌≡◌, ◌≢◌, ◌≤◌, ◌<◌, ◌+◌, ◌*◌, ◌/◌, ◌%◌, ◌^◌, ◌↔◌, [], ℕ, not, eqb, map, slice_index, length, unsigned_abs, All, IfOk, vec_len};
ghost use Rattle.std.specs.Simd.Lanes.{mask_l};
ghost use Rattle.rz_words.specs.Grid.{IsShape, Grid};
ghost use Rattle.mj_angles.specs.Projection.{bins as bin_count};
ghost use Rattle.mj_inverse.specs.Fits.{AnglesDiffer, IsFound, empty_search, search_from, total_bins, with_pair};
ghost use Rattle.mj_inverse.specs.Store.{lane_search, lane_grid};

use crate::finding::{find_beside, find_from_beside};
use crate::lines::Frame;
use crate::placed::{Placed, add_placed, add_words};
use mj_inverse_sums::zeros;
use std::alloc::{AllocError, Global};
use std::marker::Model;

/// Room for as many projections as a block has rows, each of eight blocks, and for finding the blocks.
///
/// Word number `j` of block `i` stands in place `8 * j + i`. Contracts see the size of the blocks and the
/// list of the pairs of an angle and the bins of all eight, in the order in which they were added.
#[derive(Drop)]
pub struct WorkEight {
    rows: usize,
    cols: usize,
    used: usize,
    all: Vec<Placed>,
    words: Vec<u64>,
    grid: Vec<u64>,
}

impl Model for WorkEight {
    ghost use Rattle.std.specs.Prelude.{◌≡◌, ◌≤◌, ◌+◌, ◌*◌, vec_len, vec_capacity};
    ghost use Rattle.mj_inverse.specs.Fits.{Search};
    ghost use Rattle.mj_inverse.specs.Padded.{IsKept, IsPadded, search_over, width_of};

    ghost Value = { Search };

    ghost view = { λ w. search_over w.rows w.cols w.words.items w.all.items };

    ghost invariant = { λ w. IsKept w.rows w.cols w.used w.words.items w.all.items
        × (vec_len w.grid ≡ 8 * (w.rows * width_of w.cols (16 * w.rows))) × IsPadded w.rows w.cols (16 * w.rows) w.grid.items
        × (w.rows ≤ vec_capacity w.all) × (8 * (w.rows * (w.cols + 16 * w.rows)) ≤ vec_capacity w.words) };
}

impl WorkEight {
    /// Room for the projections of eight blocks of this size, at angles from -16 to 16.
    pub fn new(alloc: Global, rows: usize, cols: usize) -> Result<WorkEight, AllocError>
        requires { IsShape rows cols }
        ensures { IfOk result (λ w. w ≡ empty_search rows cols) }
    {
        let all = Vec::with_capacity(alloc, rows)?;
        let words = Vec::with_capacity(alloc, 8 * (rows * (cols + 16 * rows)))?;
        let grid = zeros(alloc, 8 * (rows * (cols + 32 * rows)))?;
        Ok(WorkEight {
            rows,
            cols,
            used: 0,
            all,
            words,
            grid,
        })
    }

    /// Forgets all projections.
    pub fn clear(&mut self)
        ensures { self.new ≡ empty_search self.old.rows self.old.cols }
    {
        self.all.clear();
        self.words.clear();
        self.used = 0;
    }

    /// Adds the projections at the angle `p`, at which none were added yet. The order of the angles is free.
    pub fn add(&mut self, p: i32, bins: &[u64])
        requires room { length self.old.pairs < self.old.rows }
        requires other_angle { All (λ pair. pair.0 ≢ p) self.old.pairs }
        requires small { unsigned_abs p ≤ 16 }
        requires size { length bins.now ≡ 8 * bin_count p self.old.rows self.old.cols }
        ensures { self.new ≡ with_pair self.old p bins.now }
    {
        let used = self.used;
        add_placed(&mut self.all, p, used);
        add_words(&mut self.words, bins);
        self.used = used + mj_angles::bins(p, self.rows, self.cols);
    }

    /// Writes the blocks that have the projections, which are as many as rows, and forgets them all.
    /// Bit `j` of the answer is 1 where no block has the projections of block `j`: its words are any words then.
    pub fn solve(&mut self, out: &mut [u64]) -> u8
        requires full { length self.old.pairs ≡ self.old.rows }
        requires room { length out.old ≡ 8 * (self.old.rows * self.old.cols) }
        ensures exact { (j : ℕ) → j < 8 → (result / 2 ^ j % 2 ≡ 0 ↔ ((g : Grid) × IsFound (lane_search 8 j self.old) g)) }
        ensures found { (j : ℕ) → j < 8 → result / 2 ^ j % 2 ≡ 0 → IsFound (lane_search 8 j self.old) (lane_grid 8 j self.old.rows self.old.cols out.new) }
        ensures only { (j : ℕ) (g : Grid) → j < 8 → IsFound (lane_search 8 j self.old) g → g ≡ lane_grid 8 j self.old.rows self.old.cols out.new }
        ensures clear { self.new ≡ empty_search self.old.rows self.old.cols }
    {
        let frame = Frame {
            rows: self.rows,
            cols: self.cols,
            reach: 16 * self.rows,
        };
        let answer = find_beside(&mut self.all, &self.words, frame, &mut self.grid, out);
        self.all.clear();
        self.words.clear();
        self.used = 0;
        answer
    }

    /// The same of the projections at these angles, whose bins stand one projection after the other. None were
    /// added before, and none are there after.
    pub fn solve_from(&mut self, angles: &[i32], bins: &[u64], out: &mut [u64]) -> u8
        requires empty { self.old.pairs ≡ [] }
        requires full { length angles.now ≡ self.old.rows }
        requires small { All (λ p. unsigned_abs p ≤ 16) angles.now }
        requires differ { AnglesDiffer angles.now }
        requires size { length bins.now ≡ 8 * total_bins self.old.rows self.old.cols angles.now }
        requires room { length out.old ≡ 8 * (self.old.rows * self.old.cols) }
        ensures exact { (j : ℕ) → j < 8 → (result / 2 ^ j % 2 ≡ 0 ↔ ((g : Grid) × IsFound (lane_search 8 j (search_from self.old.rows self.old.cols angles.now bins.now)) g)) }
        ensures found { (j : ℕ) → j < 8 → result / 2 ^ j % 2 ≡ 0 →
            IsFound (lane_search 8 j (search_from self.old.rows self.old.cols angles.now bins.now)) (lane_grid 8 j self.old.rows self.old.cols out.new) }
        ensures only { (j : ℕ) (g : Grid) → j < 8 → IsFound (lane_search 8 j (search_from self.old.rows self.old.cols angles.now bins.now)) g →
            g ≡ lane_grid 8 j self.old.rows self.old.cols out.new }
        ensures same { self.new ≡ empty_search self.old.rows self.old.cols }
    {
        let frame = Frame {
            rows: self.rows,
            cols: self.cols,
            reach: 16 * self.rows,
        };
        find_from_beside(angles, bins, frame, &mut self.grid, out)
    }
}
