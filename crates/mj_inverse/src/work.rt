//! The projections by which a block is looked for.

ghost use Rattle.std.specs.Prelude.{◌≡◌, ◌≢◌, ◌≤◌, ◌<◌, ◌+◌, ◌↔◌, ◌*◌, length, unsigned_abs, All, IfOk, IsOk, OnOk, OnErr, vec_len};
ghost use Rattle.rz_words.specs.Grid.{IsShape, Grid, grid_of};
ghost use Rattle.mj_angles.specs.Projection.{bins as bin_count};
ghost use Rattle.mj_inverse.specs.Fits.{IsFound, empty_search, with_pair};

use crate::series::Series;
use crate::store::{blanks, put_at, solve_all, wipe_all};
use rz_words::Block;
use std::alloc::{AllocError, Global};
use std::marker::Model;

/// Room for as many projections as a block has rows, and for finding the block.
///
/// Contracts see the size of the block and the list of the pairs of an angle and bins, in the order in
/// which they were added.
#[derive(Drop)]
pub struct Work {
    rows: usize,
    cols: usize,
    count: usize,
    all: Vec<Series>,
}

impl Model for Work {
    ghost use Rattle.mj_inverse.specs.Fits.{Search};
    ghost use Rattle.mj_inverse.specs.Store.{IsStore, search_in};

    ghost Value = { Search };

    ghost view = { λ w. search_in 1 w.rows w.cols w.count w.all.items };

    ghost invariant = { λ w. IsStore 1 w.rows w.cols w.count w.all.items };
}

/// No block has the projections.
#[derive(Clone, Copy, Debug, PartialEq, Eq)]
pub struct Inconsistent;

impl Work {
    /// Room for the projections of a block of this size, at angles from -16 to 16.
    pub fn new(alloc: Global, rows: usize, cols: usize) -> Result<Work, AllocError>
        requires { IsShape rows cols }
        ensures { IfOk result (λ w. w ≡ empty_search rows cols) }
    {
        let all = blanks(alloc, rows, cols, 1)?;
        Ok(Work {
            rows,
            cols,
            count: 0,
            all,
        })
    }

    /// Forgets all projections.
    pub fn clear(&mut self)
        ensures { self.new ≡ empty_search self.old.rows self.old.cols }
    {
        let rows = self.rows;
        let cols = self.cols;
        let count = self.count;
        wipe_all(&mut self.all, count, 1, rows, cols);
        self.count = 0;
    }

    /// Adds the projection at the angle `p`, at which none was added yet. The order of the angles is free.
    pub fn add(&mut self, p: i32, bins: &[u64])
        requires room { length self.old.pairs < self.old.rows }
        requires other_angle { All (λ pair. pair.0 ≢ p) self.old.pairs }
        requires small { unsigned_abs p ≤ 16 }
        requires size { length bins.now ≡ bin_count p self.old.rows self.old.cols }
        ensures { self.new ≡ with_pair self.old p bins.now }
    {
        let rows = self.rows;
        let cols = self.cols;
        let count = self.count;
        put_at(&mut self.all, count, p, rows, cols, 1, bins);
        self.count = count + 1;
    }

    /// Writes the one block that has the projections, which are as many as rows, and forgets them all.
    ///
    /// # Errors
    ///
    /// `Inconsistent` where no block has them. Then `out` holds any words.
    pub fn solve(&mut self, out: &mut Block) -> Result<(), Inconsistent>
        requires full { length self.old.pairs ≡ self.old.rows }
        requires rows { out.old.rows ≡ self.old.rows }
        requires cols { out.old.cols ≡ self.old.cols }
        ensures exact { IsOk result ↔ ((g : Grid) × IsFound self.old g) }
        ensures found { OnOk result (IsFound self.old out.new) }
        ensures only { OnOk result ((g : Grid) → IsFound self.old g → g ≡ out.new) }
        ensures rows { out.new.rows ≡ out.old.rows }
        ensures cols { out.new.cols ≡ out.old.cols }
        ensures clear { self.new ≡ empty_search self.old.rows self.old.cols }
    {
        self.solve_words(out.words_mut())
    }

    /// The same into words, row by row, which stay as they are where no block has the projections.
    ///
    /// # Errors
    ///
    /// `Inconsistent` where no block has them.
    pub fn solve_words(&mut self, out: &mut [u64]) -> Result<(), Inconsistent>
        requires full { length self.old.pairs ≡ self.old.rows }
        requires room { length out.old ≡ self.old.rows * self.old.cols }
        ensures exact { IsOk result ↔ ((g : Grid) × IsFound self.old g) }
        ensures found { OnOk result (IsFound self.old (grid_of self.old.rows self.old.cols out.new)) }
        ensures only { OnOk result ((g : Grid) → IsFound self.old g → g ≡ grid_of self.old.rows self.old.cols out.new) }
        ensures unchanged { OnErr result (out.new ≡ out.old) }
        ensures clear { self.new ≡ empty_search self.old.rows self.old.cols }
    {
        let rows = self.rows;
        let cols = self.cols;
        let mut bad = [0u64; 1];
        let solved = solve_all(&mut self.all, rows, cols, 1, out, &mut bad);
        self.count = 0;
        if !solved {
            return Err(Inconsistent);
        }
        Ok(())
    }
}
