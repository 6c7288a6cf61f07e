//! How many projections determine a block: the criterion of Katz.
//!
//! `two_blocks_equal` and `projections_determine` are a law: as many projections as rows, at distinct
//! angles, belong to one block.
//! `phantom` shows that fewer do not: it makes a block that is not zero and whose bins at these angles
//! are all zero, wherever it fits the columns. Its contract gives every word of that block.
#![tactic(auto)]

ghost use Rattle.std.specs.Prelude.{◌≡◌, ◌≢◌, ◌<◌, ◌≤◌, ◌+◌, ◌*◌, ℕ, ℤ, List, length, unsigned_abs, IfOk, All};
ghost use Rattle.rz_words.specs.Grid.{Grid, IsGrid, IsShape, zero_grid};
ghost use Rattle.mj_angles.specs.Projection.{word_at};
ghost use Rattle.mj_katz.specs.Factor.{moved, factor};
ghost use Rattle.mj_katz.specs.Phantom.{total_size, IsProduct, IsUnseen};
ghost use Rattle.mj_katz.specs.Unique.{AreDistinct, HaveSameProjections};

use rz_words::Block;
use std::alloc::{AllocError, Global};
use std::mem;

/// The law that two blocks of one shape are equal where as many distinct angles as they have rows give
/// equal projections of both.
pub fn two_blocks_equal(a: &Block, b: &Block, angles: &[i32])
    ensures { a.now.rows ≡ b.now.rows → a.now.cols ≡ b.now.cols → length angles.now ≡ a.now.rows →
        AreDistinct angles.now → HaveSameProjections angles.now a.now b.now → a.now ≡ b.now }
{
    let _ = (a.rows(), b.rows(), angles.len());
}

/// The same law for all blocks and all angles, for those who have no two blocks at hand.
pub fn projections_determine()
    ensures { (a b : Grid) (angles : List ℤ) → IsGrid a → IsGrid b → a.rows ≡ b.rows → a.cols ≡ b.cols →
        length angles ≡ a.rows → AreDistinct angles → HaveSameProjections angles a b → a ≡ b }
{}

/// The product of the factors `x^p + y`, for an angle `p` from 0 on, and `1 + x^|p| y`, for one below 0,
/// where `x` is a step to the next column and `y` a step to the next row. No angle of `angles` sees it.
pub fn phantom(alloc: Global, angles: &[i32], rows: usize, cols: usize) -> Result<Block, AllocError>
    requires shape { IsShape rows cols }
    requires few { length angles.now < rows }
    requires narrow { total_size angles.now + 1 ≤ cols }
    requires small { All (λ p. unsigned_abs p ≤ 16) angles.now }
    ensures shape { IfOk result (λ g. (g.rows ≡ rows) × (g.cols ≡ cols)) }
    ensures product { IfOk result (IsProduct angles.now) }
    ensures unseen { IfOk result (IsUnseen angles.now) }
    ensures some_word { IfOk result (λ g. g ≢ zero_grid rows cols) }
{
    let mut words = vec![in alloc; 0u64; rows * cols]?;
    let mut next = vec![in alloc; 0u64; rows * cols]?;
    words[0] = 1;
    for i in 0..angles.len() {
        multiply(&words, &mut next, rows, cols, angles[i]);
        mem::swap(&mut words, &mut next);
    }
    Ok(Block::from_words(rows, cols, words))
}

/// Writes the product of `words` and the factor of the angle `p`.
fn multiply(words: &[u64], out: &mut [u64], rows: usize, cols: usize, p: i32)
    requires shape { IsShape rows cols }
    requires full { length words.now ≡ rows * cols }
    requires room { length out.old ≡ rows * cols }
    requires small { unsigned_abs p ≤ 16 }
    ensures { (l k : ℕ) → l < rows → k < cols → word_at out.new cols l k ≡ factor p (word_at words.now cols) l k }
{
    for n in 0..rows * cols {
        out[n] = factor(words, rows, cols, n / cols, n % cols, p);
    }
}

/// The word of the product in column `k` of row `l`.
fn factor(words: &[u64], rows: usize, cols: usize, l: usize, k: usize, p: i32) -> u64
    requires full { length words.now ≡ rows * cols }
    requires row { l < rows }
    requires column { k < cols }
    requires small { unsigned_abs p ≤ 16 }
    ensures { result ≡ factor p (word_at words.now cols) l k }
{
    let size = p.unsigned_abs() as usize;
    if p < 0 {
        moved(words, rows, cols, l, k, 1, size) ^ moved(words, rows, cols, l, k, 0, 0)
    } else {
        moved(words, rows, cols, l, k, 1, 0) ^ moved(words, rows, cols, l, k, 0, size)
    }
}

/// The word that comes to column `k` of row `l` when all words move `down` rows and `right` columns.
fn moved(
    words: &[u64],
    rows: usize,
    cols: usize,
    l: usize,
    k: usize,
    down: usize,
    right: usize,
) -> u64
    requires full { length words.now ≡ rows * cols }
    requires row { l < rows }
    requires column { k < cols }
    ensures { result ≡ moved down right (word_at words.now cols) l k }
{
    if down <= l && right <= k {
        words[(l - down) * cols + (k - right)]
    } else {
        0
    }
}
