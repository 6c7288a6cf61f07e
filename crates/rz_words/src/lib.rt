//! A block of 64-bit words in rows.
//!
//! Contracts see a block as its number of rows, its number of columns and its words row by row. They
//! give each call's exact result, and say how the words stand in bytes, the lowest byte of each first.
//! They say nothing of what the words mean.
#![tactic(auto)]

ghost use Rattle.std.specs.Prelude.{◌≡◌, ◌≤◌, ◌<◌, ◌*◌, ◌+◌, ◌^◌, ℕ, List, All, length, take, IfOk, vec_len};
ghost use Rattle.std.specs.Borrow.{sem};
ghost use Rattle.rz_words.specs.Grid.{IsShape, IsGrid, word, with_word, zero_grid, zero_words, words_from, bytes_from, grid_of, grid_from_bytes};

mod bytes;

use bytes::{load_words, store_words};
use std::alloc::{AllocError, Global};
use std::marker::Model;

/// A block of `rows` rows of `cols` words: 1 to 16 rows, and 1 to 2048 columns.
#[derive(Debug, Drop)]
pub struct Block {
    rows: usize,
    cols: usize,
    words: Vec<u64>,
}

impl Model for Block {
    ghost use Rattle.rz_words.specs.Grid.{Grid, IsGrid, grid_of};

    ghost Value = { Grid };

    ghost view = { λ b. grid_of b.rows b.cols b.words.items };

    ghost invariant = { λ b. IsGrid (grid_of b.rows b.cols b.words.items) };
}

impl Block {
    ghost use Rattle.rz_words.specs.Lends.{lends_words};

    /// A block of zeros.
    pub fn zero(alloc: Global, rows: usize, cols: usize) -> Result<Block, AllocError>
        requires { IsShape rows cols }
        ensures { IfOk result (λ b. b ≡ zero_grid rows cols) }
    {
        let words = zeros(alloc, rows * cols)?;
        Ok(Block { rows, cols, words })
    }

    /// The block of these bytes, which fit it, and zeros after them.
    pub fn from_bytes(
        alloc: Global,
        rows: usize,
        cols: usize,
        bytes: &[u8],
    ) -> Result<Block, AllocError>
        requires shape { IsShape rows cols }
        requires fits { length bytes.now ≤ 8 * (rows * cols) }
        ensures { IfOk result (λ b. b ≡ grid_from_bytes rows cols bytes.now) }
    {
        let mut block = Block::zero(alloc, rows, cols)?;
        block.load(bytes);
        Ok(block)
    }

    /// The block of these words, row by row.
    pub fn from_words(rows: usize, cols: usize, words: Vec<u64>) -> Block
        requires shape { IsShape rows cols }
        requires full { vec_len words ≡ rows * cols }
        ensures { result ≡ grid_of rows cols words.items }
    {
        Block { rows, cols, words }
    }

    /// Replaces all words by those of these bytes, which fit the block, and by zeros after them.
    pub fn load(&mut self, bytes: &[u8])
        requires { length bytes.now ≤ 8 * (self.old.rows * self.old.cols) }
        ensures { self.new ≡ grid_from_bytes self.old.rows self.old.cols bytes.now }
    {
        load_words(&mut self.words, bytes);
    }

    /// Writes the first bytes of the block, as many as `out` has.
    pub fn to_bytes_into(&self, out: &mut [u8])
        requires { length out.old ≤ 8 * (self.now.rows * self.now.cols) }
        ensures bytes { out.new ≡ take (length out.old) (bytes_from self.now.words) }

        // A text that was loaded comes back.
        ensures loaded { (text : List ℕ) → All (λ b. b < 256) text → length text ≡ length out.old →
            self.now ≡ grid_from_bytes self.now.rows self.now.cols text → out.new ≡ text }
    {
        store_words(&self.words, out);
    }

    /// How many rows there are.
    pub fn rows(&self) -> usize
        ensures value { result ≡ self.now.rows }
        ensures grid { IsGrid self.now }
    {
        self.rows
    }

    /// How many words a row has.
    pub fn cols(&self) -> usize
        ensures value { result ≡ self.now.cols }
        ensures grid { IsGrid self.now }
    {
        self.cols
    }

    /// The words row by row.
    pub fn words(&self) -> &[u64]
        ensures value { result.now ≡ self.now.words }
        ensures grid { IsGrid self.now }
    {
        &self.words
    }

    /// The words row by row, for writing.
    pub fn words_mut(&mut self) -> &mut [u64]
        ensures* writes_back { sem 𝓛 (lends_words self.entry result) }
        ensures value { result.now ≡ self.old.words }
        ensures grid { IsGrid self.old }
    {
        &mut self.words
    }

    /// The word in column `k` of row `l`.
    pub fn get(&self, k: usize, l: usize) -> u64
        requires column { k < self.now.cols }
        requires row { l < self.now.rows }
        ensures { result ≡ word self.now l k }
    {
        self.words[l * self.cols + k]
    }

    /// Replaces the word in column `k` of row `l`.
    pub fn set(&mut self, k: usize, l: usize, w: u64)
        requires column { k < self.old.cols }
        requires row { l < self.old.rows }
        ensures { self.new ≡ with_word self.old l k w }
    {
        self.words[l * self.cols + k] = w;
    }
}

/// `count` zeros.
#[tactic(auto, unfolding(crate::specs::Grid::zero_words))]
fn zeros(alloc: Global, count: usize) -> Result<Vec<u64>, AllocError>
    requires { count ≤ 2 ^ 15 }
    ensures items { IfOk result (λ v. v.items ≡ zero_words count) }
    ensures len { IfOk result (λ v. vec_len v ≡ count) }
{
    vec![in alloc; 0u64; count]
}
