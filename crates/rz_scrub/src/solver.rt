//! The block that chosen records give, and which records are not those of a block.

ghost use Rattle.std.specs.Prelude.{◌≡◌, ◌<◌, ◌≤◌, not, ℕ, List, [], IfOk, IsTrue, length, vec_len, nat_eq, unsigned_abs};
ghost use Rattle.std.specs.Cmp.Lexicographic.{pointwise};
ghost use Rattle.mj_angles.specs.Layout.{safe_of, inverse_of, cols_of};
ghost use Rattle.mj_angles.specs.Projection.{bins as bin_count};
ghost use Rattle.mj_forward.specs.Forward.{projection_of};
ghost use Rattle.rz_words.specs.Grid.{Grid};
ghost use Rattle.rz_scrub.specs.Misfits.{IsBlock, is_misfit, misfits};
ghost use Rattle.rz_scrub.specs.Verdicts.{NamesMisfits};
ghost use Rattle.rz_scrub.specs.Choice.{IsChoice, FitsAll, search_for};

use crate::slots::Slots;
use mj_angles::Layout;
use mj_forward::project;
use mj_inverse::Work;
use rz_words::Block;
use std::alloc::{AllocError, Global};
use std::marker::Model;

/// Room to find a block, and to project it again.
///
/// Contracts see the layout that there is room for.
#[derive(Drop)]
pub struct Solver {
    layout: Layout,
    work: Work,
    room: Vec<u64>,
}

impl Model for Solver {
    ghost use Rattle.std.specs.Prelude.{◌≡◌, vec_len};
    ghost use Rattle.mj_angles.specs.declared.layout.Layout.{Layout};
    ghost use Rattle.mj_angles.specs.Layout.{inverse_of, cols_of, max_bins_of};
    ghost use Rattle.mj_inverse.specs.Fits.{empty_search};

    ghost Value = { Layout };

    ghost view = { λ s. s.layout };

    ghost invariant = { λ s. (s.work ≡ empty_search (inverse_of s.layout) (cols_of s.layout)) × (vec_len s.room ≡ max_bins_of s.layout) };
}

impl Solver {
    pub fn new(alloc: Global, layout: Layout) -> Result<Solver, AllocError>
        ensures { IfOk result (λ s. s ≡ layout) }
    {
        let work = Work::new(alloc, layout.inverse(), layout.cols())?;
        let room = vec![in alloc; 0u64; layout.max_bins()]?;
        Ok(Solver { layout, work, room })
    }

    /// Whether some block has the bins at the chosen positions. `out` is that block then.
    pub fn solve(&mut self, records: &Slots, chosen: &[u8], out: &mut Block) -> bool
        requires layout { self.old ≡ records.now.layout }
        requires full { length chosen.now ≡ inverse_of self.old }
        requires chosen { IsChoice records.now (safe_of self.old) chosen.now }
        requires rows { out.old.rows ≡ inverse_of self.old }
        requires cols { out.old.cols ≡ cols_of self.old }
        ensures block { IsTrue result → IsBlock self.old out.new }
        ensures only { (g : Grid) → IsBlock self.old g → FitsAll records.now g chosen.now → IsTrue result × (g ≡ out.new) }
        ensures layout { self.new ≡ self.old }
        ensures rows { out.new.rows ≡ out.old.rows }
        ensures cols { out.new.cols ≡ out.old.cols }
    {
        add_all(&mut self.work, records, chosen);
        self.work.solve(out).is_ok()
    }

    /// Whether the bins at a position are not the block's projection.
    pub fn is_misfit(&mut self, records: &Slots, block: &Block, position: u8) -> bool
        requires layout { self.old ≡ records.now.layout }
        requires place { position < safe_of self.old }
        requires block { IsBlock self.old block.now }
        ensures value { result ≡ is_misfit records.now block.now position }
        ensures layout { self.new ≡ self.old }
    {
        if !records.has_bins(position) {
            return false;
        }
        let angle = self.layout.angle(position);
        is_other(&mut self.room, block, angle, records.bins(position))
    }

    /// How many misfits a block has.
    pub fn misfits(&mut self, records: &Slots, block: &Block) -> usize
        requires layout { self.old ≡ records.now.layout }
        requires block { IsBlock self.old block.now }
        ensures value { result ≡ length (misfits records.now block.now) }
        ensures layout { self.new ≡ self.old }
    {
        let mut count = 0;
        for position in 0..records.layout().safe() as u8 {
            if self.is_misfit(records, block, position) {
                count += 1;
            }
        }
        count
    }

    /// The mask that names the misfits of a block.
    pub fn mask(&mut self, records: &Slots, block: &Block) -> u16
        requires layout { self.old ≡ records.now.layout }
        requires block { IsBlock self.old block.now }
        ensures names { NamesMisfits records.now block.now result }
        ensures layout { self.new ≡ self.old }
    {
        let mut mask = 0;
        for position in 0..records.layout().safe() as u8 {
            if self.is_misfit(records, block, position) {
                mask |= 1 << position;
            }
        }
        mask
    }
}

/// Adds the bins at the chosen positions to a search that has none.
fn add_all(work: &mut Work, records: &Slots, chosen: &[u8])
    requires empty { work.old ≡ search_for records.now [] }
    requires full { length chosen.now ≤ inverse_of records.now.layout }
    requires chosen { IsChoice records.now (safe_of records.now.layout) chosen.now }
    ensures { work.new ≡ search_for records.now chosen.now }
{
    let layout = records.layout();
    for position in chosen {
        work.add(layout.angle(*position), records.bins(*position));
    }
}

/// Whether these are other bins than the block's projection at the angle `p`.
fn is_other(room: &mut Vec<u64>, block: &Block, p: i32, bins: &[u64]) -> bool
    requires angle { unsigned_abs p ≤ 16 }
    requires size { length bins.now ≡ bin_count p block.now.rows block.now.cols }
    requires room { length bins.now ≤ vec_len room.old }
    ensures value { result ≡ not (pointwise nat_eq bins.now (projection_of block.now p)) }
    ensures len { vec_len room.new ≡ vec_len room.old }
{
    differs(&mut room[..bins.len()], block, p, bins)
}

/// The same with just as much room as the projection needs.
fn differs(room: &mut [u64], block: &Block, p: i32, bins: &[u64]) -> bool
    requires angle { unsigned_abs p ≤ 16 }
    requires size { length bins.now ≡ bin_count p block.now.rows block.now.cols }
    requires room { length bins.now ≡ length room.old }
    ensures { result ≡ not (pointwise nat_eq bins.now (projection_of block.now p)) }
{
    project(block, p, room);
    let projection: &[u64] = room;
    bins != projection
}
