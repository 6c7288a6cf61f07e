//! The verdict on a block's records.

ghost use Rattle.std.specs.Prelude.{◌≡◌, ◌≢◌, ◌<◌, ◌≤◌, ◌↔◌, ◌-◌, ◌/◌, ℕ, None, IfOk, IsTrue, length};
ghost use Rattle.mj_angles.specs.Layout.{safe_of, inverse_of, cols_of, bins_at_of};
ghost use Rattle.rz_words.specs.Grid.{Grid};
ghost use Rattle.rz_scrub.specs.Records.{no_records, with_bins, bins_at, has_bins, added};
ghost use Rattle.rz_scrub.specs.Misfits.{IsBlock, IsWithinReach, SomeFits, SomeIsWithinReach};
ghost use Rattle.rz_scrub.specs.Verdicts.{IsAltered, NamesMisfits, SaysOf};

use crate::law::one_within_reach;
use crate::search::is_found;
use crate::slots::Slots;
use crate::solver::Solver;
use crate::verdict::Verdict;
use mj_angles::Layout;
use rz_words::Block;
use std::alloc::{AllocError, Global};
use std::marker::Model;

/// Records of a block, and room to find out which of them were altered.
///
/// Contracts see the layout, and for each position the bins that were added there.
#[derive(Drop)]
pub struct Scrub {
    records: Slots,
    solver: Solver,
}

impl Model for Scrub {
    ghost use Rattle.std.specs.Prelude.{◌≡◌};
    ghost use Rattle.rz_scrub.specs.Records.{Records};

    ghost Value = { Records };

    ghost view = { λ s. s.records };

    ghost invariant = { λ s. s.solver ≡ s.records.layout };
}

impl Scrub {
    /// Room for the records of a block, and none yet.
    pub fn start(alloc: Global, layout: Layout) -> Result<Scrub, AllocError>
        ensures { IfOk result (λ s. s ≡ no_records layout) }
    {
        let records = Slots::new(alloc, layout)?;
        let solver = Solver::new(alloc, layout)?;
        Ok(Scrub { records, solver })
    }

    /// Forgets all records.
    pub fn clear(&mut self)
        ensures { self.new ≡ no_records self.old.layout }
    {
        self.records.clear();
    }

    /// Adds the record at a position that has none yet.
    pub fn add(&mut self, position: u8, bins: &[u64])
        requires place { position < safe_of self.old.layout }
        requires first { bins_at self.old position ≡ None }
        requires size { length bins.now ≡ bins_at_of self.old.layout position }
        ensures { self.new ≡ with_bins self.old position bins.now }
    {
        self.records.add(position, bins);
    }

    /// Whether a record was added at a position.
    pub fn has(&self, position: u8) -> bool
        requires { position < safe_of self.now.layout }
        ensures { result ≡ has_bins self.now position }
    {
        self.records.has_bins(position)
    }

    /// How many records were added.
    pub fn added(&self) -> usize
        ensures value { result ≡ added self.now }
        ensures few { result ≤ safe_of self.now.layout }
    {
        self.records.added()
    }

    /// Finds out which records were altered. The records stay. `out` is the block that they were made of,
    /// unless the verdict is `Unsure`: its words are any words then.
    pub fn judge(&mut self, out: &mut Block) -> Verdict
        requires enough { inverse_of self.old.layout ≤ added self.old }
        requires rows { out.old.rows ≡ inverse_of self.old.layout }
        requires cols { out.old.cols ≡ cols_of self.old.layout }
        ensures clean { (result ≡ Verdict.Clean) ↔ SomeFits self.old }
        ensures altered { IsAltered result ↔ ((¬ SomeFits self.old) × SomeIsWithinReach self.old) }
        ensures unsure { (result ≡ Verdict.Unsure) ↔ (¬ SomeIsWithinReach self.old) }
        ensures mask { (mask : ℕ) → result ≡ Verdict.Altered mask → NamesMisfits self.old out.new mask }
        ensures found { result ≢ Verdict.Unsure → IsWithinReach self.old out.new }
        ensures only { (g : Grid) → IsWithinReach self.old g → g ≡ out.new }
        ensures kept { self.new ≡ self.old }
        ensures rows { out.new.rows ≡ out.old.rows }
        ensures cols { out.new.cols ≡ out.old.cols }
    {
        one_within_reach();
        let mut choice = [0u8; 8];
        let count = self.records.layout().inverse();
        if !is_found(
            &self.records,
            &mut self.solver,
            &mut choice[..count],
            0,
            0,
            out,
        ) {
            return Verdict::Unsure;
        }
        verdict_by(&self.records, &mut self.solver, out)
    }
}

/// The verdict that a block gives rise to.
fn verdict_by(records: &Slots, solver: &mut Solver, block: &Block) -> Verdict
    requires layout { solver.old ≡ records.now.layout }
    requires block { IsBlock solver.old block.now }
    ensures says { SaysOf records.now block.now result }
    ensures layout { solver.new ≡ solver.old }
{
    if solver.misfits(records, block) == 0 {
        return Verdict::Clean;
    }
    let mask = solver.mask(records, block);
    Verdict::Altered { mask }
}
