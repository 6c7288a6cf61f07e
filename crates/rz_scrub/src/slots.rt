//! The bins of a block's records, by position.

ghost use Rattle.std.specs.Prelude.{◌≡◌, ◌<◌, ◌≤◌, ◌-◌, ◌/◌, ℕ, List, Some, None, All, IfOk, IsTrue, length, vec_len};
ghost use Rattle.mj_angles.specs.Layout.{safe_of, inverse_of, bins_at_of};
ghost use Rattle.rz_scrub.specs.Records.{no_records, with_bins, bins_at, has_bins, added, IsRecords};
ghost use Rattle.rz_scrub.specs.Misfits.{reach};
ghost use Rattle.rz_scrub.specs.Inside.{bins_in, IsSlots};

use mj_angles::Layout;
use std::alloc::{AllocError, Global};
use std::marker::Model;

/// Room for the bins at a position.
#[derive(Drop)]
pub struct BinSlot {
    is_added: bool,
    bins: Vec<u64>,
}

/// Room for the bins at each position of a layout.
///
/// Contracts see the layout, and for each position the bins that were added there.
#[derive(Drop)]
pub struct Slots {
    layout: Layout,
    slots: Vec<BinSlot>,
}

impl Model for Slots {
    ghost use Rattle.rz_scrub.specs.Records.{Records};

    ghost Value = { Records };

    ghost use Rattle.rz_scrub.specs.Inside.{records_of, IsSlots};

    ghost view = { λ s. records_of s.layout s.slots.items };

    ghost invariant = { λ s. IsSlots s.layout s.slots.items };
}

impl Slots {
    /// No bins at any position.
    pub fn new(alloc: Global, layout: Layout) -> Result<Slots, AllocError>
        ensures { IfOk result (λ s. s ≡ no_records layout) }
    {
        let slots = empty_slots(alloc, layout)?;
        Ok(Slots { layout, slots })
    }

    /// Takes all bins away.
    pub fn clear(&mut self)
        ensures { self.new ≡ no_records self.old.layout }
    {
        empty(&mut self.slots);
    }

    /// Adds the bins at a position.
    pub fn add(&mut self, position: u8, bins: &[u64])
        requires place { position < safe_of self.old.layout }
        requires size { length bins.now ≡ bins_at_of self.old.layout position }
        ensures { self.new ≡ with_bins self.old position bins.now }
    {
        fill(&mut self.slots[position as usize], bins);
    }

    pub fn layout(&self) -> Layout
        ensures value { result ≡ self.now.layout }
        ensures records { IsRecords self.now }
    {
        let _ = &self.slots;
        self.layout
    }

    /// Whether bins were added at a position.
    pub fn has_bins(&self, position: u8) -> bool
        requires { position < safe_of self.now.layout }
        ensures { result ≡ has_bins self.now position }
    {
        self.slots[position as usize].is_added
    }

    /// The bins that were added at a position.
    pub fn bins(&self, position: u8) -> &[u64]
        requires { IsTrue (has_bins self.now position) }
        ensures value { bins_at self.now position ≡ Some result.now }
        ensures len { length result.now ≡ bins_at_of self.now.layout position }
        ensures place { position < safe_of self.now.layout }
    {
        &self.slots[position as usize].bins
    }

    /// At how many positions bins were added.
    pub fn added(&self) -> usize
        ensures value { result ≡ added self.now }
        ensures few { result ≤ safe_of self.now.layout }
    {
        let mut count = 0;
        for position in 0..self.layout().safe() as u8 {
            if self.has_bins(position) {
                count += 1;
            }
        }
        count
    }

    /// How many misfits the block that is looked for may have.
    pub fn reach(&self) -> usize
        ensures { result ≡ reach self.now }
    {
        self.added().saturating_sub(self.layout().inverse()) / 2
    }
}

/// A slot without bins for each position.
fn empty_slots(alloc: Global, layout: Layout) -> Result<Vec<BinSlot>, AllocError>
    ensures slots { IfOk result (λ v. IsSlots layout v.items) }
    ensures empty { IfOk result (λ v. All (λ slot. bins_in slot ≡ None) v.items) }
{
    let mut slots = Vec::with_capacity(alloc, layout.safe())?;
    for position in 0..layout.safe() as u8 {
        let bins = vec![in alloc; 0u64; layout.bins_at(position)]?;
        slots.push(BinSlot {
            is_added: false,
            bins,
        })?;
    }
    Ok(slots)
}

/// Takes the bins out of all slots.
fn empty(slots: &mut Vec<BinSlot>)
    ensures len { vec_len slots.new ≡ vec_len slots.old }
    ensures rooms { (layout : Layout) → IsSlots layout slots.old.items → IsSlots layout slots.new.items }
    ensures empty { All (λ slot. bins_in slot ≡ None) slots.new.items }
{
    for slot in slots.iter_mut() {
        slot.is_added = false;
    }
}

/// Puts bins into a slot with room for as many.
fn fill(slot: &mut BinSlot, bins: &[u64])
    requires { length bins.now ≡ vec_len slot.old.bins }
    ensures bins { bins_in slot.new ≡ Some bins.now }
    ensures room { vec_len slot.new.bins ≡ vec_len slot.old.bins }
{
    slot.bins.copy_from_slice(bins);
    slot.is_added = true;
}
