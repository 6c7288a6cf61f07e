//! Keeping a record, a writer's or a rebuilder's.
ghost use Rattle.std.specs.Prelude.{◌≡◌, ◌≢◌, ◌<◌, Some, None, IsTrue, OnOk, OnErr, is_ok, length};
ghost use Rattle.rz_record.specs.Record.{IsValid, bins_of};
ghost use Rattle.rz_cells.specs.Open.{AreOpen};
ghost use Rattle.rz_versions.specs.Sides.{in_order, put_at, Differ};
ghost use Rattle.rz_versions.specs.Sides as sides;
ghost use Rattle.rz_node_model.specs.Answers.{IsNodeAnswer};
ghost use Rattle.rz_node_model.specs.Afterwards.{after_answer};
ghost use Rattle.rz_node_model.specs.Records.{record_of, held_of, stamp_of, with_held};
ghost use Rattle.rz_node_model.specs.Versions.{kept, refilled};
ghost use Rattle.rz_node.specs.CrashOutcomes.{CrashOutcomes};
ghost use Rattle.rz_node.specs.Kept.{IsTied, held_by, place_in, sides_in, records_in, version_of};
ghost use Rattle.rz_node.specs.Spends.{Spends, keep_used, refill_used};
ghost use Rattle.rz_node.specs.Stores.{stored_answer, stored_in, stored_used, after_stored, change_by, IsStored};
ghost use Rattle.rz_node.specs.DownDisk.{HoldsEitherHeld};

use crate::Node;
use crate::storing::{Rule, Stored};
use rz_cells::{Cells, DiskFault};
use rz_disk::Disk;
use rz_events::{Head, Held, KeepAnswer, Key, NodeAnswer, NodeAsk, Phase, RefillAnswer};
use rz_index::{Entry, Index};
use rz_versions::{Room, Version, Versions};

impl<D: Disk> Node<D> {
    /// Keeps a writer's record.
    pub fn keep(&mut self, head: &Head, bins: &[u64]) -> KeepAnswer
        requires valid { IsValid head.now }
        requires layout { head.now.layout ≡ self.old.geometry.layout }
        requires bins { length bins.now ≡ bins_of head.now }
        ensures answer { IsNodeAnswer self.old.geometry.cells self.old.state (NodeAsk.Keep head.now) (NodeAnswer.Keep result) }
        ensures after { self.new.state ≡ after_answer (NodeAsk.Keep head.now) (NodeAnswer.Keep result) self.old.state }

        // The disk is not used where nothing was to be kept.
        ensures same { keep_used result ≡ None → self.new ≡ self.old }
        ensures stands { keep_used result ≢ None → IsTrue D.tells → CrashOutcomes self.old.geometry self.old.state.fence (D.text self.old.disk) (D.text self.new.disk) (D.image self.new.disk) (keep_used result) head.now.key
            (held_of self.old.state.held head.now.key) (kept stamp_of head.now.base (record_of head.now) (held_of self.old.state.held head.now.key)) (Some record { head = head.now; bins = bins.now }) }
        ensures geometry { self.new.geometry ≡ self.old.geometry }
        ensures spends { Spends 4 (keep_used result) (D.meter self.old.disk) (D.meter self.new.disk) }
    {
        match self.phase() {
            Phase::Lost => return KeepAnswer::Lost,
            Phase::Down => return KeepAnswer::Down,
            Phase::Up => {}
        }
        let fence = self.fence();
        if head.stamp <= fence {
            return KeepAnswer::Fenced { fence };
        }
        self.store(Rule::Keep, head, bins).keep_answer()
    }

    /// Keeps a rebuilder's record, under the fence of the node's replacement.
    pub fn refill(&mut self, fence: u64, head: &Head, bins: &[u64]) -> RefillAnswer
        requires valid { IsValid head.now }
        requires layout { head.now.layout ≡ self.old.geometry.layout }
        requires bins { length bins.now ≡ bins_of head.now }
        ensures answer { IsNodeAnswer self.old.geometry.cells self.old.state (NodeAsk.Refill fence head.now) (NodeAnswer.Refill result) }
        ensures after { self.new.state ≡ after_answer (NodeAsk.Refill fence head.now) (NodeAnswer.Refill result) self.old.state }

        // The disk is not used where nothing was to be kept.
        ensures same { refill_used result ≡ None → self.new ≡ self.old }
        ensures stands { refill_used result ≢ None → IsTrue D.tells → CrashOutcomes self.old.geometry self.old.state.fence (D.text self.old.disk) (D.text self.new.disk) (D.image self.new.disk) (refill_used result) head.now.key
            (held_of self.old.state.held head.now.key) (refilled stamp_of (record_of head.now) (held_of self.old.state.held head.now.key)) (Some record { head = head.now; bins = bins.now }) }
        ensures geometry { self.new.geometry ≡ self.old.geometry }
        ensures spends { Spends 4 (refill_used result) (D.meter self.old.disk) (D.meter self.new.disk) }
    {
        match self.phase() {
            Phase::Lost => return RefillAnswer::Lost,
            Phase::Down => return RefillAnswer::Down,
            Phase::Up => {}
        }
        let own = self.fence();
        if fence != own {
            return RefillAnswer::OtherFence { fence: own };
        }
        self.store(Rule::Refill, head, bins).refill_answer()
    }

    /// Stores a record by a rule. Where the disk fails, the node is down and the change undecided.
    fn store(&mut self, rule: Rule, head: &Head, bins: &[u64]) -> Stored
        requires up { self.old.state.phase ≡ Phase.Up }
        requires valid { IsValid head.now }
        requires layout { head.now.layout ≡ self.old.geometry.layout }
        requires bins { length bins.now ≡ bins_of head.now }
        ensures stored { IsStored (stored_answer self.old.geometry.cells self.old.state.held rule head.now.key (record_of head.now)) result }
        ensures after { self.new.state ≡ after_stored result self.old.state (change_by rule head.now.key (record_of head.now)) }

        // The disk is not used where nothing was to be stored.
        ensures same { stored_used result ≡ None → self.new ≡ self.old }
        ensures stands { stored_used result ≢ None → IsTrue D.tells → CrashOutcomes self.old.geometry self.old.state.fence (D.text self.old.disk) (D.text self.new.disk) (D.image self.new.disk) (stored_used result) head.now.key
            (held_of self.old.state.held head.now.key) (stored_in rule (record_of head.now) (held_of self.old.state.held head.now.key)) (Some record { head = head.now; bins = bins.now }) }
        ensures geometry { self.new.geometry ≡ self.old.geometry }
        ensures spends { Spends 4 (stored_used result) (D.meter self.old.disk) (D.meter self.new.disk) }
    {
        let Some(entry) = place_of(&self.index, head.key) else {
            return Stored::Full;
        };
        match rule.room(&entry.versions, version(head)) {
            Room::Passed { held } => Stored::Passed { held },
            Room::Put { side } => {
                match put_in(&mut self.cells, &mut self.index, entry, side, head, bins) {
                    Ok(()) => Stored::Kept,
                    Err(DiskFault) => {
                        self.phase = Phase::Down;
                        self.undecided = Some(rule.change(head.key, told(head)));
                        Stored::DiskFault
                    }
                }
            }
        }
    }
}

/// What a node tells of a head.
pub(crate) fn told(head: &Head) -> Held
    ensures { result ≡ record_of head.now }
{
    Held {
        stamp: head.stamp,
        length: head.length,
        base: head.base,
    }
}

/// The version of a head.
pub(crate) fn version(head: &Head) -> Version
    ensures { result ≡ version_of (record_of head.now) }
{
    Version {
        stamp: head.stamp,
        base: head.base,
    }
}

/// The entry on whose pair a record of a key goes: the key's own, or a new one on a free pair.
fn place_of(index: &Index, key: Key) -> Option<Entry>
    ensures { result ≡ place_in index.now key }
{
    match index.find(key) {
        Some(entry) => Some(entry),
        None => match index.free_cell() {
            Some(pair) => Some(Entry {
                key,
                cell: pair,
                versions: Versions::none(),
            }),
            None => None,
        },
    }
}

/// Puts a record on a side of the pair of its key's place, and notes its version.
fn put_in<D: Disk>(
    cells: &mut Cells<D>,
    index: &mut Index,
    entry: Entry,
    side: u8,
    head: &Head,
    bins: &[u64],
) -> Result<(), DiskFault>
    requires open { AreOpen cells.old }
    requires tied { IsTied cells.old.geometry.cells cells.old.heads index.old }
    requires place { place_in index.old head.now.key ≡ Some entry }
    requires side { side < 2 }
    requires differ { Differ sides.version_stamp (sides.other entry.versions side) (Some (version_of (record_of head.now))) }
    requires valid { IsValid head.now }
    requires layout { head.now.layout ≡ cells.old.geometry.layout }
    requires bins { length bins.now ≡ bins_of head.now }
    ensures stands { IsTrue D.tells → CrashOutcomes cells.old.geometry cells.old.fence (D.text cells.old.disk) (D.text cells.new.disk) (D.image cells.new.disk) (Some (is_ok result)) head.now.key
        (records_in cells.old.heads entry.cell) (in_order stamp_of (put_at (sides_in cells.old.heads entry.cell) side (Some (record_of head.now)))) (Some record { head = head.now; bins = bins.now }) }
    ensures open { OnOk result (AreOpen cells.new) }
    ensures tied { IsTied cells.new.geometry.cells cells.new.heads index.new }
    ensures held { OnOk result (held_by index.new.entries cells.new.heads
        ≡ with_held (held_by index.old.entries cells.old.heads) head.now.key (in_order stamp_of (put_at (sides_in cells.old.heads entry.cell) side (Some (record_of head.now))))) }
    ensures waits { OnErr result (IsTrue D.tells → HoldsEitherHeld cells.new.geometry cells.new.fence (D.image cells.new.disk) (held_by index.new.entries cells.new.heads)
        (with_held (held_by index.new.entries cells.new.heads) head.now.key (in_order stamp_of (put_at (sides_in cells.old.heads entry.cell) side (Some (record_of head.now)))))) }
    ensures heads { OnErr result (cells.new.heads ≡ cells.old.heads) }
    ensures index { OnErr result (index.new ≡ index.old) }
    ensures geometry { cells.new.geometry ≡ cells.old.geometry }
    ensures fence { cells.new.fence ≡ cells.old.fence }
    ensures spends { Spends 4 (Some (is_ok result)) (D.meter cells.old.disk) (D.meter cells.new.disk) }
{
    let pair = entry.cell;
    let cell = 2 * pair + u32::from(side);
    match cells.put(cell, head, bins) {
        Ok(()) => {
            let versions = entry.versions.with(side, version(head));
            index.set(Entry {
                key: head.key,
                cell: pair,
                versions,
            });
            Ok(())
        }
        Err(DiskFault) => Err(DiskFault),
    }
}
