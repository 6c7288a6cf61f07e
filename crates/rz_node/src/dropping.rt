//! Dropping the records of a file, one at a time.
ghost use Rattle.std.specs.Prelude.{◌≡◌, ◌≢◌, ◌<◌, [], Some, None, IsTrue, OnOk, OnErr, MatchOption, is_ok};
ghost use Rattle.std.specs.List.{Contains};
ghost use Rattle.std.specs.FinMap as maps;
ghost use Rattle.rz_cells.specs.Open.{AreOpen};
ghost use Rattle.rz_index.specs.Indexed.{taken_in, freed_by};
ghost use Rattle.rz_versions.specs.Sides.{in_order, put_at};
ghost use Rattle.rz_versions.specs.Sides as sides;
ghost use Rattle.rz_node_model.specs.Answers.{IsNodeAnswer};
ghost use Rattle.rz_node_model.specs.Afterwards.{after_answer};
ghost use Rattle.rz_node_model.specs.Records.{held_of, stamp_of, key_at, with_held};
ghost use Rattle.rz_node_model.specs.Versions.{without};
ghost use Rattle.rz_node.specs.CrashOutcomes.{CrashOutcomes};
ghost use Rattle.rz_node.specs.Kept.{IsTied, held_by, sides_in, records_in};
ghost use Rattle.rz_node.specs.Spends.{Spends, IfDropped, drop_used};
ghost use Rattle.rz_node.specs.DownDisk.{HoldsEitherHeld};

use crate::Node;
use rz_cells::{Cells, DiskFault};
use rz_disk::Disk;
use rz_events::{DropAnswer, Key, NodeAnswer, NodeAsk, Phase};
use rz_index::{Entry, Index};
use rz_node_model::Pending;

impl<D: Disk> Node<D> {
    /// Clears the lesser version of the file's least block.
    pub fn drop_next(&mut self, fid: u128) -> DropAnswer
        ensures answer { IsNodeAnswer self.old.geometry.cells self.old.state (NodeAsk.Drop fid) (NodeAnswer.Drop result) }
        ensures after { self.new.state ≡ after_answer (NodeAsk.Drop fid) (NodeAnswer.Drop result) self.old.state }

        // The disk is not used where nothing was to be dropped.
        ensures same { drop_used result ≡ None → self.new ≡ self.old }
        ensures stands { IfDropped result (λ block stamp. IsTrue D.tells → CrashOutcomes self.old.geometry self.old.state.fence (D.text self.old.disk) (D.text self.new.disk) (D.image self.new.disk) (drop_used result) (key_at fid block)
            (held_of self.old.state.held (key_at fid block)) (without stamp_of stamp (held_of self.old.state.held (key_at fid block))) None) }
        ensures geometry { self.new.geometry ≡ self.old.geometry }
        ensures spends { Spends 4 (drop_used result) (D.meter self.old.disk) (D.meter self.new.disk) }
    {
        match self.phase {
            Phase::Lost => return DropAnswer::Lost,
            Phase::Down => return DropAnswer::Down,
            Phase::Up => {}
        }
        let Some(entry) = self.index.first_of(fid) else {
            return DropAnswer::Nothing;
        };
        let Some(version) = entry.versions.lesser() else {
            unreachable!()
        };
        let Some(side) = entry.versions.side_of(version.stamp) else {
            unreachable!()
        };
        let block = entry.key.block;
        let stamp = version.stamp;
        match clear_in(&mut self.cells, &mut self.index, entry, side) {
            Ok(()) => DropAnswer::Dropped {
                block,
                stamp,
                more: self.index.first_of(fid).is_some(),
            },
            Err(DiskFault) => {
                self.phase = Phase::Down;
                self.undecided = Some(Pending::Drop {
                    key: Key { fid, block },
                    stamp,
                });
                DropAnswer::DiskFault { block, stamp }
            }
        }
    }
}

/// Clears a side of the pair of an entry, and takes its version out of the index.
fn clear_in<D: Disk>(
    cells: &mut Cells<D>,
    index: &mut Index,
    entry: Entry,
    side: u8,
) -> Result<(), DiskFault>
    requires open { AreOpen cells.old }
    requires tied { IsTied cells.old.geometry.cells cells.old.heads index.old }
    requires there { maps.get index.old.entries entry.key ≡ Some entry }
    requires side { side < 2 }
    ensures stands { IsTrue D.tells → CrashOutcomes cells.old.geometry cells.old.fence (D.text cells.old.disk) (D.text cells.new.disk) (D.image cells.new.disk) (Some (is_ok result)) entry.key
        (records_in cells.old.heads entry.cell) (in_order stamp_of (put_at (sides_in cells.old.heads entry.cell) side None)) None }
    ensures open { OnOk result (AreOpen cells.new) }
    ensures tied { IsTied cells.new.geometry.cells cells.new.heads index.new }
    ensures held { OnOk result (held_by index.new.entries cells.new.heads
        ≡ with_held (held_by index.old.entries cells.old.heads) entry.key (in_order stamp_of (put_at (sides_in cells.old.heads entry.cell) side None))) }
    ensures waits { OnErr result (IsTrue D.tells → HoldsEitherHeld cells.new.geometry cells.new.fence (D.image cells.new.disk) (held_by index.new.entries cells.new.heads)
        (with_held (held_by index.new.entries cells.new.heads) entry.key (in_order stamp_of (put_at (sides_in cells.old.heads entry.cell) side None)))) }
    ensures heads { OnErr result (cells.new.heads ≡ cells.old.heads) }
    ensures index { OnErr result (index.new ≡ index.old) }
    ensures geometry { cells.new.geometry ≡ cells.old.geometry }
    ensures fence { cells.new.fence ≡ cells.old.fence }
    ensures spends { Spends 4 (Some (is_ok result)) (D.meter cells.old.disk) (D.meter cells.new.disk) }
{
    let pair = entry.cell;
    let cell = 2 * pair + u32::from(side);
    match cells.clear(cell) {
        Ok(()) => {
            let versions = entry.versions.without(side);
            note(
                index,
                Entry {
                    key: entry.key,
                    cell: pair,
                    versions,
                },
            );
            Ok(())
        }
        Err(DiskFault) => Err(DiskFault),
    }
}

/// Sets the entry of a key, or takes the key away where no version is left.
fn note(index: &mut Index, entry: Entry)
    requires { MatchOption (maps.get index.old.entries entry.key) (Contains index.old.free entry.cell) (λ e. e.cell ≡ entry.cell) }
    ensures left { in_order sides.version_stamp entry.versions ≢ [] → index.new.entries ≡ maps.insert index.old.entries entry.key entry }
    ensures left_free { in_order sides.version_stamp entry.versions ≢ [] → index.new.free ≡ taken_in (maps.get index.old.entries entry.key) entry.cell index.old.free }
    ensures gone { in_order sides.version_stamp entry.versions ≡ [] → index.new.entries ≡ maps.remove index.old.entries entry.key }
    ensures gone_free { in_order sides.version_stamp entry.versions ≡ [] → index.new.free ≡ freed_by (maps.get index.old.entries entry.key) index.old.free }
{
    match entry.versions.greatest() {
        Some(_) => index.set(entry),
        None => index.remove(entry.key),
    }
}
