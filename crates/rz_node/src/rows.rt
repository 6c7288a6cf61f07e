//! The rows of an index, read off the heads of cells.
ghost use Rattle.std.specs.Prelude.{◌≡◌, ◌+◌, ◌<◌, [], IfOk, MatchOption};
ghost use Rattle.std.specs.Vec.{vec_capacity};
ghost use Rattle.std.specs.VecDeque.{deque_capacity};
ghost use Rattle.rz_cells_slots.specs.Held.{Apart};
ghost use Rattle.rz_node.specs.Kept.{IsShown, IsFree, IsTied};
ghost use Rattle.rz_node.specs.Rows.{IsRows, HasRoom};

use crate::keeping::version;
use rz_cells::Cells;
use rz_disk::Disk;
use rz_index::{Entry, Index, Spare};
use rz_versions::Versions;
use std::alloc::{AllocError, Global};
use std::collections::VecDeque;

/// Entries, in any order, and free pairs, with the memory for their index.
#[derive(Drop)]
pub(crate) struct Rows {
    entries: Vec<Entry>,
    free: VecDeque<u32>,
    spare: Spare,
}

impl Rows {
    /// Rows with room for so many pairs. No later call takes memory.
    pub(crate) fn with_room(alloc: Global, pairs: u32) -> Result<Rows, AllocError>
        ensures entries { IfOk result (λ r. r.entries.items ≡ []) }
        ensures free { IfOk result (λ r. r.free.items ≡ []) }
        ensures room { IfOk result (λ r. HasRoom pairs (vec_capacity r.entries) (deque_capacity r.free)) }
        ensures spare { IfOk result (λ r. r.spare ≡ pairs) }
    {
        Ok(Rows {
            entries: Vec::with_capacity(alloc, pairs as usize)?,
            free: VecDeque::with_capacity(alloc, pairs as usize)?,
            spare: Spare::with_room(alloc, pairs)?,
        })
    }

    /// The index of the heads of cells.
    pub(crate) fn index_of<D: Disk>(self, cells: &Cells<D>) -> Index
        requires entries { self.entries.items ≡ [] }
        requires free { self.free.items ≡ [] }
        requires room { HasRoom cells.now.geometry.cells (vec_capacity self.entries) (deque_capacity self.free) }
        requires spare { self.spare ≡ cells.now.geometry.cells }
        requires apart { Apart cells.now.heads }
        ensures { IsTied cells.now.geometry.cells cells.now.heads result }
    {
        let mut rows = self;
        for pair in 0..cells.geometry().cells {
            rows.add(cells, pair);
        }
        Index::of_rows(rows.entries, rows.free, rows.spare)
    }

    /// Adds the next pair: its entry, or that it is free.
    fn add<D: Disk>(&mut self, cells: &Cells<D>, pair: u32)
        requires pair { pair < cells.now.geometry.cells }
        requires room { HasRoom cells.now.geometry.cells (vec_capacity self.old.entries) (deque_capacity self.old.free) }
        requires apart { Apart cells.now.heads }
        requires rows { IsRows cells.now.geometry.cells cells.now.heads pair self.old.entries.items self.old.free.items }
        ensures rows { IsRows cells.now.geometry.cells cells.now.heads (pair + 1) self.new.entries.items self.new.free.items }
        ensures room { HasRoom cells.now.geometry.cells (vec_capacity self.new.entries) (deque_capacity self.new.free) }
        ensures spare { self.new.spare ≡ self.old.spare }
    {
        // There is room for all pairs in both rows.
        match entry_of(cells, pair) {
            Some(entry) => {
                let _fits = self.entries.push(entry);
            }
            None => {
                let _fits = self.free.push_back(pair);
            }
        }
    }
}

/// The entry of a pair, which is of the key that its cells hold.
fn entry_of<D: Disk>(cells: &Cells<D>, pair: u32) -> Option<Entry>
    requires pair { pair < cells.now.geometry.cells }
    requires apart { Apart cells.now.heads }
    ensures { MatchOption result (IsFree cells.now.geometry.cells cells.now.heads pair) (λ e. IsShown cells.now.geometry.cells cells.now.heads e.key e × (e.cell ≡ pair)) }
{
    let none = Versions::none();
    match (cells.head(2 * pair), cells.head(2 * pair + 1)) {
        (Some(zero), Some(one)) => {
            let versions = none.with(0, version(&zero)).with(1, version(&one));
            Some(Entry {
                key: zero.key,
                cell: pair,
                versions,
            })
        }
        (Some(zero), None) => {
            let versions = none.with(0, version(&zero));
            Some(Entry {
                key: zero.key,
                cell: pair,
                versions,
            })
        }
        (None, Some(one)) => {
            let versions = none.with(1, version(&one));
            Some(Entry {
                key: one.key,
                cell: pair,
                versions,
            })
        }
        (None, None) => None,
    }
}
