//! Entries in the order of their keys, and free cells.

ghost use Rattle.std.specs.Prelude.{◌≡◌, ◌+◌, ◌<◌, ◌≤◌, [], ◌∷◌, ◌++◌, List, Some, None, length, map, not, IfOk, MatchOption};
ghost use Rattle.std.specs.List.{Contains, IsDistinct, remove, range_with_len};
ghost use Rattle.std.specs.Ordering.{eq_by_cmp};
ghost use Rattle.std.specs.Vec.{vec_len};
ghost use Rattle.std.specs.VecDeque.{deque_len, deque_capacity};
ghost use Rattle.std.specs.FinMap as maps;
ghost use Rattle.std.specs.FinMap.Entries.{find, put, where_key};
ghost use Rattle.rz_events.specs.Keys.{key_cmp};
ghost use Rattle.rz_events.specs.declared.keys.Key.{Key};
ghost use Rattle.rz_index.specs.declared.index.Entry.{Entry};
ghost use Rattle.rz_index.specs.Indexed.{pairs_of, IsSorted, first_of_file, head_of, erase, taken_out, freed};
ghost use Rattle.rz_index.specs.Spares.{IsAdded, IsPlanted, IsRemoved};
ghost use Rattle.rz_index.specs.Standing.{Holds, Tree};

use crate::nodes;
use crate::nodes::IndexNode;
use crate::spare::Spare;
use rz_events::Key;
use rz_versions::Versions;
use std::alloc::{AllocError, Global};
use std::collections::VecDeque;
use std::marker::Model;

/// A key that is held: the pair of cells that has its records, and their versions.
#[derive(Clone, Copy, PartialEq, Eq, Drop)]
pub struct Entry {
    pub key: Key,
    /// The number of the pair.
    pub cell: u32,
    pub versions: Versions,
}

/// The keys that are held, and the free pairs of cells.
#[derive(Drop)]
pub struct Index {
    /// The nodes of the entries, and those that no entry needs. None stands at 0.
    row: Vec<IndexNode>,
    /// The tree of the entries.
    root: u32,
    /// The tree of the nodes that no entry needs.
    spare: u32,
    free: VecDeque<u32>,
}

impl Model for Index {
    ghost use Rattle.std.specs.Prelude.{length};
    ghost use Rattle.std.specs.VecDeque.{deque_len, deque_capacity};
    ghost use Rattle.rz_index.specs.Indexed.{Indexed, indexed_code, indexed};
    ghost use Rattle.rz_index.specs.Standing.{entries_below};
    ghost use Rattle.rz_index.specs.Spares.{IsIndex};

    ghost Value = { Indexed };

    ghost coded = { indexed_code };

    ghost view = { λ i. indexed (entries_below (length i.row.items) i.row.items i.root) i.free.items };

    ghost invariant = { λ i. IsIndex i.row.items i.root i.spare (deque_len i.free) (deque_capacity i.free) };
}

impl Index {
    /// An index with no keys and all of so many cells free, in their order, with room for a key each.
    pub fn with_room(alloc: Global, cells: u32) -> Result<Index, AllocError>
        ensures { IfOk result (λ i. i ≡ record { entries = maps.empty; free = range_with_len 0 cells }) }
    {
        let spare = Spare::with_room(alloc, cells)?;
        let mut free = VecDeque::with_capacity(alloc, cells as usize)?;
        for cell in 0..cells {
            free.push_back(cell)?;
        }
        Ok(Index {
            row: spare.row,
            root: 0,
            spare: spare.link,
            free,
        })
    }

    /// An index of these entries, which come in any order, and these free cells, in memory that was taken
    /// before. It takes none.
    pub fn of_rows(entries: Vec<Entry>, free: VecDeque<u32>, spare: Spare) -> Index
        requires keys { IsDistinct (eq_by_cmp key_cmp) (map (λ (e : Entry). e.key) entries.items) }
        requires room { vec_len entries + deque_len free ≤ spare }
        requires room_free { vec_len entries + deque_len free ≤ deque_capacity free }

        // It has these entries, each under its key, and no other.
        ensures has { (e : Entry) → Contains entries.items e → maps.get result.entries e.key ≡ Some e }
        ensures only { (key : Key) (e : Entry) → maps.get result.entries key ≡ Some e → Contains entries.items e × (e.key ≡ key) }
        ensures count { maps.len result.entries ≡ vec_len entries }
        ensures free { result.free ≡ free.items }
    {
        let mut entries = entries;
        entries.sort_unstable_by_key(|entry| entry.key);
        let mut row = spare.row;
        let room = row.len();
        let (root, spare) = planted(&entries, &mut row, spare.link, room);
        Index {
            row,
            root,
            spare,
            free,
        }
    }

    /// The entry of a key.
    pub fn find(&self, key: Key) -> Option<Entry>
        ensures { result ≡ maps.get self.now.entries key }
    {
        nodes::find(&self.row, self.root, key, self.row.len())
    }

    /// The entry of the least block of a file.
    pub fn first_of(&self, fid: u128) -> Option<Entry>
        ensures { result ≡ first_of_file self.now.entries fid }
    {
        nodes::first_of(&self.row, self.root, fid, self.row.len())
    }

    /// The first of the free cells.
    pub fn free_cell(&self) -> Option<u32>
        ensures { result ≡ head_of self.now.free }
    {
        self.free.front().copied()
    }

    /// How many cells are free.
    pub fn free_cells(&self) -> usize
        ensures { result ≡ length self.now.free }
    {
        self.free.len()
    }

    /// Sets the entry of a key. A new key takes its cell out of the free ones.
    pub fn set(&mut self, entry: Entry)
        requires { MatchOption (maps.get self.old.entries entry.key) (Contains self.old.free entry.cell) (λ e. e.cell ≡ entry.cell) }
        ensures entries { self.new.entries ≡ maps.insert self.old.entries entry.key entry }
        ensures free { self.new.free ≡ taken_out self.old entry }
    {
        let room = self.row.len();
        if nodes::find(&self.row, self.root, entry.key, room).is_some() {
            self.root = nodes::replace(&mut self.row, self.root, &entry, room);
        } else {
            let place = place_of(&self.free, entry.cell);
            let _cell = self.free.remove(place);
            let (root, spare) = added(&mut self.row, self.root, self.spare, &entry, room);
            self.root = root;
            self.spare = spare;
        }
    }

    /// Takes a key away, where it is there. Its cell becomes the last of the free ones.
    pub fn remove(&mut self, key: Key)
        ensures entries { self.new.entries ≡ maps.remove self.old.entries key }
        ensures free { self.new.free ≡ freed self.old key }
    {
        let room = self.row.len();
        let (root, spare, cell) = removed(&mut self.row, self.root, self.spare, key, room);
        self.root = root;
        self.spare = spare;
        if let Some(cell) = cell {
            // Entries and free cells together are as many as there is room for.
            let _fits = self.free.push_back(cell);
        }
    }
}

// The tree of entries without that of a key, where it is there, the tree of the spare nodes with its node, and
// its cell.
fn removed(
    row: &mut [IndexNode],
    root: u32,
    spare: u32,
    key: Key,
    room: usize,
) -> (u32, u32, Option<u32>)
    ensures { (entries blanks : List Entry) → Holds row.old (Tree root entries ∷ Tree spare blanks ∷ []) → IsSorted entries → length entries ≤ room
        → IsRemoved row.new result.0 result.1 result.2 (find key_cmp key (pairs_of entries)) (where_key key_cmp (λ k. not (eq_by_cmp key_cmp key k)) (pairs_of entries)) (length blanks) }
{
    let (root, node) = nodes::take(row, root, key, room);
    if node == 0 {
        return (root, spare, None);
    }
    // The node of an entry that was there is now by itself.
    let Some(entry) = nodes::entry_at(row, node) else {
        return (root, spare, None);
    };
    (root, nodes::linked(row, 0, node, spare), Some(entry.cell))
}

// The tree of entries with one more, on a spare node, and the tree of the other spare nodes.
fn added(row: &mut [IndexNode], root: u32, spare: u32, entry: &Entry, room: usize) -> (u32, u32)
    ensures { (entries blanks : List Entry) → Holds row.old (Tree root entries ∷ Tree spare blanks ∷ []) → IsSorted entries → length entries ≤ room → length blanks ≤ room
        → find key_cmp entry.now.key (pairs_of entries) ≡ None → 0 < length blanks → IsAdded row.new result.0 result.1 (put key_cmp entry.now.key entry.now (pairs_of entries)) (length blanks) }
{
    // There is a spare node for each free cell.
    let Some((node, spare)) = nodes::split_first(row, spare, room) else {
        return (root, spare);
    };
    nodes::set_entry(row, node, entry);
    (nodes::insert(row, root, node, entry.key, room), spare)
}

// The tree of entries with one behind them, on a spare node, and the tree of the other spare nodes.
fn added_last(
    row: &mut [IndexNode],
    root: u32,
    spare: u32,
    entry: &Entry,
    room: usize,
) -> (u32, u32)
    ensures { (entries blanks : List Entry) → Holds row.old (Tree root entries ∷ Tree spare blanks ∷ []) → length entries ≤ room → length blanks ≤ room → 0 < length blanks
        → IsPlanted row.new result.0 result.1 (entries ++ entry.now ∷ []) (length entries + length blanks) }
{
    // There is a spare node for each entry.
    let Some((node, spare)) = nodes::split_first(row, spare, room) else {
        return (root, spare);
    };
    nodes::set_entry(row, node, entry);
    (nodes::with_last(row, root, node, room), spare)
}

// Entries in a tree, in the order in which they come, on spare nodes, and the tree of the other spare nodes.
fn planted(entries: &[Entry], row: &mut [IndexNode], spare: u32, room: usize) -> (u32, u32)
    ensures { (blanks : List Entry) → Holds row.old (Tree spare blanks ∷ []) → length entries.now ≤ length blanks → length blanks ≤ room
        → IsPlanted row.new result.0 result.1 entries.now (length blanks) }
{
    let mut root = 0;
    let mut spare = spare;
    for entry in entries {
        let (tree, rest) = added_last(row, root, spare, entry, room);
        root = tree;
        spare = rest;
    }
    (root, spare)
}

// The first place of a cell.
fn place_of(cells: &VecDeque<u32>, cell: u32) -> usize
    requires { Contains cells.now.items cell }
    ensures within { result < deque_len cells.now }
    ensures first { erase cell cells.now.items ≡ remove cells.now.items result }
{
    let mut place = 0;
    while place < cells.len() && cells[place] != cell {
        place += 1;
    }
    place
}
