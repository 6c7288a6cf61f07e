//! The marks.

ghost use Rattle.std.specs.Prelude.{ℕ, ◌≡◌, ◌<◌, ◌≤◌, ◌^◌, ◌==◌, ◌&&◌, ◌||◌, true, false, not, cond, length, OnOk, OnErr, MatchOption};
ghost use Rattle.std.specs.Ordering.{is_lt};
ghost use Rattle.rz_events.specs.Keys.{key_cmp};
ghost use Rattle.rz_events.specs.declared.keys.Key.{Key};
ghost use Rattle.rz_export_model.specs.Export.{is_after};
ghost use Rattle.rz_blocks.specs.Marks.{is_marked, has_room, is_same, is_beside};
ghost use Rattle.rz_blocks.specs.Rows.{rank, top, row_at, rows_before, is_upto, IsRising, IsGap, IsThere};

use crate::row::{Row, place_of};
use rz_events::Key;
use rz_sequence::{Fork, Sequence};
use std::alloc::{AllocError, Global};
use std::marker::Model;

/// Marked blocks in numbered lists.
#[derive(Drop)]
pub struct Marks {
    alloc: Global,
    rows: Sequence<Row>,
}

impl Model for Marks {
    ghost use Rattle.std.specs.Prelude.{List};
    ghost use Rattle.rz_blocks.specs.declared.row.Row.{Row};
    ghost use Rattle.rz_blocks.specs.Rows.{IsRising, top};

    ghost Value = { List Row };

    ghost view = { λ m. m.rows };

    ghost invariant = { λ m. IsRising 0 top m.rows };
}

impl Marks {
    /// No marks, and room for none.
    pub fn new(alloc: Global) -> Marks
        ensures marks { (list : ℕ) (key : Key) → is_marked result list key ≡ false }
        ensures room { (list : ℕ) (key : Key) → has_room result list key ≡ false }
    {
        Marks {
            alloc,
            rows: Sequence::new(),
        }
    }

    /// Makes room in a list for the mark of a block, and of those in its row.
    pub fn make_room(&mut self, list: u16, key: Key) -> Result<(), AllocError>
        ensures marks { (l : ℕ) (q : Key) → is_marked self.new l q ≡ is_marked self.old l q }
        ensures room { OnOk result ((l : ℕ) (q : Key) → has_room self.new l q ≡ (has_room self.old l q || is_beside list key l q)) }
        ensures err { OnErr result (self.new ≡ self.old) }
    {
        let row = Row::bare(list, key);
        let (at, there) = find(&self.rows, row);
        if there.is_none() {
            self.rows.insert(self.alloc, at, row)?;
        }
        Ok(())
    }

    /// Marks a block in a list, which has room for it, or takes its mark away.
    pub fn set(&mut self, list: u16, key: Key, marked: bool)
        requires room { marked ≡ true → has_room self.old list key ≡ true }
        ensures marks { (l : ℕ) (q : Key) → is_marked self.new l q ≡ cond (is_same list key l q) marked (is_marked self.old l q) }
        ensures room { (l : ℕ) (q : Key) → has_room self.new l q ≡ has_room self.old l q }
    {
        let wanted = Row::bare(list, key);
        let Some(row) = look_up(&self.rows, wanted) else {
            return;
        };
        let after = row.with_mark(place_of(key), marked);
        // Most marks are as wanted already, so the place is counted only where one is not.
        if after.word != row.word {
            let at = count_before(&self.rows, wanted);
            self.rows.replace(at, after);
        }
    }

    /// The least block above `after` that is marked in a list.
    pub fn next(&self, list: u16, after: Option<Key>) -> Option<Key>
        ensures { MatchOption result
            ((q : Key) → is_after after q ≡ true → is_marked self.now list q ≡ false)
            (λ k. (is_after after k ≡ true) × (is_marked self.now list k ≡ true) × ((q : Key) → is_after after q ≡ true → is_lt (key_cmp q k) ≡ true → is_marked self.now list q ≡ false)) }
    {
        let rows = &self.rows;
        let first = first_above(after)?;
        let at = count_before(rows, Row::bare(list, first));
        let row = rows.get(at).copied()?;
        if let Some(key) = row.first_marked(list, first) {
            return Some(key);
        }
        // The rows between have room and no mark.
        let later = rows.next_marked(at + 1)?;
        let row = rows.get(later).copied()?;
        row.first_marked(list, first)
    }

    /// Takes all marks of a file in a list away, and the room for them.
    pub fn forget(&mut self, list: u16, fid: u128)
        ensures marks { (l : ℕ) (q : Key) → is_marked self.new l q ≡ (not ((l == list) && (q.fid == fid)) && is_marked self.old l q) }
        ensures room { (l : ℕ) (q : Key) → has_room self.new l q ≡ (not ((l == list) && (q.fid == fid)) && has_room self.old l q) }
    {
        let word = 0;
        let first = Row {
            list,
            fid,
            index: 0,
            word,
        };
        let last = Row {
            list,
            fid,
            index: u64::MAX,
            word,
        };
        let from = count_before(&self.rows, first);
        let end = count_before(&self.rows, last);
        let mut gone = self.rows.split_off(from);
        let behind = gone.split_off(end - from);
        self.rows.append(behind);
    }
}

// The least block above `after`.
fn first_above(after: Option<Key>) -> Option<Key>
    ensures { MatchOption result
        ((q : Key) → q.fid < 2 ^ 128 → q.block < 2 ^ 64 → is_after after q ≡ false)
        (λ k. (q : Key) → q.block < 2 ^ 64 → is_after after q ≡ is_upto k q) }
{
    let Some(key) = after else {
        return Some(Key { fid: 0, block: 0 });
    };
    if key.block < u64::MAX {
        return Some(Key {
            fid: key.fid,
            block: key.block + 1,
        });
    }
    let fid = key.fid.checked_add(1)?;
    Some(Key { fid, block: 0 })
}

// How many rows stand before another.
fn count_before(rows: &Sequence<Row>, row: Row) -> usize
    requires { IsRising 0 top rows.now }
    ensures count { result ≡ rows_before (rank row) rows.now }
    ensures fits { length rows.now < 2 ^ 64 }
{
    let mut rest = rows;
    // Where `rest` ends.
    let mut end = rows.len();
    while let Some(Fork { left, item, right }) = rest.fork() {
        if item.is_before(row) {
            rest = right;
        } else {
            end -= right.len() + 1;
            rest = left;
        }
    }
    end
}

// The row that stands where another one would.
fn look_up(rows: &Sequence<Row>, row: Row) -> Option<Row>
    requires { IsRising 0 top rows.now }
    ensures { result ≡ row_at (rank row) rows.now }
{
    let mut rest = rows;
    while let Some(Fork { left, item, right }) = rest.fork() {
        if item.is_same(row) {
            return Some(*item);
        }
        rest = if item.is_before(row) { right } else { left };
    }
    None
}

// The place that a row has or would have, and the row that is there.
fn find(rows: &Sequence<Row>, row: Row) -> (usize, Option<Row>)
    requires rising { IsRising 0 top rows.now }
    requires fits { rank row < top }
    ensures place { result.0 ≤ length rows.now }
    ensures there { MatchOption result.1 (IsGap (rank row) rows.now result.0) (λ r. IsThere (rank row) rows.now result.0 r) }
{
    let at = count_before(rows, row);
    let Some(there) = rows.get(at).copied() else {
        return (at, None);
    };
    if there.is_same(row) {
        (at, Some(there))
    } else {
        (at, None)
    }
}
