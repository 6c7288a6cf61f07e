//! The map from keys to what is begun and published of them.

ghost use Rattle.std.specs.Prelude.{ℕ, ◌≡◌, ◌<◌, ◌^◌, ◌==◌, ◌&&◌, cond, nat_le, None, OnOk, OnErr, IsOk, IsSome};
ghost use Rattle.std.specs.List.Sorted.{IsStrictlySortedBy};
ghost use Rattle.std.specs.Map.{keys_of};
ghost use Rattle.std.specs.Option.{option_map};
ghost use Rattle.std.specs.FinMap as maps;
ghost use Rattle.rz_events.specs.Keys.{key_cmp};
ghost use Rattle.rz_events.specs.declared.keys.Key.{Key};
ghost use Rattle.rz_export_model.specs.Firsts.{given_if, first_given};
ghost use Rattle.rz_export_model.specs.Export.{prepared, begun, latest_of, with_published, published_of, next_of_file, without_file, newer_of, is_after};
ghost use Rattle.rz_blocks.specs.Marked.{kept_at};
ghost use Rattle.rz_blocks.specs.Shown.{added, shown, first_published, entry_above, nth_entry, IsStartAbove, IsStartOf, IsEndOf, IsWithin, IsPast};

use crate::Marks;
use rz_events::{Key, Published};
use std::alloc::{AllocError, Global};
use std::collections::BTreeMap;
use std::marker::Model;
use std::ops::Bound;

// The list of marks that has the published blocks.
const PUBLISHED: u16 = 0;

/// What is known of a block: the newest stamp begun, or 0, and what is published.
#[derive(Clone, Copy, Drop)]
pub struct BlockEntry {
    pub latest: u64,
    pub published: Option<Published>,
}

/// The blocks of all files, in the order of their keys.
#[derive(Drop)]
pub struct Blocks {
    entries: BTreeMap<Key, BlockEntry>,
    // The published blocks are marked, and there is room for the mark of each entry.
    published: Marks,
}

impl Model for Blocks {
    ghost use Rattle.std.specs.FinMap as maps;
    ghost use Rattle.rz_events.specs.Keys.{key_cmp, coded_key};
    ghost use Rattle.rz_export_model.specs.Export.{Block};
    ghost use Rattle.rz_export_model.specs.Codes.{block_code};
    ghost use Rattle.rz_blocks.specs.Shown.{shown_entries};
    ghost use Rattle.rz_blocks.specs.Marked.{AreMarked};

    ghost Value = { maps.FinMap key_cmp Block };

    ghost coded = { maps.code coded_key block_code };

    ghost view = { λ b. maps.from_entries (shown_entries b.entries.entries) };

    ghost invariant = { λ b. AreMarked b.entries.entries b.published };
}

impl Blocks {
    /// No blocks.
    pub fn new(alloc: Global) -> Blocks
        ensures { result ≡ maps.empty }
    {
        Blocks {
            entries: BTreeMap::new(alloc),
            published: Marks::new(alloc),
        }
    }

    /// Makes the entry of a key, where there is none.
    pub fn prepare(&mut self, key: Key) -> Result<(), AllocError>
        ensures ok { OnOk result (self.new ≡ prepared self.old key) }

        // An entry that is there takes no memory.
        ensures there { IsSome (maps.get self.old key) → IsOk result }
        ensures err { OnErr result (self.new ≡ self.old) }
    {
        if self.entry(key).is_some() {
            return Ok(());
        }
        self.add(key, 0, None)
    }

    /// Adds the entry of a key that has none.
    pub fn add(
        &mut self,
        key: Key,
        latest: u64,
        published: Option<Published>,
    ) -> Result<(), AllocError>
        requires { maps.get self.old key ≡ None }
        ensures ok { OnOk result (self.new ≡ added self.old key latest published) }
        ensures err { OnErr result (self.new ≡ self.old) }
    {
        // Room that is made for an entry that finds no memory stays, and shows nowhere.
        self.published.make_room(PUBLISHED, key)?;
        self.entries.insert(key, BlockEntry { latest, published })?;
        self.published.set(PUBLISHED, key, published.is_some());
        Ok(())
    }

    /// Notes that a write of the block began with this stamp.
    pub fn begin(&mut self, key: Key, stamp: u64)
        requires prepared { IsSome (maps.get self.old key) }
        requires newer { latest_of self.old key < stamp }
        ensures { self.new ≡ begun self.old key stamp }
    {
        if let Some(entry) = self.entries.get_mut(&key) {
            entry.latest = stamp;
        }
    }

    /// The newest stamp begun, or 0.
    pub fn latest(&self, key: Key) -> u64
        ensures { result ≡ latest_of self.now key }
    {
        match self.entry(key) {
            None => 0,
            Some(entry) => entry.latest,
        }
    }

    /// Notes a publish: the greater stamp stays, and of equal stamps what was published first.
    pub fn publish(&mut self, key: Key, published: Published)
        requires { IsSome (maps.get self.old key) }
        ensures { self.new ≡ with_published self.old key published }
    {
        let Some(entry) = self.entries.get_mut(&key) else {
            return;
        };
        let before = entry.published;
        entry.published = Some(newer_publish(before, published));
        // A block that is published already is marked.
        if before.is_none() {
            self.published.set(PUBLISHED, key, true);
        }
    }

    /// What is published of a block.
    pub fn look(&self, key: Key) -> Option<Published>
        ensures { result ≡ published_of self.now key }
    {
        match self.entry(key) {
            None => None,
            Some(entry) => entry.published,
        }
    }

    /// The least published key of a file above `after`. Blocks that are begun and not published are
    /// passed over in logarithmic time.
    pub fn next(&self, after: Option<Key>, file: u128) -> Option<(Key, Published)>
        ensures { result ≡ next_of_file self.now after file }
    {
        let key = self.published.next(PUBLISHED, last_before(after, file))?;
        if key.fid != file {
            return None;
        }
        let published = self.look(key)?;
        Some((key, published))
    }

    /// The least published key above `after`, found in logarithmic time.
    pub fn next_published(&self, after: Option<Key>) -> Option<(Key, Published)>
        ensures { result ≡ first_published self.now after }
    {
        let key = self.published.next(PUBLISHED, after)?;
        let published = self.look(key)?;
        Some((key, published))
    }

    /// The least entry above a key, or the first one.
    pub fn after(&self, key: Option<Key>) -> Option<(Key, u64, Option<Published>)>
        ensures { result ≡ entry_above self.now key }
    {
        let above = (start_above(key), Bound::Unbounded);
        match self.entries.range(above).next() {
            None => None,
            Some((key, entry)) => Some((*key, entry.latest, entry.published)),
        }
    }

    /// How many keys have an entry.
    pub fn len(&self) -> usize
        ensures { result ≡ maps.len self.now }
    {
        self.entries.len()
    }

    /// The entry at a place in the order of the keys. Those before it are passed over one by one.
    pub fn nth(&self, at: usize) -> Option<(Key, u64, Option<Published>)>
        ensures { result ≡ nth_entry self.now at }
    {
        let (key, entry) = self.entries.iter().nth(at)?;
        Some((*key, entry.latest, entry.published))
    }

    /// Takes every entry of a file away.
    pub fn forget(&mut self, fid: u128)
        ensures { self.new ≡ without_file self.old fid }
    {
        remove_file(&mut self.entries, fid);
        self.published.forget(PUBLISHED, fid);
    }

    // The entry of a key.
    fn entry(&self, key: Key) -> Option<BlockEntry>
        ensures { option_map shown result ≡ maps.get self.now key }
    {
        self.entries.get(&key).copied()
    }

    /// Takes the entry of a key away.
    pub fn take_out(&mut self, key: Key)
        ensures { self.new ≡ maps.remove self.old key }
    {
        self.entries.remove(&key);
        self.published.set(PUBLISHED, key, false);
    }

    /// The least key of a file.
    pub fn first_of(&self, fid: u128) -> Option<Key>
        ensures { result ≡ first_given (λ e. given_if (e.0.fid == fid) e.0) (maps.entries self.now) }
    {
        first_key(&self.entries, fid)
    }
}

// The least key of a file.
fn first_key(entries: &BTreeMap<Key, BlockEntry>, fid: u128) -> Option<Key>
    ensures first { result ≡ first_given (λ e. given_if (e.0.fid == fid) e.0) entries.now.entries }
    ensures ordered { IsStrictlySortedBy key_cmp (keys_of entries.now.entries) }
{
    for (key, _) in entries.range((start_of(fid), end_of(fid))) {
        if key.fid == fid {
            return Some(*key);
        }
    }
    None
}

// Takes the entries of a file out.
fn remove_file(entries: &mut BTreeMap<Key, BlockEntry>, fid: u128)
    ensures { (q : Key) → kept_at entries.new.entries q ≡ cond (q.fid == fid) None (kept_at entries.old.entries q) }
{
    while let Some(key) = first_key(entries, fid) {
        entries.remove(&key);
    }
}

// The first bound of the keys above `after`.
fn start_above(after: Option<Key>) -> Bound<Key>
    ensures { IsStartAbove result after }
{
    match after {
        None => Bound::Unbounded,
        Some(key) => Bound::Excluded(key),
    }
}

// The greatest key below all those that are above `after` and of the file or a later one.
fn last_before(after: Option<Key>, file: u128) -> Option<Key>
    ensures { (q : Key) → q.block < 2 ^ 64 → is_after result q ≡ (is_after after q && nat_le file q.fid) }
{
    match after {
        Some(key) if key.fid >= file => after,
        _ => Some(Key {
            fid: file.checked_sub(1)?,
            block: u64::MAX,
        }),
    }
}

// The first bound of a file's keys.
fn start_of(file: u128) -> Bound<Key>
    ensures start { IsStartOf result file }
    ensures within { IsWithin result file }
{
    Bound::Included(Key {
        fid: file,
        block: 0,
    })
}

// The second bound of a file's keys.
fn end_of(file: u128) -> Bound<Key>
    ensures end { IsEndOf result file }
    ensures past { IsPast result file }
{
    match file.checked_add(1) {
        None => Bound::Unbounded,
        Some(next) => Bound::Excluded(Key {
            fid: next,
            block: 0,
        }),
    }
}

// Of two publishes the one with the greater stamp, and at equal stamps the first.
fn newer_publish(first: Option<Published>, then: Published) -> Published
    ensures { result ≡ newer_of first then }
{
    match first {
        None => then,
        Some(first) => {
            if first.stamp < then.stamp {
                then
            } else {
                first
            }
        }
    }
}
