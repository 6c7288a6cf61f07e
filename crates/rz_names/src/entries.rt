//! Entries in the order of their paths, and the places that a search finds among them.

ghost use Rattle.std.specs.Prelude.{◌≡◌, ◌+◌, ◌-◌, ◌^◌, ◌<◌, ◌≤◌, ◌++◌, not, length, take, drop, map, [], ◌∷◌, IfOk, OnOk, IsTrue};
ghost use Rattle.std.specs.Option.{option_copied};
ghost use Rattle.std.specs.Ordering.{is_gt, is_lt, eq_by_cmp};
ghost use Rattle.std.specs.FinMap.{find, is_sorted};
ghost use Rattle.std.specs.FinMap.Entries.{where_key};
ghost use Rattle.rz_export_model.specs.Paths.{path_cmp, begins_with};
ghost use Rattle.rz_names.specs.Cuts.{passes};
ghost use Rattle.rz_names.specs.Entries.{run};
ghost use Rattle.rz_names.specs.Names.{is_up_to, is_within};

use crate::Path;
use crate::cuts::PathCut;
use crate::order::compare;
use rz_events::Text;
use rz_sequence::{Fork, Mark, Sequence};
use std::alloc::{AllocError, Global};
use std::marker::Model;

/// A path with the number of its object.
#[derive(Drop)]
pub struct PathEntry {
    path: Path,
    fid: u128,
}

impl Model for PathEntry {
    ghost use Rattle.std.specs.Prelude.{List, ℕ};

    ghost Value = { List (List ℕ) × ℕ };

    ghost view = { λ e. (e.path, e.fid) };
}

impl Mark for PathEntry {
    ghost use Rattle.std.specs.Prelude.{false};

    ghost is_marked = { λ _. false };

    fn is_marked(&self) -> bool {
        false
    }
}

impl PathEntry {
    /// A path with a number.
    pub fn new(path: Path, fid: u128) -> PathEntry
        ensures { result ≡ (path, fid) }
    {
        PathEntry { path, fid }
    }

    /// The path.
    pub fn path(&self) -> &Path
        ensures { result.now ≡ self.now.0 }
    {
        &self.path
    }

    /// The names of the path.
    pub fn names(&self) -> &[Text]
        ensures { result.now ≡ self.now.0 }
    {
        self.path.names()
    }

    /// The number.
    pub fn fid(&self) -> u128
        ensures { result ≡ self.now.1 }
    {
        self.fid
    }
}

/// How many entries stand before a path.
pub fn place_of(entries: &Sequence<PathEntry>, names: &[Text]) -> usize
    requires { IsTrue (is_sorted path_cmp entries.now) }
    ensures place { result ≡ run (λ k. is_gt (path_cmp names.now k)) entries.now }
    ensures within { result ≤ length entries.now }
{
    place(entries, &PathCut::Before(names))
}

/// How many entries are at most a path, or below it by a name that is not after the given one.
pub fn place_after(entries: &Sequence<PathEntry>, names: &[Text], after: Option<&Text>) -> usize
    requires { IsTrue (is_sorted path_cmp entries.now) }
    ensures { result ≡ run (is_up_to names.now (option_copied after.entry)) entries.now }
{
    place(entries, &PathCut::Reached(names, after))
}

/// How many entries are at most a path, or begin with it.
pub fn place_past(entries: &Sequence<PathEntry>, names: &[Text]) -> usize
    requires { IsTrue (is_sorted path_cmp entries.now) }
    ensures place { result ≡ run (is_within names.now) entries.now }
    ensures fits { length entries.now < 2 ^ 64 }
{
    place(entries, &PathCut::Within(names))
}

/// How many entries are not after a path.
pub fn place_above(entries: &Sequence<PathEntry>, names: &[Text]) -> usize
    requires { IsTrue (is_sorted path_cmp entries.now) }
    ensures { result ≡ run (λ k. not (is_lt (path_cmp names.now k))) entries.now }
{
    place(entries, &PathCut::UpTo(names))
}

/// The number at a path.
pub fn number_at(entries: &Sequence<PathEntry>, names: &[Text]) -> Option<u128>
    requires { IsTrue (is_sorted path_cmp entries.now) }
    ensures { result ≡ find path_cmp names.now entries.now }
{
    let at = place_of(entries, names);
    match entries.get(at) {
        None => None,
        Some(entry) => {
            if compare(names, entry.names()).is_eq() {
                Some(entry.fid())
            } else {
                None
            }
        }
    }
}

/// The entries that begin with a path, with its names changed to those of `to`.
pub fn moved_entries(
    alloc: Global,
    entries: &Sequence<PathEntry>,
    names: &[Text],
    to: &[Text],
) -> Result<Sequence<PathEntry>, AllocError>
    requires { IsTrue (is_sorted path_cmp entries.now) }
    ensures { IfOk result (λ moved. moved ≡ map (λ e. (to.now ++ drop (length names.now) e.0, e.1)) (where_key path_cmp (begins_with names.now) entries.now)) }
{
    let (start, end) = block_bounds(entries, names);
    let mut moved = Sequence::new();
    for at in start..end {
        if let Some(entry) = entries.get(at) {
            let path = Path::joined(alloc, to, entry.names(), names.len())?;
            push(alloc, &mut moved, PathEntry::new(path, entry.fid()))?;
        }
    }
    Ok(moved)
}

/// Takes the entries out that begin with a path.
pub fn remove_block(entries: &mut Sequence<PathEntry>, names: &[Text])
    requires { IsTrue (is_sorted path_cmp entries.old) }
    ensures items { entries.new ≡ where_key path_cmp (λ k. not (begins_with names.now k)) entries.old }
    ensures len { length entries.new + length (where_key path_cmp (begins_with names.now) entries.old) ≡ length entries.old }
    ensures fits { length entries.old < 2 ^ 64 }
{
    let (start, end) = block_bounds(entries, names);
    let tail = entries.split_off(end);
    drop(entries.split_off(start));
    entries.append(tail);
}

/// Takes the entry of a path out, where there is one.
pub fn remove_one(entries: &mut Sequence<PathEntry>, names: &[Text])
    requires { IsTrue (is_sorted path_cmp entries.old) }
    ensures items { entries.new ≡ where_key path_cmp (λ k. not (eq_by_cmp path_cmp names.now k)) entries.old }
    ensures len { length entries.new ≤ length entries.old }
{
    if number_at(entries, names).is_none() {
        return;
    }
    let at = place_of(entries, names);
    entries.remove(at);
}

/// Puts a block of entries in at a place.
pub fn put_block(entries: &mut Sequence<PathEntry>, at: usize, block: Sequence<PathEntry>)
    requires place { at ≤ length entries.old }
    requires fits { length entries.old + length block < 2 ^ 64 }
    ensures { entries.new ≡ take at entries.old ++ (block ++ drop at entries.old) }
{
    let tail = entries.split_off(at);
    entries.append(block);
    entries.append(tail);
}

// Adds an entry behind all others.
fn push(
    alloc: Global,
    entries: &mut Sequence<PathEntry>,
    entry: PathEntry,
) -> Result<(), AllocError>
    ensures { OnOk result (entries.new ≡ entries.old ++ entry ∷ []) }
{
    let count = entries.len();
    entries.insert(alloc, count, entry)
}

// How many entries have paths before a cut.
fn place(entries: &Sequence<PathEntry>, cut: &PathCut<'_>) -> usize
    requires { IsTrue (is_sorted path_cmp entries.now) }
    ensures place { result ≡ run (passes cut.now) entries.now }
    ensures fits { length entries.now < 2 ^ 64 }
{
    let mut rest = entries;
    // where the rest ends, among all entries
    let mut end = entries.len();
    'down: while let Some(Fork { left, item, right }) = rest.fork() {
        if cut.is_passed(item.names()) {
            rest = right;
        } else {
            end -= right.len() + 1;
            rest = left;
        }
    }
    end
}

// From where to where the entries stand that begin with a path.
fn block_bounds(entries: &Sequence<PathEntry>, names: &[Text]) -> (usize, usize)
    requires { IsTrue (is_sorted path_cmp entries.now) }
    ensures order { result.0 ≤ result.1 }
    ensures within { result.1 ≤ length entries.now }
    ensures block { take (result.1 - result.0) (drop result.0 entries.now) ≡ where_key path_cmp (begins_with names.now) entries.now }
    ensures rest { take result.0 entries.now ++ drop result.1 entries.now ≡ where_key path_cmp (λ k. not (begins_with names.now k)) entries.now }
    ensures fits { length entries.now < 2 ^ 64 }
{
    (place_of(entries, names), place_past(entries, names))
}
