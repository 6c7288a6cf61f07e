//! A row of nodes, and the trees that stand in it.

ghost use Rattle.std.specs.Prelude.{ℕ, ◌≡◌, ◌≢◌, ◌<◌, ◌≤◌, [], ◌∷◌, ◌++◌, List, Option, Some, None, length, not, MatchOption, IsSome};
ghost use Rattle.std.specs.Option.{option_map};
ghost use Rattle.std.specs.List as lists;
ghost use Rattle.std.specs.Ordering.{eq_by_cmp};
ghost use Rattle.std.specs.FinMap.Entries.{find, put, where_key};
ghost use Rattle.rz_events.specs.Keys.{key_cmp};
ghost use Rattle.rz_index.specs.declared.index.Entry.{Entry};
ghost use Rattle.rz_index.specs.Indexed.{pairs_of, IsSorted};
ghost use Rattle.rz_index.specs.Files.{first_among};
ghost use Rattle.rz_index.specs.Standing.{Holds, Links, Part, Tree, Lone, IsOpened, IsSplit, IsTreeOf, IsThere, freed_part};

use crate::index::Entry;
use crate::packed::Packed;
use rz_events::Key;
use std::cmp::Ordering;

/// An entry with the links to those before it and behind it, in 72 bytes. A link is a place in the row, and
/// 0 leads nowhere: the node at that place is never used.
#[derive(Drop)]
pub struct IndexNode {
    pub packed: Packed,
    pub left: u32,
    pub right: u32,
}

// ---- reading

// The height of a link's tree. Only time rests on it, so no clause tells it.
fn height(row: &[IndexNode], link: u32) -> u8 {
    if link == 0 || link as usize >= row.len() {
        0
    } else {
        row[link as usize].packed.height()
    }
}

// The links of a node, where there is one.
fn sides(row: &[IndexNode], link: u32) -> Option<(u32, u32)>
    ensures { (entries : List Entry) (parts : List Part) → Holds row.now (Tree link entries ∷ parts) → MatchOption result (entries ≡ []) (λ s. IsOpened row.now link entries parts s.0 s.1) }
{
    if link == 0 || link as usize >= row.len() {
        return None;
    }
    let node = &row[link as usize];
    Some((node.left, node.right))
}

// The same of a tree of at most so many entries.
fn sides_within(row: &[IndexNode], link: u32, room: usize) -> Option<(u32, u32)>
    ensures sides { (entries : List Entry) (parts : List Part) → Holds row.now (Tree link entries ∷ parts) → length entries ≤ room → MatchOption result (entries ≡ []) (λ s. IsOpened row.now link entries parts s.0 s.1) }
    ensures room { IsSome result → 0 < room }
{
    if room == 0 { None } else { sides(row, link) }
}

/// The entry of a node.
pub fn entry_at(row: &[IndexNode], place: u32) -> Option<Entry>
    ensures { (e : Entry) (parts : List Part) → Holds row.now (Lone place e ∷ parts) → result ≡ Some e }
{
    if (place as usize) < row.len() {
        Some(row[place as usize].packed.entry())
    } else {
        None
    }
}

// How a key stands to that of a node.
fn compare(row: &[IndexNode], place: u32, key: Key) -> Ordering
    ensures { (e : Entry) (parts : List Part) → Holds row.now (Lone place e ∷ parts) → result ≡ key_cmp key e.key }
{
    if (place as usize) < row.len() {
        row[place as usize].packed.compare(key)
    } else {
        Ordering::Equal
    }
}

/// The entry of a key, in a tree of at most so many entries.
pub fn find(row: &[IndexNode], link: u32, key: Key, room: usize) -> Option<Entry>
    ensures { (entries : List Entry) (parts : List Part) → Holds row.now (Tree link entries ∷ parts) → IsSorted entries → length entries ≤ room → result ≡ find key_cmp key (pairs_of entries) }
{
    let (left, right) = sides_within(row, link, room)?;
    match compare(row, link, key) {
        Ordering::Less => find(row, left, key, room - 1),
        Ordering::Equal => entry_at(row, link),
        Ordering::Greater => find(row, right, key, room - 1),
    }
}

/// The first entry of a file, in a tree of at most so many entries.
pub fn first_of(row: &[IndexNode], link: u32, fid: u128, room: usize) -> Option<Entry>
    ensures { (entries : List Entry) (parts : List Part) → Holds row.now (Tree link entries ∷ parts) → IsSorted entries → length entries ≤ room → result ≡ first_among fid entries }
{
    let (left, right) = sides_within(row, link, room)?;
    let middle = entry_at(row, link)?;
    if middle.key.fid < fid {
        return first_of(row, right, fid, room - 1);
    }
    let before = first_of(row, left, fid, room - 1);
    if before.is_none() && middle.key.fid == fid {
        Some(middle)
    } else {
        before
    }
}

// ---- writing

// Links two trees below a node, which is then of this height.
fn link(row: &mut [IndexNode], left: u32, middle: u32, right: u32, height: u8) -> u32
    ensures { Links row.old row.new left middle right result }
{
    if (middle as usize) < row.len() {
        let node = &mut row[middle as usize];
        node.left = left;
        node.right = right;
        node.packed.set_height(height);
    }
    middle
}

/// Writes the entry of a node.
pub fn set_entry(row: &mut [IndexNode], place: u32, entry: &Entry)
    ensures { (e : Entry) (parts : List Part) → Holds row.old (Lone place e ∷ parts) → Holds row.new (Lone place entry.now ∷ parts) }
{
    if (place as usize) < row.len() {
        let node = &mut row[place as usize];
        node.packed = Packed::new(entry, node.packed.height());
    }
}

/// Links two trees below a node.
pub fn linked(row: &mut [IndexNode], left: u32, middle: u32, right: u32) -> u32
    ensures { Links row.old row.new left middle right result }
{
    let higher = height(row, left).max(height(row, right));
    link(row, left, middle, right, higher.saturating_add(1))
}

// The same where a side may have changed its height by one.
fn settled(row: &mut [IndexNode], left: u32, middle: u32, right: u32, changed: bool) -> u32
    ensures { Links row.old row.new left middle right result }
{
    if changed {
        balanced(row, left, middle, right)
    } else {
        let height = height(row, middle);
        link(row, left, middle, right, height)
    }
}

// The same where one side may be two levels higher than the other.
fn balanced(row: &mut [IndexNode], left: u32, middle: u32, right: u32) -> u32
    ensures { Links row.old row.new left middle right result }
{
    if is_higher(row, left, right) {
        rotated_right(row, left, middle, right)
    } else if is_higher(row, right, left) {
        rotated_left(row, left, middle, right)
    } else {
        linked(row, left, middle, right)
    }
}

// Whether a side is so much higher than the other that the node above them may not stand so.
fn is_higher(row: &[IndexNode], side: u32, other: u32) -> bool {
    height(row, side) > height(row, other).saturating_add(1)
}

// The same where the left side is two levels higher.
fn rotated_right(row: &mut [IndexNode], left: u32, middle: u32, right: u32) -> u32
    ensures { Links row.old row.new left middle right result }
{
    let Some((outer, inner)) = sides(row, left) else {
        return linked(row, left, middle, right);
    };
    if height(row, outer) < height(row, inner) {
        if let Some((front, back)) = sides(row, inner) {
            let low = linked(row, outer, left, front);
            let high = linked(row, back, middle, right);
            return linked(row, low, inner, high);
        }
    }
    let high = linked(row, inner, middle, right);
    linked(row, outer, left, high)
}

// The same where the right side is two levels higher.
fn rotated_left(row: &mut [IndexNode], left: u32, middle: u32, right: u32) -> u32
    ensures { Links row.old row.new left middle right result }
{
    let Some((inner, outer)) = sides(row, right) else {
        return linked(row, left, middle, right);
    };
    if height(row, outer) < height(row, inner) {
        if let Some((front, back)) = sides(row, inner) {
            let low = linked(row, left, middle, front);
            let high = linked(row, back, right, outer);
            return linked(row, low, inner, high);
        }
    }
    let low = linked(row, left, middle, inner);
    linked(row, low, right, outer)
}

/// The node of the first entry of a tree of at most so many, and the tree of the others.
pub fn split_first(row: &mut [IndexNode], link: u32, room: usize) -> Option<(u32, u32)>
    ensures { (entries : List Entry) (parts : List Part) → Holds row.old (Tree link entries ∷ parts) → length entries ≤ room
        → MatchOption result ((entries ≡ []) × Holds row.new parts) (λ s. IsSplit row.new entries parts s.0 s.1) }
{
    let (left, right) = sides_within(row, link, room)?;
    match split_first(row, left, room - 1) {
        None => Some((link, right)),
        Some((first, rest)) => Some((first, balanced(row, rest, link, right))),
    }
}

/// One tree behind the other, which is of at most so many entries, where neither is two levels higher.
pub fn merged(row: &mut [IndexNode], front: u32, back: u32, room: usize) -> u32
    ensures { (l r : List Entry) (parts : List Part) → Holds row.old (Tree front l ∷ Tree back r ∷ parts) → length r ≤ room → Holds row.new (Tree result (l ++ r) ∷ parts) }
{
    match split_first(row, back, room) {
        None => front,
        Some((first, rest)) => balanced(row, front, first, rest),
    }
}

/// The entries of a tree of at most so many, with that of a node behind them.
pub fn with_last(row: &mut [IndexNode], link: u32, node: u32, room: usize) -> u32
    ensures { (entries : List Entry) (e : Entry) (parts : List Part) → Holds row.old (Tree link entries ∷ Lone node e ∷ parts) → length entries ≤ room → Holds row.new (Tree result (entries ++ e ∷ []) ∷ parts) }
{
    let Some((left, right)) = sides_within(row, link, room) else {
        return linked(row, 0, node, 0);
    };
    let right = with_last(row, right, node, room - 1);
    balanced(row, left, link, right)
}

/// The entries of a tree of at most so many, with that of a node, whose key is none of theirs.
pub fn insert(row: &mut [IndexNode], link: u32, node: u32, key: Key, room: usize) -> u32
    ensures { (entries : List Entry) (e : Entry) (parts : List Part) → Holds row.old (Tree link entries ∷ Lone node e ∷ parts) → e.key ≡ key → IsSorted entries → length entries ≤ room
        → find key_cmp e.key (pairs_of entries) ≡ None → IsTreeOf row.new result (put key_cmp e.key e (pairs_of entries)) parts }
{
    let Some((left, right)) = sides_within(row, link, room) else {
        return linked(row, 0, node, 0);
    };
    match compare(row, link, key) {
        Ordering::Less => {
            let before = height(row, left);
            let left = insert(row, left, node, key, room - 1);
            let changed = height(row, left) != before;
            settled(row, left, link, right, changed)
        }
        Ordering::Equal => link,
        Ordering::Greater => {
            let before = height(row, right);
            let right = insert(row, right, node, key, room - 1);
            let changed = height(row, right) != before;
            settled(row, left, link, right, changed)
        }
    }
}

/// The entries of a tree of at most so many, with this one in the place of that of its key.
pub fn replace(row: &mut [IndexNode], link: u32, entry: &Entry, room: usize) -> u32
    ensures { (entries : List Entry) (parts : List Part) → Holds row.old (Tree link entries ∷ parts) → IsSorted entries → length entries ≤ room
        → find key_cmp entry.now.key (pairs_of entries) ≢ None → IsTreeOf row.new result (put key_cmp entry.now.key entry.now (pairs_of entries)) parts }
{
    let Some((left, right)) = sides_within(row, link, room) else {
        return link;
    };
    match compare(row, link, entry.key) {
        Ordering::Less => {
            let left = replace(row, left, entry, room - 1);
            settled(row, left, link, right, false)
        }
        Ordering::Equal => {
            set_entry(row, link, entry);
            settled(row, left, link, right, false)
        }
        Ordering::Greater => {
            let right = replace(row, right, entry, room - 1);
            settled(row, left, link, right, false)
        }
    }
}

/// The entries of a tree of at most so many without that of a key, and its node, or 0 where there is none.
pub fn take(row: &mut [IndexNode], link: u32, key: Key, room: usize) -> (u32, u32)
    ensures node { (entries : List Entry) (parts : List Part) → Holds row.old (Tree link entries ∷ parts) → IsSorted entries → length entries ≤ room → IsThere (find key_cmp key (pairs_of entries)) result.1 }
    ensures entries { (entries : List Entry) (parts : List Part) → Holds row.old (Tree link entries ∷ parts) → IsSorted entries → length entries ≤ room
        → IsTreeOf row.new result.0 (where_key key_cmp (λ k. not (eq_by_cmp key_cmp key k)) (pairs_of entries)) (freed_part (find key_cmp key (pairs_of entries)) result.1 parts) }
{
    let Some((left, right)) = sides_within(row, link, room) else {
        return (link, 0);
    };
    match compare(row, link, key) {
        Ordering::Less => {
            let before = height(row, left);
            let (left, node) = take(row, left, key, room - 1);
            let changed = height(row, left) != before;
            (settled(row, left, link, right, changed), node)
        }
        Ordering::Equal => (merged(row, left, right, room - 1), link),
        Ordering::Greater => {
            let before = height(row, right);
            let (right, node) = take(row, right, key, room - 1);
            let changed = height(row, right) != before;
            (settled(row, left, link, right, changed), node)
        }
    }
}
