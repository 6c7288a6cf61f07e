//! A row of 64 blocks that stand next to each other in a file.

ghost use Rattle.std.specs.Prelude.{ℕ, ◌≡◌, ◌<◌, ◌≤◌, ◌/◌, ◌%◌, ◌^◌, ◌==◌, true, false, not, cond, nat_lt, MatchOption};
ghost use Rattle.std.specs.Ordering.{is_lt};
ghost use Rattle.rz_events.specs.Keys.{key_cmp};
ghost use Rattle.rz_events.specs.declared.keys.Key.{Key};
ghost use Rattle.rz_events.specs.Masks.{has_bit};
ghost use Rattle.rz_blocks.specs.Rows.{rank, rank_of, is_upto, is_marked_in, IsClear, IsSmall};

use rz_events::Key;
use rz_sequence::Mark;

/// Which of 64 blocks are marked in a list, a bit for each.
#[derive(Clone, Copy, Drop)]
pub struct Row {
    /// The number of the list.
    pub list: u16,
    /// The number of the file.
    pub fid: u128,
    /// The number of the row in the file, counted from 0.
    pub index: u64,
    /// The marks, the lowest bit for the first block.
    pub word: u64,
}

impl Mark for Row {
    ghost is_marked = { λ row. not (row.word == 0) };

    fn is_marked(&self) -> bool {
        self.word != 0
    }
}

impl Row {
    /// The row of a block in a list, with no marks.
    pub fn bare(list: u16, key: Key) -> Row
        ensures rank { rank result ≡ rank_of list key }
        ensures small { IsSmall result }
        ensures list { result.list ≡ list }
        ensures fid { result.fid ≡ key.fid }
        ensures index { result.index ≡ key.block / 64 }
        ensures word { result.word ≡ 0 }
    {
        Row {
            list,
            fid: key.fid,
            index: key.block / 64,
            word: 0,
        }
    }

    /// Whether the row stands before another: by the list, then the file, then the index.
    pub fn is_before(self, other: Row) -> bool
        ensures { result ≡ nat_lt (rank self) (rank other) }
    {
        if self.list != other.list {
            return self.list < other.list;
        }
        if self.fid != other.fid {
            return self.fid < other.fid;
        }
        self.index < other.index
    }

    /// Whether the row is of the same blocks as another, and of the same list.
    pub fn is_same(self, other: Row) -> bool
        ensures { result ≡ (rank self == rank other) }
    {
        self.list == other.list && self.fid == other.fid && self.index == other.index
    }

    /// The row after the block at a place of it is marked, or its mark is taken away.
    pub fn with_mark(self, place: u32, marked: bool) -> Row
        requires { place < 64 }
        ensures list { result.list ≡ self.list }
        ensures fid { result.fid ≡ self.fid }
        ensures index { result.index ≡ self.index }
        ensures word { (b : ℕ) → b < 64 → has_bit result.word b ≡ cond (b == place) marked (has_bit self.word b) }
        ensures fits { result.word < 2 ^ 64 }
    {
        Row {
            word: with_bit(self.word, place, marked),
            ..self
        }
    }

    /// The least block from `first` on that is marked in the row, where this is one of the list.
    pub fn first_marked(self, list: u16, first: Key) -> Option<Key>
        requires index { self.index < 2 ^ 58 }
        requires from { rank_of list first ≤ rank self }
        ensures { MatchOption result
            ((q : Key) → is_upto first q ≡ true → is_marked_in list q self ≡ false)
            (λ k. (is_upto first k ≡ true) × (is_marked_in list k self ≡ true) × ((q : Key) → is_upto first q ≡ true → is_lt (key_cmp q k) ≡ true → is_marked_in list q self ≡ false)) }
    {
        if self.list != list {
            return None;
        }
        let place = first_bit(self.word, self.place_from(first))?;
        Some(Key {
            fid: self.fid,
            block: self.index * 64 + u64::from(place),
        })
    }

    // The place in the row of the first block that is `first` or stands above it.
    fn place_from(&self, first: Key) -> u32
        ensures { result ≡ cond (self.now.fid == first.fid) (cond (self.now.index == first.block / 64) (first.block % 64) 0) 0 }
    {
        if self.fid == first.fid && self.index == first.block / 64 {
            place_of(first)
        } else {
            0
        }
    }
}

/// The place of a block in its row.
pub fn place_of(key: Key) -> u32
    ensures { result ≡ key.block % 64 }
{
    (key.block % 64) as u32
}

// A word with one bit set or cleared.
fn with_bit(word: u64, place: u32, is_set: bool) -> u64
    requires { place < 64 }
    ensures { (b : ℕ) → b < 64 → has_bit result b ≡ cond (b == place) is_set (has_bit word b) }
{
    if is_set {
        word | 1 << place
    } else {
        word & !(1 << place)
    }
}

// The least bit of a word that is set, from a place on.
fn first_bit(word: u64, from: u32) -> Option<u32>
    requires { from < 64 }
    ensures { MatchOption result (IsClear word from 64) (λ b. (from ≤ b) × (b < 64) × (has_bit word b ≡ true) × IsClear word from b) }
{
    let above = word & (u64::MAX << from);
    if above == 0 {
        None
    } else {
        Some(above.trailing_zeros())
    }
}
