//! What a read of a block knows.

use rz_events::{Key, Layout, Places, ReadMark, Seen};

/// The read of a block, between two answers.
#[derive(Clone, Copy, Debug, PartialEq, Eq, Drop)]
pub struct ReaderState {
    pub layout: Layout,
    /// The block that is read.
    pub key: Key,
    /// The node of each position.
    pub places: Places,
    pub stage: ReadStage,
}

/// How far a read has come.
#[derive(Clone, Copy, Debug, PartialEq, Eq, Drop)]
pub enum ReadStage {
    /// It does not know yet what is published.
    Looking,
    /// It fetches records, or looks once more where all positions were asked.
    Fetching(Fetches),
    Ended(ReadMark),
}

/// The fetches of a read so far.
#[derive(Clone, Copy, Debug, PartialEq, Eq, Drop)]
pub struct Fetches {
    /// The published stamp, of which records are wanted.
    pub stamp: u64,
    /// The published positions.
    pub mask: u16,
    /// The positions that were not asked yet.
    pub left: u16,
    /// So many positions gave a record of the stamp.
    pub given: u8,
    /// The length that the first of these records told, or 0.
    pub length: u32,
    /// What came of each position.
    pub seen: [Seen; 16],
}
