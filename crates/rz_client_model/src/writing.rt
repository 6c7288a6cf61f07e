//! What a write of a block knows.

use rz_events::{Key, Layout, Places, Why, WriteEnd};

/// The write of a block, between two answers.
#[derive(Clone, Copy, Debug, PartialEq, Eq, Drop)]
pub struct WriterState {
    pub layout: Layout,
    /// The block that is written.
    pub key: Key,
    /// The node of each position.
    pub places: Places,
    /// The length of the text in bytes.
    pub length: u32,
    pub stage: WriteStage,
}

/// How far a write has come.
#[derive(Clone, Copy, Debug, PartialEq, Eq, Drop)]
pub enum WriteStage {
    /// It has no stamp yet.
    Beginning,
    /// It sends its records, or publishes them.
    Sending(SentRecords),
    Ended(WriteEnd),
}

/// The records of a write that were sent so far, to the positions in ascending order.
#[derive(Clone, Copy, Debug, PartialEq, Eq, Drop)]
pub struct SentRecords {
    pub stamp: u64,
    pub base: u64,
    /// So many positions have the record.
    pub kept: u8,
    /// So many positions have failed.
    pub failed: u8,
    /// What came of each position.
    pub why: [Why; 16],
}
