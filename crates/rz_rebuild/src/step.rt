//! How far a rebuild has come.

use rz_events::{Key, LeftWhy, Listed, RebuildEnd};

/// How far a rebuild has come, but for the read of its block.
#[derive(Clone, Copy, Drop)]
pub enum RebuildStep {
    /// It asks whether the node has lost its disk.
    Probing,
    Enrolling {
        loss: u64,
    },
    Replacing {
        loss: u64,
        fence: u64,
    },
    /// It asks which block is next.
    Listing(RebuildProgress),
    /// It reads the block.
    Copying(Copied),
    /// It refills the block with a record of this length.
    Refilling {
        copied: Copied,
        length: u32,
    },
    /// It says that it leaves the block.
    Leaving {
        tally: RebuildProgress,
        key: Key,
        why: LeftWhy,
    },
    Ended(RebuildEnd),
}

/// What a rebuild has done so far.
#[derive(Clone, Copy, Drop)]
pub struct RebuildProgress {
    /// The fence of the replacement.
    pub fence: u64,
    /// The last key that is done.
    pub after: Option<Key>,
    /// So many blocks were refilled.
    pub refilled: u64,
    /// So many blocks were left.
    pub left: u64,
}

/// The block in hand of a rebuild.
#[derive(Clone, Copy, Drop)]
pub struct Copied {
    pub tally: RebuildProgress,
    pub listed: Listed,
    /// The base of the first record that came, or 0.
    pub base: u64,
}
