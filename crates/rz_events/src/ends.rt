//! How writes, reads and rebuilds end.

use crate::Text;

/// Why the export denied what was asked.
#[derive(Clone, Copy, Debug, PartialEq, Eq, Drop)]
pub enum Denial {
    UnknownFile,
    BlockTooFar,
    StampsSpent,
    /// A greater loss of the node is enrolled.
    OldLoss { kept: u64 },
}

/// What came of a position in a write, and why a node refused a call.
#[derive(Clone, Copy, Debug, PartialEq, Eq, Drop)]
pub enum Why {
    NotAsked,
    Kept,
    Passed,
    Down,
    Lost,
    Fenced,
    Full,
    DiskFault,
    Missed,
    Enrolled,
    OtherFence,
    NotLost,
    OtherLoss,
}

/// What came of a position in a read.
#[derive(Clone, Copy, Debug, PartialEq, Eq, Drop)]
pub enum Seen {
    NotAsked,
    Held,
    Nothing,
    Down,
    Lost,
    DiskFault,
    Missed,
}

/// How the write of a block ends.
#[derive(Clone, Copy, Debug, PartialEq, Eq, Drop)]
pub enum WriteEnd {
    Acked { stamp: u64, mask: u16 },
    TooFew { why: [Why; 16] },
    Denied(Denial),
    Revoked { later: u64 },
}

/// How the read of a block ends, without the text that was found.
#[derive(Clone, Copy, Debug, PartialEq, Eq, Drop)]
pub enum ReadMark {
    Found { stamp: u64, length: u32 },
    Hole,
    TooFew { seen: [Seen; 16] },
    Inconsistent,
    Denied(Denial),
    Moved { was: u64, now: u64 },
}

/// How the read of a block ends.
#[derive(Drop)]
pub enum ReadEnd {
    Found { stamp: u64, text: Text },
    Hole,
    TooFew { seen: [Seen; 16] },
    Inconsistent,
    Denied(Denial),
    Moved { was: u64, now: u64 },
}

/// Why a rebuild left a block.
#[derive(Clone, Copy, Debug, PartialEq, Eq, Drop)]
pub enum LeftWhy {
    TooFew,
    Inconsistent,
    Missed,
    Down,
    Full,
    DiskFault,
    Denied(Denial),
}

/// How the rebuild of a node ends.
#[derive(Clone, Copy, Debug, PartialEq, Eq, Drop)]
pub enum RebuildEnd {
    Rebuilt {
        fence: u64,
        refilled: u64,
    },
    Left {
        fence: u64,
        refilled: u64,
        left: u64,
    },
    NotLost,
    OtherLoss {
        loss: u64,
    },
    OtherFence {
        fence: u64,
    },
    LostAgain,
    DiskFault,
    Denied(Denial),
}
