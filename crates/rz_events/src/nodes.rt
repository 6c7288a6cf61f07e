//! The calls of a storage node and its answers.

ghost use Rattle.std.specs.Prelude.{◌≡◌, ℕ};
ghost use Rattle.rz_events.specs.Nodes.{number_of};

use crate::{Head, Held, Key};

/// The three states of a node.
#[derive(Clone, Copy, Debug, PartialEq, Eq, Drop)]
pub enum Phase {
    Up,
    Down,
    Lost,
}

/// The answers to a keep.
#[derive(Clone, Copy, Debug, PartialEq, Eq, Drop)]
pub enum KeepAnswer {
    Kept,
    Passed { held: u64 },
    Lost,
    Down,
    Fenced { fence: u64 },
    Full,
    DiskFault,
}

/// The answers to a fetch.
#[derive(Clone, Copy, Debug, PartialEq, Eq, Drop)]
pub enum FetchAnswer {
    Held(Held),
    Nothing,
    Lost,
    Down,
    DiskFault,
}

/// The answers to a refill.
#[derive(Clone, Copy, Drop)]
pub enum RefillAnswer {
    Kept,
    Passed { held: u64 },
    Lost,
    Down,
    OtherFence { fence: u64 },
    Full,
    DiskFault,
}

/// The answers to a drop of a file's least block: which version went, or was to go, and whether the
/// file has another one here.
#[derive(Clone, Copy, Debug, PartialEq, Eq, Drop)]
pub enum DropAnswer {
    Dropped { block: u64, stamp: u64, more: bool },
    Nothing,
    Lost,
    Down,
    DiskFault { block: u64, stamp: u64 },
}

/// The fields of a disk's header, in the order in which an opening looks at them.
#[derive(Clone, Copy, Debug, PartialEq, Eq, Drop)]
pub enum HeaderField {
    Magic,
    Layout,
    Bsize,
    Node,
    Cells,
    Reserved,
}

/// Why a disk was not opened.
#[derive(Clone, Copy, Debug, PartialEq, Eq, Drop)]
pub enum OpenFault {
    NoMemory,
    WrongSize { have: u64, need: u64 },
    DiskFault,
    Unformatted,
    BadHeader { field: HeaderField, value: u64 },
    Damaged { cell: u32 },
    Twice { first: u32, second: u32 },
}

impl OpenFault {
    /// The number of the fault, 1 to 6 in the order of the variants; 0 for want of memory, which has
    /// no number.
    pub fn number(self) -> u8
        ensures { result ≡ number_of self }
    {
        match self {
            OpenFault::NoMemory => 0,
            OpenFault::WrongSize { .. } => 1,
            OpenFault::DiskFault => 2,
            OpenFault::Unformatted => 3,
            OpenFault::BadHeader { .. } => 4,
            OpenFault::Damaged { .. } => 5,
            OpenFault::Twice { .. } => 6,
        }
    }
}

/// The answers to a start: `took` says whether the disk has the change that was left undecided.
#[derive(Clone, Copy, Debug, PartialEq, Eq, Drop)]
pub enum StartAnswer {
    Started { took: bool },
    NotDown,
    NoMemory,
    Unopened(OpenFault),
}

/// The answers to a replacement of a lost disk.
#[derive(Clone, Copy, Debug, PartialEq, Eq, Drop)]
pub enum ReplaceAnswer {
    Replaced,
    NotLost,
    OtherLoss { loss: u64 },
    NoMemory,
    DiskFault,
}

/// A call of a node.
#[derive(Clone, Copy, Drop)]
pub enum NodeAsk {
    Keep(Head),
    Fetch { key: Key, position: u8, stamp: u64 },
    Refill { fence: u64, head: Head },
    Drop { fid: u128 },
    Probe,
    Stop,
    Start,
    Lose,
    Replace { loss: u64, fence: u64 },
}

/// The answer of a node, of the kind of the call.
#[derive(Clone, Copy, Drop)]
pub enum NodeAnswer {
    Keep(KeepAnswer),
    Fetch(FetchAnswer),
    Refill(RefillAnswer),
    Drop(DropAnswer),
    Probe(Option<u64>),
    Stop(bool),
    Start(StartAnswer),
    Lose(Option<u64>),
    Replace(ReplaceAnswer),
}
