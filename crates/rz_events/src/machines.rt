//! What the machines of clients and rebuilders ask, and what they are told.

use crate::{
    Denial, FetchAnswer, KeepAnswer, Key, LeftWhy, Listed, Published, ReadMark, RefillAnswer,
    ReplaceAnswer, WriteEnd,
};

/// What the write of a block asks next.
#[derive(Clone, Copy, Debug, PartialEq, Eq, Drop)]
pub enum WriterAsk {
    Begin {
        length: u32,
    },
    Keep {
        position: u8,
        node: u16,
        stamp: u64,
        base: u64,
    },
    Publish {
        stamp: u64,
        mask: u16,
    },
    End,
}

/// What the write of a block is told.
#[derive(Clone, Copy, Drop)]
pub enum WriterAnswer {
    Begun { stamp: u64, base: u64 },
    Denied(Denial),
    Kept(KeepAnswer),
    Missed,
    Accepted,
    Enrolled { position: u8, fence: u64 },
    Revoked { later: u64 },
}

/// What the read of a block asks next.
#[derive(Clone, Copy, Debug, PartialEq, Eq, Drop)]
pub enum ReaderAsk {
    Look,
    Fetch { position: u8, node: u16, stamp: u64 },
    Recheck,
    End,
}

/// What the read of a block is told.
#[derive(Clone, Copy, Drop)]
pub enum ReaderAnswer {
    Looked(Option<Published>),
    Denied(Denial),
    Fetched(FetchAnswer),
    Missed,
}

/// What a rebuild asks next.
#[derive(Clone, Copy, Debug, PartialEq, Eq, Drop)]
pub enum RebuildAsk {
    Probe,
    Enroll {
        loss: u64,
    },
    Replace {
        loss: u64,
        fence: u64,
    },
    Next {
        after: Option<Key>,
    },
    Fetch {
        key: Key,
        position: u8,
        node: u16,
        stamp: u64,
    },
    Refill {
        fence: u64,
        key: Key,
        stamp: u64,
        length: u32,
        position: u8,
        base: u64,
    },
    Recheck {
        key: Key,
    },
    Left {
        key: Key,
        why: LeftWhy,
    },
    End,
}

/// What a rebuild is told.
#[derive(Clone, Copy, Drop)]
pub enum RebuildAnswer {
    Probed(Option<u64>),
    Enrolled { fence: u64 },
    Denied(Denial),
    Replaced(ReplaceAnswer),
    Listed(Option<Listed>),
    Fetched(FetchAnswer),
    Refilled(RefillAnswer),
    Missed,
    Noted,
    Rechecked(Option<Published>),
}

/// What a write or read of a range of bytes asks next.
#[derive(Clone, Copy, Debug, PartialEq, Eq, Drop)]
pub enum FileAsk {
    Read { block: u64, ask: ReaderAsk },
    Write { block: u64, ask: WriterAsk },
    Got { block: u64, end: ReadMark },
    Gave { block: u64, end: WriteEnd },
    End,
}

/// What a write or read of a range of bytes is told.
#[derive(Clone, Copy, Drop)]
pub enum FileAnswer {
    Read(ReaderAnswer),
    Write(WriterAnswer),
    Noted,
}

/// How a write or read of a range of bytes ends.
#[derive(Clone, Copy, Debug, PartialEq, Eq, Drop)]
pub enum FileEnd {
    Whole { bytes: u64 },
    ShortWrite { bytes: u64, end: WriteEnd },
    ShortRead { bytes: u64, end: ReadMark },
}
