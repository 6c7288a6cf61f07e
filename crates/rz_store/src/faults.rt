//! Why a call does not do what it is asked.

use rz_events::{OpenFault, RebuildEnd, Seen, TreeFault, Why};
use rz_store_turns::Stop;
use std::alloc::AllocError;

/// Why a call on names is not done. Nothing is changed.
#[derive(Clone, Copy, Drop)]
pub enum NameFault {
    /// The first fault that the names have for the call.
    Names(TreeFault),
    /// The answer was none to the call. Over disks that tell what they hold it never is.
    Disturbed,
    Stopped(Stop),
}

/// Why a block is not read. Nothing is changed.
#[derive(Clone, Copy, Drop)]
pub enum ReadFault {
    /// The path leads to no file.
    Names(TreeFault),
    /// A file has no such block.
    TooFar,
    /// Too few nodes gave their record: what came of each position.
    TooFew([Seen; 16]),
    /// The records that came are not those of one block. Over disks that tell what they hold they always are.
    Altered,
    /// Somebody else wrote the block, or the answer was none to the call.
    Disturbed,
    Stopped(Stop),
}

/// Why a block is not written. Nothing is changed.
#[derive(Clone, Copy, Drop)]
pub enum WriteFault {
    /// The path leads to no file.
    Names(TreeFault),
    /// A file has no such block.
    TooFar,
    /// The last number of a write was drawn.
    StampsSpent,
    /// Too few nodes took their record: what came of each position.
    TooFew([Why; 16]),
    /// A part of the block is to stay, and could not be read.
    Unread(ReadFault),
    /// Somebody else wrote the block, or the answer was none to the call.
    Disturbed,
    Stopped(Stop),
}

/// Why a node is not started. Users see no difference.
#[derive(Clone, Copy, Drop)]
pub enum StartFault {
    /// The volume has no node of this number.
    NoSuchNode,
    /// It is up, or its disk is lost.
    NotDown,
    /// Its disk is away, or does not open.
    Unopened(OpenFault),
    NoMemory,
}

/// Why a node has no new disk with all that it is to hold. Users see no difference.
#[derive(Clone, Copy, Drop)]
pub enum ReplaceFault {
    /// The volume has no node of this number. The new disk comes back.
    NoSuchNode,
    /// It lost 2^64 - 1 disks, the most that can be counted. The new disk comes back.
    LossesSpent,
    /// Memory was wanting before anything was done. The new disk comes back.
    NoMemory,
    /// The node lost its disk, and the new one is in its place, but its rebuild was stopped. Another replacement
    /// begins anew.
    Stopped(Stop),
    /// So it is, but the rebuild ended so.
    Ended(RebuildEnd),
}

impl From<Stop> for NameFault {
    ghost use Rattle.std.specs.Prelude.{◌≡◌};
    ghost use Rattle.rz_store.specs.declared.faults.NameFault.TheVariants.{Stopped};

    ghost from_gives = { λ why e. e ≡ Stopped why };

    fn from(why: Stop) -> NameFault {
        NameFault::Stopped(why)
    }
}

impl From<AllocError> for NameFault {
    ghost use Rattle.std.specs.Prelude.{◌≡◌};
    ghost use Rattle.rz_store.specs.declared.faults.NameFault.TheVariants.{Stopped};
    ghost use Rattle.rz_store_turns.specs.declared.sole.Stop.TheVariants.{NoMemory};

    ghost from_gives = { λ _ e. e ≡ Stopped NoMemory };

    fn from(_error: AllocError) -> NameFault {
        NameFault::Stopped(Stop::NoMemory)
    }
}

impl From<Stop> for ReadFault {
    ghost use Rattle.std.specs.Prelude.{◌≡◌};
    ghost use Rattle.rz_store.specs.declared.faults.ReadFault.TheVariants.{Stopped};

    ghost from_gives = { λ why e. e ≡ Stopped why };

    fn from(why: Stop) -> ReadFault {
        ReadFault::Stopped(why)
    }
}

impl From<AllocError> for ReadFault {
    ghost use Rattle.std.specs.Prelude.{◌≡◌};
    ghost use Rattle.rz_store.specs.declared.faults.ReadFault.TheVariants.{Stopped};
    ghost use Rattle.rz_store_turns.specs.declared.sole.Stop.TheVariants.{NoMemory};

    ghost from_gives = { λ _ e. e ≡ Stopped NoMemory };

    fn from(_error: AllocError) -> ReadFault {
        ReadFault::Stopped(Stop::NoMemory)
    }
}

impl From<Stop> for WriteFault {
    ghost use Rattle.std.specs.Prelude.{◌≡◌};
    ghost use Rattle.rz_store.specs.declared.faults.WriteFault.TheVariants.{Stopped};

    ghost from_gives = { λ why e. e ≡ Stopped why };

    fn from(why: Stop) -> WriteFault {
        WriteFault::Stopped(why)
    }
}

impl From<AllocError> for WriteFault {
    ghost use Rattle.std.specs.Prelude.{◌≡◌};
    ghost use Rattle.rz_store.specs.declared.faults.WriteFault.TheVariants.{Stopped};
    ghost use Rattle.rz_store_turns.specs.declared.sole.Stop.TheVariants.{NoMemory};

    ghost from_gives = { λ _ e. e ≡ Stopped NoMemory };

    fn from(_error: AllocError) -> WriteFault {
        WriteFault::Stopped(Stop::NoMemory)
    }
}

impl From<ReadFault> for WriteFault {
    ghost use Rattle.std.specs.Prelude.{◌≡◌};
    ghost use Rattle.rz_store.specs.declared.faults.WriteFault.TheVariants.{Unread};

    ghost from_gives = { λ fault e. e ≡ Unread fault };

    fn from(fault: ReadFault) -> WriteFault {
        WriteFault::Unread(fault)
    }
}
