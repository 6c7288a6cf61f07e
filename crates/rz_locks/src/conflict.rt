//! Ranges, kinds of locks, and which locks conflict.
ghost use Rattle.std.specs.Prelude.{◌≡◌, ◌↔◌, IsTrue};

/// Whether a lock leaves others their shared locks on the same bytes.
#[derive(Clone, Copy, Debug, PartialEq, Eq)]
pub enum LockKind {
    Shared,
    Exclusive,
}

/// The `length` bytes of a file from byte `from` on. An empty range has no byte.
#[derive(Clone, Copy, Debug, PartialEq, Eq)]
pub struct Range {
    pub fid: u128,
    pub from: u64,
    pub length: u64,
}

/// What comes of asking for a lock. `Busy` names the least owner whose lock is in the way.
#[derive(Clone, Copy, Debug, PartialEq, Eq)]
pub enum LockAnswer {
    Granted,
    Busy { owner: u8 },
}

/// A lock that an owner holds or asks for.
#[derive(Clone, Copy)]
pub(crate) struct Lock {
    pub(crate) range: Range,
    pub(crate) kind: LockKind,
}

impl Range {
    ghost use Rattle.rz_locks.specs.Conflicts.{SharesByte};

    /// Whether the ranges have a byte of one file in common. Such a byte is the first of the range
    /// that begins later. No end is computed, since it may lie past the last value of a u64.
    fn shares_byte(&self, other: &Range) -> bool
        ensures { IsTrue result ↔ SharesByte self.now other.now }
    {
        let (first, later) = if self.from <= other.from {
            (self, other)
        } else {
            (other, self)
        };
        self.fid == other.fid && later.length > 0 && later.from - first.from < first.length
    }
}

impl Lock {
    ghost use Rattle.rz_locks.specs.Conflicts.{Conflict};

    /// Whether the locks share a byte and one of them is exclusive.
    pub(crate) fn conflicts(&self, other: &Lock) -> bool
        ensures { IsTrue result ↔ Conflict self.now other.now }
    {
        let exclusive = self.kind == LockKind::Exclusive || other.kind == LockKind::Exclusive;
        exclusive && self.range.shares_byte(&other.range)
    }
}
