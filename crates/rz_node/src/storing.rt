//! The rule by which a record is stored, and how that ends.
ghost use Rattle.std.specs.Prelude.{◌≡◌, ◌<◌, ℕ, Some};
ghost use Rattle.rz_versions.specs.Sides.{in_order, side_for, room, Differ};
ghost use Rattle.rz_versions.specs.Sides as sides;

use rz_events::{Held, KeepAnswer, Key, RefillAnswer};
use rz_node_model::Pending;
use rz_versions::{Room, Version, Versions};

/// Who stores a record: a writer keeps it, or a rebuilder fills it in again.
#[derive(Clone, Copy, Drop)]
pub(crate) enum Rule {
    Keep,
    Refill,
}

impl Rule {
    ghost use Rattle.rz_node.specs.Stores.{passes, gives_way, change_by};

    /// Where a new version goes.
    pub(crate) fn room(self, versions: &Versions, new: Version) -> Room
        ensures room { result ≡ room (passes self sides.version_stamp sides.version_base new.stamp (in_order sides.version_stamp versions.now)) (side_for sides.version_stamp (gives_way self new.base) versions.now) }
        ensures side { (side : ℕ) → result ≡ Room.Put side → side < 2 }
        ensures other { (side : ℕ) → result ≡ Room.Put side → Differ sides.version_stamp (sides.other versions.now side) (Some new) }
    {
        match self {
            Rule::Keep => versions.for_keep(new),
            Rule::Refill => versions.for_refill(new),
        }
    }

    /// The change that a disk fault leaves undecided.
    pub(crate) fn change(self, key: Key, held: Held) -> Pending
        ensures { result ≡ change_by self key held }
    {
        match self {
            Rule::Keep => Pending::Keep { key, record: held },
            Rule::Refill => Pending::Refill { key, record: held },
        }
    }
}

/// How the storing of a record ended.
#[derive(Clone, Copy, Drop)]
pub(crate) enum Stored {
    Kept,
    /// It was passed over: this is the greatest stamp held.
    Passed { held: u64 },
    /// Every pair holds another key.
    Full,
    DiskFault,
}

impl Stored {
    ghost use Rattle.rz_node.specs.Stores.{keep_of, refill_of};

    /// The answer to a writer.
    pub(crate) fn keep_answer(self) -> KeepAnswer
        ensures { result ≡ keep_of self }
    {
        match self {
            Stored::Kept => KeepAnswer::Kept,
            Stored::Passed { held } => KeepAnswer::Passed { held },
            Stored::Full => KeepAnswer::Full,
            Stored::DiskFault => KeepAnswer::DiskFault,
        }
    }

    /// The answer to a rebuilder.
    pub(crate) fn refill_answer(self) -> RefillAnswer
        ensures { result ≡ refill_of self }
    {
        match self {
            Stored::Kept => RefillAnswer::Kept,
            Stored::Passed { held } => RefillAnswer::Passed { held },
            Stored::Full => RefillAnswer::Full,
            Stored::DiskFault => RefillAnswer::DiskFault,
        }
    }
}
