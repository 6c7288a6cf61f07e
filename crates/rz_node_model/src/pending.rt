//! A change that was left undecided.

use rz_events::{Held, Key};

/// A change that a disk fault left undecided, with what a start needs that finds it on the disk.
#[derive(Clone, Copy, Debug, PartialEq, Eq, Drop)]
pub enum Pending {
    /// A writer's record.
    Keep { key: Key, record: Held },
    /// A rebuilder's record.
    Refill { key: Key, record: Held },
    /// The version of the key that was to go.
    Drop { key: Key, stamp: u64 },
}
