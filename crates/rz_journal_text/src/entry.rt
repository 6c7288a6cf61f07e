//! What an entry of a journal says.

use rz_events::{Key, TreeCall};
use rz_tree::Part;

/// A call that changed the export, or a part of the export from which the calls go on.
#[derive(Drop)]
pub enum JournalEntry {
    Tree(TreeCall),
    /// A write of a block began, whose text has so many bytes.
    Begin {
        key: Key,
        bytes: u32,
    },
    Publish {
        key: Key,
        stamp: u64,
        mask: u16,
        bytes: u32,
    },
    Enroll {
        node: u16,
        loss: u64,
    },
    /// The export has this part.
    Built(Part),
}
