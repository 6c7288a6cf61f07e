//! Records of blocks on nodes, and the changes that nodes make.

use crate::{Key, Layout};

/// The head of a record: which write's projection at which position it holds.
#[derive(Clone, Copy, Debug, PartialEq, Eq, Drop)]
pub struct Head {
    /// The stamp of the write; never 0.
    pub stamp: u64,
    /// The block.
    pub key: Key,
    /// The layout of the volume.
    pub layout: Layout,
    /// The byte of the block size, which is the layout's own.
    pub bsize: u8,
    /// The position, below the layout's `safe`.
    pub position: u8,
    /// The length of the write's text in bytes, at most the block size.
    pub length: u32,
    /// The stamp that was published when the write began, or 0; below the stamp.
    pub base: u64,
}

/// What a node tells of a record that it holds: the stamp, the length and the base of its write.
#[derive(Clone, Copy, Debug, PartialEq, Eq, Drop)]
pub struct Held {
    pub stamp: u64,
    pub length: u32,
    pub base: u64,
}

/// A change of what a node holds.
#[derive(Clone, Copy, Drop)]
pub enum Change {
    /// A writer's record is kept.
    Keep {
        key: Key,
        stamp: u64,
        position: u8,
    },
    /// A rebuilder's record is kept, under the fence of its replacement.
    Refill {
        fence: u64,
        key: Key,
        stamp: u64,
        position: u8,
    },
    /// A record is dropped.
    Drop {
        key: Key,
        stamp: u64,
    },
}
