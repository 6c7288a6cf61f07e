//! The calls of the export and its replies.

ghost use Rattle.std.specs.Prelude.{◌≡◌};
ghost use Rattle.rz_events.specs.Borrowed.{call_of};

use crate::{Denial, Key, Listed, Published, Text, TreeCall, TreeReply};

/// A call of the export.
#[derive(Drop)]
pub enum Call {
    Tree(TreeCall),
    /// A write of a block begins; the text is the block's new content.
    Begin {
        key: Key,
        text: Text,
    },
    /// The positions of `mask` have the write's records.
    Publish {
        key: Key,
        stamp: u64,
        mask: u16,
        length: u32,
    },
    Look {
        key: Key,
    },
    /// A rebuilder asks for the fence of a node's loss.
    Enroll {
        node: u16,
        loss: u64,
    },
    /// A rebuilder asks for the next block that a node has to hold.
    Next {
        node: u16,
        after: Option<Key>,
    },
    /// A reader that met too few records looks once more.
    Recheck {
        key: Key,
    },
}

impl Call {
    /// The call, borrowed.
    pub fn borrowed(&self) -> CallRef<'_>
        ensures { call_of result ≡ self.now }
    {
        match self {
            Call::Tree(call) => CallRef::Tree(call),
            Call::Begin { key, text } => CallRef::Begin {
                key: *key,
                text: text.bytes(),
            },
            Call::Publish {
                key,
                stamp,
                mask,
                length,
            } => CallRef::Publish {
                key: *key,
                published: Published {
                    stamp: *stamp,
                    mask: *mask,
                    length: *length,
                },
            },
            Call::Look { key } => CallRef::Look { key: *key },
            Call::Enroll { node, loss } => CallRef::Enroll {
                node: *node,
                loss: *loss,
            },
            Call::Next { node, after } => CallRef::Next {
                node: *node,
                after: *after,
            },
            Call::Recheck { key } => CallRef::Recheck { key: *key },
        }
    }
}

/// A call of the export that borrows its texts, so that asking it copies none.
#[derive(Clone, Copy, Drop)]
pub enum CallRef<'a> {
    Tree(&'a TreeCall),
    /// A write of a block begins; the text is the block's new content.
    Begin { key: Key, text: &'a [u8] },
    /// The positions of the mask have the write's records.
    Publish { key: Key, published: Published },
    Look { key: Key },
    /// A reader that met too few records looks once more.
    Recheck { key: Key },
    /// A rebuilder asks for the fence of a node's loss.
    Enroll { node: u16, loss: u64 },
    /// A rebuilder asks for the next block that a node has to hold.
    Next { node: u16, after: Option<Key> },
}

/// The export's reply.
#[derive(Drop)]
pub enum Reply {
    Tree(TreeReply),
    Begun { stamp: u64, base: u64 },
    Accepted,
    /// The node at this position was enrolled above the write's stamp.
    Enrolled { position: u8, fence: u64 },
    Looked(Option<Published>),
    Fence { fence: u64 },
    Listed(Option<Listed>),
    Denied(Denial),
    NoMemory,
    /// A write of the block began later.
    Revoked { later: u64 },
}

/// What was asked of the export when it denied it.
#[derive(Clone, Copy, Drop)]
pub enum Asked {
    Begin { key: Key },
    Publish { key: Key },
    Look { key: Key },
    Enroll { node: u16, loss: u64 },
    Recheck { key: Key },
}
