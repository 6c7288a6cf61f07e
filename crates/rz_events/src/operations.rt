//! What an actor does, from its first call to its answer.
ghost use Rattle.std.specs.Prelude.{◌≡◌, IfOk};

use crate::{Text, TreeCall};
use std::alloc::{AllocError, Global};

/// The bytes that an operation writes.
#[derive(Drop)]
pub enum Datum {
    /// These bytes.
    Bytes(Text),
    /// So many bytes, of which byte `i` is `(seed + 31 * i) mod 256`.
    Made { length: u32, seed: u8 },
}

/// What an actor does. A path is its text, which the export reads.
#[derive(Drop)]
pub enum Operation {
    /// A call on the tree; never `OpenFile`.
    Tree(TreeCall),
    /// Writes a block.
    Put {
        path: Text,
        block: u64,
        datum: Datum,
    },
    /// Reads a block.
    Get {
        path: Text,
        block: u64,
    },
    /// Writes bytes from an offset on.
    Write {
        path: Text,
        offset: u64,
        datum: Datum,
    },
    /// Reads so many bytes from an offset on.
    Read {
        path: Text,
        offset: u64,
        length: u64,
    },
    /// Rebuilds a node, by its number.
    Rebuild {
        node: u16,
    },
    /// Writes bytes while no other operation that locks reads or writes them.
    Update {
        path: Text,
        offset: u64,
        datum: Datum,
    },
    /// Reads bytes while no other operation that locks writes them.
    View {
        path: Text,
        offset: u64,
        length: u64,
    },
}

impl Datum {
    /// The same bytes, in new memory.
    pub fn copy(&self, alloc: Global) -> Result<Datum, AllocError>
        ensures { IfOk result (λ d. d ≡ self.now) }
    {
        Ok(match self {
            Datum::Bytes(text) => Datum::Bytes(text.copy(alloc)?),
            Datum::Made { length, seed } => Datum::Made {
                length: *length,
                seed: *seed,
            },
        })
    }
}

impl Operation {
    /// The same operation, in new memory.
    pub fn copy(&self, alloc: Global) -> Result<Operation, AllocError>
        ensures { IfOk result (λ o. o ≡ self.now) }
    {
        Ok(match self {
            Operation::Tree(call) => Operation::Tree(call.copy(alloc)?),
            Operation::Put { path, block, datum } => Operation::Put {
                path: path.copy(alloc)?,
                block: *block,
                datum: datum.copy(alloc)?,
            },
            Operation::Get { path, block } => Operation::Get {
                path: path.copy(alloc)?,
                block: *block,
            },
            Operation::Write {
                path,
                offset,
                datum,
            } => Operation::Write {
                path: path.copy(alloc)?,
                offset: *offset,
                datum: datum.copy(alloc)?,
            },
            Operation::Read {
                path,
                offset,
                length,
            } => Operation::Read {
                path: path.copy(alloc)?,
                offset: *offset,
                length: *length,
            },
            Operation::Rebuild { node } => Operation::Rebuild { node: *node },
            Operation::Update {
                path,
                offset,
                datum,
            } => Operation::Update {
                path: path.copy(alloc)?,
                offset: *offset,
                datum: datum.copy(alloc)?,
            },
            Operation::View {
                path,
                offset,
                length,
            } => Operation::View {
                path: path.copy(alloc)?,
                offset: *offset,
                length: *length,
            },
        })
    }
}
