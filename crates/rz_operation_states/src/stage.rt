//! How far an operation has come.

use rz_events::{Answer, Places, Text, TreeCall};
use rz_file::{FileMachine, FilePlan};
use rz_reader::Reader;
use rz_rebuild::Rebuilder;
use rz_writer::Writer;

/// How far an operation has come, with the machine that it needs there.
#[derive(Drop)]
pub enum OperationState {
    /// One call on names.
    Calling(TreeCall),
    /// The records of a file are dropped at its nodes, of which so many are done.
    Dropping { fid: u128, places: Places, done: u8 },
    /// The file is opened by this call.
    Opening { call: TreeCall, plan: OpenPlan },
    /// It is opened by this call, and its bytes are locked.
    Locking { call: TreeCall, plan: FilePlan },
    /// A block is written with this text.
    Writing { writer: Writer, text: Text },
    /// A block is read.
    Reading(Reader),
    /// A range of bytes is written or read.
    Ranging(FileMachine),
    /// A node is rebuilt.
    Rebuilding { node: u16, rebuilder: Rebuilder },
    /// The answer is said.
    Ending(Answer),
    Over,
}

/// What is done with the file once it is open, with a machine that has its memory and waits.
#[derive(Drop)]
pub enum OpenPlan {
    Put {
        block: u64,
        writer: Writer,
        text: Text,
    },
    Get {
        block: u64,
        reader: Reader,
    },
    Range(FilePlan),
}
