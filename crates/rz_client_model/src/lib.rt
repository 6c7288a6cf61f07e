//! The model of a client's machines: what the write of a block and the read of a block ask next, what
//! they know after each answer, and how they end.
//!
//! Definitions alone stand here, over plain data. `Write` has the write: the outcome of each position,
//! the mask of those that have its record, and when too many have failed. `Read` has the read: in which
//! order the positions are asked, and when the records are enough. `Blocks` has the block of a text. The
//! machines implement them. Nothing is said here of bins, nor of which answer a node or the export gives.
#![tactic(auto)]

mod reading;
mod writing;

pub use reading::{Fetches, ReadStage, ReaderState};
pub use writing::{SentRecords, WriteStage, WriterState};
