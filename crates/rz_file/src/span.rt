//! A range in hand, with its bytes and the texts of its block.

use crate::range::RangeProgress;
use rz_batch::Batch;
use rz_events::FileEnd;

/// What is done with a range.
#[derive(Clone, Copy, Drop)]
pub enum Aim {
    /// It is read, and the bytes are those that came so far.
    Taking,
    /// The bytes are written into it.
    Giving,
}

/// A range in hand.
#[derive(Drop)]
pub struct Span {
    pub range: RangeProgress,
    pub aim: Aim,
    pub bytes: Vec<u8>,
    /// The bins of the blocks that the bytes to be written cover whole.
    pub batch: Batch,
    /// The text of the block that is written.
    pub text: Vec<u8>,
    /// Room for the text of the block that was found.
    pub found: Vec<u8>,
}

/// What comes next.
#[derive(Clone, Copy, Drop)]
pub enum RangeStep {
    /// The block in hand is read.
    Reading,
    /// It is written.
    Writing,
    Ended(FileEnd),
}
