//! The projections of many blocks.
//!
//! A `Batch` is made of bytes, and has the bins of every whole block of them at every position of the
//! layout. `forward` projects the blocks one after the other, and `forward_par` in threads. Both have the
//! same contract: each list of bins is the projection of its block. Bytes behind the last whole block
//! are passed over. The contracts say nothing of how long it takes, or in how many threads.
#![tactic(auto)]

mod batch;

pub use batch::Batch;
