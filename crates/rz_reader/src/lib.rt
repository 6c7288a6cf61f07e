//! The read of a block, as a machine that anyone can drive over any transport.
//!
//! A `Reader` says what it asks next, is told the answer with the bins that came with it, and says how the
//! read ended. Its contracts say that it is the read of `rz_client_model`, for every list of answers that
//! belong to what was asked, and that the text it found is that of the one block which fits the records of
//! the published stamp. They say nothing of which answers a node or the export gives.
//!
//! In reading order: `reader`, `seen`, `steps`.
#![tactic(auto)]

mod reader;
mod seen;
mod steps;

pub use reader::Reader;
