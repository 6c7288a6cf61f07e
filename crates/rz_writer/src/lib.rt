//! The write of a block, as a machine that anyone can drive over any transport.
//!
//! A `Writer` says what it asks next, is told the answer, and says how the write ended. Its contracts say
//! that it is the write of `rz_client_model`, for every list of answers that belong to what was asked, and
//! that its bins are the projection of its text at the position that it asks to keep. They say nothing of
//! which answers a node or the export gives.
//!
//! In reading order: `writer`, `outcomes`, `steps`, `sheet`.
#![tactic(auto)]

mod outcomes;
mod sheet;
mod steps;
mod writer;

pub use writer::Writer;
