//! The rebuild of a node, as a machine that anyone can drive over any transport.
//!
//! A `Rebuilder` says what it asks next, is told the answer with the bins that came with it, and says how
//! the rebuild ended. Its contracts say that it is the rebuild of `rz_operation_model`, for every list of
//! answers that belong to what was asked, and that the bins of a refill are those of the one block which
//! fits the records of the listed stamp. They say nothing of which answers a node or the export gives.
//!
//! In reading order: `step`, `rebuilder`, `asks`, `answers`, `copies`.
#![tactic(auto)]

mod answers;
mod asks;
mod copies;
mod rebuilder;
mod step;

pub use asks::position_of;
pub use rebuilder::Rebuilder;
