//! What the records of a store's published blocks are found to be, in lines.
//!
//! A [`ScrubbedStore`] is what a scrub looks at: it lists its published blocks, and a node of it can be asked for a
//! record. The contract of [`scrub`] says that there is one line for each published block of a live file, in
//! the order of keys; that each node of a block was asked once for its record of the published stamp, and
//! answered as its model says; and that the line says `few` exactly where fewer records came than give a
//! block back, and otherwise the verdict on those that came. A store keeps no events, and asking takes no
//! memory: the contract names the events that the administrator's asks would be, so that what was counted
//! of the disks beside a log is counted beside the log with these on top. [`whole_records`] is the law that
//! records of one block are clean, and [`whole_blocks`] that a block is, or has too few records, where its
//! nodes give such records; [`whole_scrubs`] says it of all lines. It is not said here that the disks of a
//! store do.
//!
//! In reading order: `finding`, `line`, `store`, `asking`, `scrubbing`, `laws`.
#![tactic(auto)]

mod asking;
mod finding;
mod laws;
mod line;
mod scrubbing;
mod store;

pub use finding::Finding;
pub use laws::{whole_blocks, whole_records, whole_scrubs};
pub use line::push_line;
pub use scrubbing::scrub;
pub use store::ScrubbedStore;
