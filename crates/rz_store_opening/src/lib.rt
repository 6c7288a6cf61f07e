//! A store is opened on the disks that are here.
//!
//! [`format_disks`] makes the disks of a new store, which is empty when it is opened.
//!
//! The journal is opened first: the export behind it knows how many disks each node lost, and under which
//! fence stands the one that it has. Then each node's disk is opened, where there is one. A node is away whose
//! disk is absent, does not open, or is one that the node had before. [`open_after`] gives the metadata, what
//! came of each disk, and a book.
//!
//! What is known of the disks is the log of the runs that left them ([`Past`]). The book goes on after that
//! log: first the new disk of each node that was lost, then a stop of each node that was up, and then a start
//! of each that is here. `Opening` says that log, and that the metadata and the nodes are those that it gives.
//! [`join`] puts them behind locks, under a name of the book, which the caller picks once the book is there.
//!
//! In reading order: `laws`, `knowing`, `rows`, `disks`, `back`, `past`, `joining`, `formatting`.
#![tactic(auto)]

mod back;
mod disks;
mod formatting;
mod joining;
mod knowing;
mod laws;
mod past;
mod rows;

pub use disks::{OpenedDisks, Unopened};
pub use formatting::{FormatRefusal, FormattedDisks, Unmade, format_disks};
pub use joining::{Joined, join};
pub use laws::{handed_back, opened, ready, reopening};
pub use past::{Past, open_after};
