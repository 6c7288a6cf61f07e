//! Nodes and the export under their locks.
//!
//! A [`LockedNode`] has a node and the token of the node's word, a [`LockedExport`] the export and the token of its
//! word. Each call adds the event of its answer to the book before the lock is let go. So over an honest
//! book the node or the export is always the one that the log gives, and an answer is right for the log
//! just before its event, whatever other threads did meanwhile. Over any book the faults of a node's word
//! are those that its disk counted since the node came under its lock.
//!
//! A book may go on after an earlier log, which then stands behind the events of this run. The disk of a
//! node may be away; then the node is down, and each call that needs the disk is refused. The export is in
//! memory alone, or behind a journal, which keeps each call that changes it before that is replied to.
//!
//! In reading order: `counting`, `serving`, `away`, `occupant`, `adding`, `waiting`, `locked_node`,
//! `telling`, `swapping`, `locked_export`; `laws` has what lasts while others act.
#![tactic(auto)]

mod adding;
mod away;
mod counting;
mod laws;
mod locked_export;
mod locked_node;
mod occupant;
mod serving;
mod swapping;
mod telling;
mod waiting;

pub use away::Away;
pub use counting::{Counting, Metering};
pub use locked_export::{LockedExport, answer_export};
pub use locked_node::LockedNode;
pub use swapping::{Swap, SwapFault};
