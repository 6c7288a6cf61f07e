//! The cluster: the nodes and the export of a volume, each behind a lock of its own, for any number of
//! threads.
//!
//! A call takes the lock of the one node that it asks, or the export's, calls, and adds the event of the
//! answer to the book before the lock is let go. So calls of two nodes run side by side, and over an
//! honest book all calls stand in one legal log, and each answer is right for that log just before its
//! event. Which book a cluster belongs to is its type parameter.
//!
//! A cluster is new, and its log begins anew; or its nodes and its metadata were opened, and its log goes
//! on after an earlier one, which stands behind the events of this run. Then disks of nodes may be away, and
//! a node may get a new disk in the place of its own; and the export may stand behind a journal.
//!
//! No contract says which node stands behind which lock: a call of a lock that has another node than the
//! one that was asked waits for ever. At the end each disk comes back beside the token of its own node, in
//! the order of the description.
//!
//! In reading order: `room`, `seating`, `cluster`, `telling`, `making`, `resuming`, `arranging`, `closing`.
#![tactic(auto)]

mod arranging;
mod closing;
mod cluster;
mod making;
mod resuming;
mod room;
mod seating;
mod telling;

pub use closing::Closed;
pub use cluster::Cluster;
pub use resuming::OpenedParts;
pub use rz_node::answer_node;
pub use rz_nodes::DriverFault;
pub use rz_shared_locked::{
    Counting, LockedExport, LockedNode, Metering, Swap, SwapFault, answer_export,
};
pub use seating::{Arrived, AwayNode};
