//! The model of a storage node: what contracts see of a node, how it answers each call, what it is
//! afterwards, and which event an answer has in the log.
//!
//! Definitions alone stand here. `Versions` has the rule by which a version of a block gives way to a
//! new one; `Records` has the records that a node holds and the changes of them; `States` has the
//! state of a node; `Answers` has the answer to each call, `Afterwards` the state after it, and
//! `NodeEvents` its event. A node implements them, and the definitions of the log cite them, so both
//! speak of one rule. Nothing is said here of disks: a disk fault, and whether a disk has a change
//! that was left undecided, are free.
#![tactic(auto)]

mod pending;

pub use pending::Pending;
