//! The byte streams at the edge of the store: where input comes from and where output goes.
//!
//! A [`Source`] is read and a [`Sink`] is written a piece at a time. A contract sees what a source
//! has left and what a sink took, where that is told, and a count of faults that never falls. Each
//! call says on every exit what it moved, and it answers [`Failed`] only where the count rose.
//!
//! The types in memory have exact contracts, and can be told which of their calls are to fail. The
//! adapters tell what the reader or the writer in them tells, which for one of the system is
//! nothing. No contract says that a reader or a writer of the system answers.
#![tactic(auto)]

mod adapter;
mod memory_sink;
mod memory_source;
mod plan;
mod sink;
mod source;

pub use adapter::{StdSink, StdSource};
pub use memory_sink::{MemSink, PlainSink};
pub use memory_source::{MemSource, PlainSource};
pub use sink::Sink;
pub use source::Source;

/// A read or a write that failed.
#[derive(Clone, Copy, Debug, PartialEq, Eq)]
pub struct Failed;
