//! The metadata of a store: an export in memory alone, or behind a journal.
//!
//! [`Metadata`] replies to what an operation asks, as the model of the export says. Behind a journal a call
//! that changes the export stands on the disk before it is replied to. A journal that had no room for a call,
//! or whose disk failed, says why, and no further call is replied to (`specs/Stands`). A journal that stands
//! on a disk is opened again, with the export that its entries make, and `losses` and `fences` say which losses
//! of nodes that export enrolled last, and under which fences.
//!
//! `specs/Journals` says that a call which was accepted joins those for which the journal's disk stands, just
//! as it was called; and where a call ended in no reply, that the disk stands for the calls from before, or
//! for these and one more.
//!
//! In reading order: `memory`, `journaled`, `enrolments`, `metadata`, `reopening`.
#![tactic(auto)]

mod enrolments;
mod journaled;
mod memory;
mod metadata;
mod reopening;

pub use journaled::{JournalRefusal, Journaled};
pub use memory::NoReply;
pub use metadata::Metadata;
pub use reopening::fault_number;
