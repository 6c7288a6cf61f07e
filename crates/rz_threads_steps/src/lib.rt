//! The steps of an operation beside others: what it asks of a cluster, each with its event in the book.
//!
//! A [`SharedStore`] is shared by all actors. [`step`] is one turn of an actor's operation over it: it does what
//! the machine asks, of the export, of a node or of the book, tells the machine the answer, and hands the event
//! on where it is one that [`Shows`]. Its event is in the book before the actor hears of the answer, so the
//! actor's own events are those that it had and those of this turn, whatever others add, and in a book that
//! keeps its log legal they say what is so for good. The operation is then right beside the log again. Who
//! holds the tokens of all actors has added these events alone.
//!
//! Where memory is wanting, or an answer is none to what was asked, which no store in a book that keeps its
//! log legal gives, the turn is cut off: the machine is as it was, and may go on later.
//!
//! The book may go on after an earlier log, which then stands behind the events of this run.
//!
//! In reading order: `store`, `adding`, `showing`, `export_calls`, `sending`, `saying`, `stepping`.
#![tactic(auto)]

mod adding;
mod export_calls;
mod saying;
mod sending;
mod showing;
mod stepping;
mod store;

pub use rz_player::Halted;
pub use showing::{Shows, Unshown};
pub use stepping::step;
pub use store::SharedStore;
