//! Who acts alone on a cluster: one operation after another, and nobody beside it.
//!
//! A [`Sole`] holds the tokens of all actors of a book, so that no event comes to the log but its own. It takes up
//! an operation as a client, or the rebuild of a node as a rebuilder, and takes the turns of it, until it says
//! how it came out. What stands between two calls is told by the log alone: the events of these turns on top of
//! what was there. Where memory or the journal is wanting in the middle of an operation nothing is added, and the
//! operation stays open. Its actor can then do no other, and the next one comes to its place.
//!
//! In reading order: `turns`, `sole`, `acts`, `rebuilding`, `tending`, `asking`, `missing`,
//! `joining`, `closing`.
#![tactic(auto)]

mod acts;
mod asking;
mod closing;
mod joining;
mod missing;
mod rebuilding;
mod sole;
mod tending;
mod turns;

pub use acts::Performed;
pub use closing::ClosedStore;
pub use sole::{Sole, Stop};
