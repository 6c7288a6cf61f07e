//! What an actor's operation asks of the export and the locks, and its own words, in a play with one log.
//!
//! Each function answers one thing that a machine asks: a call of the export, an open with a lock, or a word
//! of the actor's own. It tells the machine the answer and notes the event, as the models say; where memory
//! is wanting, or the export does not take the call, the log stays as it is. Nothing is said here of nodes,
//! nor of whose turn it is. `specs/Asked` says what the journal's disk stands for once a machine's call was
//! replied to.
//!
//! In reading order: `replies`, `opening`, `sayings`.
#![tactic(auto)]

mod opening;
mod replies;
mod sayings;

pub use opening::open;
pub use replies::ask_export;
pub use sayings::say;
