//! A script played line by line on any stage.
//!
//! A [`Stage`] is what the lines of a script are played on: it lets an actor take a turn, and does what
//! the administrator's lines order. [`play`] plays a script over it: so many turns, rounds of the actors
//! that have work, rounds until none has. It stops before a turn that is one too many, and where memory
//! is wanting. Whichever it was, the log is that of the lines played so far. A [`LoggedStage`] also gives
//! its log.
#![tactic(auto)]

mod lines;
mod rounds;
mod stage;
mod turns;

pub use lines::{PlayEnd, play};
pub use rz_log::Halted;
pub use stage::{LoggedStage, Stage};
pub use turns::{CutCause, MOST_TURNS};
