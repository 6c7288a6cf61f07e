//! The printed text of a log.
//!
//! The contract of `show` says that the text is exactly the one that `specs/Text.antt` defines: a line
//! for the end of each operation and of each block that is read or written by itself, a line for each
//! start of a node, and a last line with the number of events. It says nothing of which logs there
//! are, nor that there is memory. Some words of a line and the last line are public, so that other texts
//! are printed alike.
//!
//! The log of a run is what many threads did in one of the orders in which it may stand. Its text has no line
//! of a node, and has the lines of each actor together, so it says nothing of that order. Each actor keeps
//! those of its own events that the text tells of (`specs/Shown`). The contract of [`show_run`] says that
//! they are enough: the text of them is the text of all events of the actors (`specs/RunText`).
//!
//! In reading order: `words`, `outcomes`, `ends`, `opened`, `text`, `run_text`.
#![tactic(auto)]

mod ends;
mod opened;
mod outcomes;
mod run_text;
mod text;
mod words;

pub use outcomes::push_mask;
pub use run_text::show_run;
pub use text::{push_end, show};
pub use words::push_uuid;
