//! The log of a play, in memory.
//!
//! A [`Log`] has the events of a play, which may go on after earlier runs, whose events it does not have
//! (`specs/Logged`). Room is made for an event before anything is done that it has to say. [`Halted`] is
//! why a play stops where something was not done.
#![tactic(auto)]

mod log;

pub use log::{Halted, Log};
