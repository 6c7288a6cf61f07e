//! An operation of an actor, as a machine that anyone can drive over any transport.
//!
//! A `Machine` says what it asks next, is told the answer, and goes on. Its contracts say that it is the
//! machine of `rz_operation_model`, for every list of answers that belong to what was asked. They say
//! nothing of which answers a node or the export gives, nor of which event an answer has in the log.
//! Memory is taken by `start` and `start_par` alone, which differ in how many threads make the bins of a
//! long write. What each stage asks and how it goes on is `rz_operation_states`.
//!
//! In reading order: `machine`, `asking`, `begins`, `replies`, `takes`.
#![tactic(auto)]

mod asking;
mod begins;
mod machine;
mod replies;
mod takes;

pub use asking::AskKind;
pub use machine::Machine;
pub use rz_operation_states::{Ask, Saying, goes_by_link, is_placed};
