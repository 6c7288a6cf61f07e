//! Worked examples of the log: histories that are legal, and histories that are not, each named for the
//! mistake that it shows.
//!
//! The functions have no code. What each one says is its clause, which is proved: a history is legal, or
//! one of `specs/Mistakes`, `specs/Answers` or `specs/Runs` is not. So the definitions of the log allow
//! what an honest store does, and refuse what a broken one would. `versions` has five steps of the rule by
//! which a version of a block gives way.
#![tactic(auto)]

mod crashes;
mod fences;
mod honest;
mod locked;
mod menders;
mod mistaken_answers;
mod mistaken_nodes;
mod mistaken_reads;
mod mistaken_rebuilds;
mod mistaken_writes;
mod rivals;
mod runs;
mod troubled;
mod versions;
