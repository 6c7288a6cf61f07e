//! Sums of words that stand in a row.
//!
//! To add is the exclusive or. A row of words is also a polynomial in x, whose coefficients the words are
//! (`specs/Polynomials`). `run_within` adds to each word the one a step before it, in rising order, which
//! divides by 1 + x^step (`proofs/Running`, `Places`). What then stands in the last places of that step is
//! the remainder: `take_rest` takes it away, and marks the blocks that had one.
//!
//! A place of a row may hold a word of each of several blocks, which then stand side by side. In eight such
//! blocks `write_sum` writes the sum of a line into a place, and `add_difference` compares lines with their
//! bins.
//!
//! In reading order: `run`, `rest`, `room`, `lines`.
#![tactic(auto)]

mod lines;
mod rest;
mod room;
mod run;

pub use lines::{add_difference, write_sum};
pub use rest::take_rest;
pub use room::{add_zeros, give_words, put_words, zeros};
pub use run::{add_within, run_within};
