//! A block of two rows, straight from its bins.
//!
//! The lines of two projections meet: a word of row 1 is its bin at the lesser angle and a word of row 0, and that one is
//! its bin at the greater angle and a word of row 1 that stands before the first. So row 1 is a running exclusive
//! or of both projections, and row 0 follows from it. The few bins that give no word are compared before
//! anything is written.
//!
//! In reading order: `starts`, `run`, `second`, `ends`, `solve`.
#![tactic(auto)]

mod ends;
mod run;
mod second;
mod solve;
mod starts;

pub use solve::solve_two;
