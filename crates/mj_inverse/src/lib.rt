//! Blocks from their projections.
//!
//! A `Work` takes as many projections as the block has rows, at distinct angles in any order, and `solve`
//! finds the one block that has them. A `WorkEight` does so for eight blocks side by side. The contracts
//! say that `solve` answers well exactly where some block fits, and that the block it gives is the only
//! one that does. They do not say in which order the words are found, nor how long it takes.
//!
//! A projection at the angle `p` is the value of a polynomial whose coefficients are the rows, moved by
//! `p` places for each row. So the rows are found by divided differences, as Newton did with numbers:
//! two projections are added, and divided by what their angles differ in, which is a running exclusive
//! or. The rows are then put together from the quotients. A remainder anywhere says that no block fits.
//!
//! Eight blocks side by side are read off word by word instead, each word from its bin and the other words
//! on its line. So the words have the bins that gave them, and only the other bins are compared.
#![tactic(auto)]

mod compare;
mod eight;
mod ends;
mod finding;
mod invert;
mod lent;
mod lines;
mod order;
mod placed;
mod series;
mod store;
mod sweep;
mod work;

pub use eight::WorkEight;
pub use lent::{solve_beside, solve_in};
pub use lines::Frame;
pub use work::{Inconsistent, Work};
