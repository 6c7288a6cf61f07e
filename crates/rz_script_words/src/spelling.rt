//! Numbers, actors, nodes and bytes as words.
//!
//! A script and a printed log write these alike. What each word is, `specs/Words` says. A function whose
//! name is that of a word adds the word alone; [`push_word`] and [`push_number`] add a space before it.
//! The one error is want of memory. The contracts do not say that there is memory. Which number a word of
//! a script or of the command line says, `specs/Numerals` says.

mod numbers;
mod words;

pub use numbers::read_number;
pub use words::{push_actor, push_digits, push_hex, push_node, push_number, push_word};
