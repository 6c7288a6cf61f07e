//! The entries of a journal as bytes.
//!
//! An entry says one call that changed the export, or one part of an export from which the calls go on.
//! Its bytes are a number for its kind and then its fields, in the order in which the type lists them.
//! A number is little-endian and has the width of its type; a text stands behind its length in two bytes,
//! a path behind that of its text in four, and the nodes of a file behind their count in one. The kind of
//! an object is one byte. What is published of a block stands behind a 1; where nothing is, there is a 0.
//! A call on names begins with its number among these calls, counted from 0.
//!
//! The contracts hold both ways: `write` gives the bytes of an entry, and `read` gives the one entry that
//! has these bytes, or `BadEntry` exactly where none has. Nothing is said of whether the export accepts
//! a call, nor of whether parts fit together.
//!
//! In reading order: `entry`, `fault`, `numbers`, `calls`, `parts`, `widths`, `writing`, `front`,
//! `part_reading`, `reading`.
#![tactic(auto)]

mod calls;
mod entry;
mod fault;
mod front;
mod numbers;
mod part_reading;
mod parts;
mod reading;
mod widths;
mod writing;

pub use entry::JournalEntry;
pub use fault::EntryFault;
pub use parts::path_text;
pub use reading::read;
pub use writing::write;
