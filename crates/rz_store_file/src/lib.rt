//! The description of a store that lies in files: its volume, the path of each node's disk, and that of the
//! journal's disk.
//!
//! A [`StoreFile`] is seen as these three. [`StoreFile::read`] takes it from a JSON text: `specs/Described` is the
//! reading, a function from the text to the description or to the first fault. [`StoreFile::to_text`] writes a
//! text that reads back as the same description. The contracts say nothing of what stands at the paths.
//! [`cells_within`] says how large a node's disk gets.
//!
//! In reading order: `fault`, `checking`, `store_file`, `reading`, `writing`, `sizes`.
#![tactic(auto)]

mod checking;
mod fault;
mod reading;
mod sizes;
mod store_file;
mod writing;

pub use fault::{DiskPlace, StoreFault, StoreFileError, StoreKey};
pub use sizes::cells_within;
pub use store_file::StoreFile;
