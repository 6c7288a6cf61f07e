//! The slots of a disk of cells: how it is laid out, what its bytes stand for, and how slots are read,
//! written, judged, formatted and copied. It is a part of `rz_cells`, which says what a cell is.
//!
//! The definitions say what the text of a disk stands for: a geometry, a fence and a map from key and
//! stamp to the record that is held. What changes a disk says on every exit, also where a device call
//! failed, what each image may be; what only reads one says that it stays as it was, or which fault of
//! its text is the first.
//!
//! The heads of a pair of cells, which have one key, stand in 72 bytes of memory.
//!
//! In reading order: `geometry`, `heads`, `room`, `switching`, `spelling`, `formatting`, `judging`,
//! `reading`, `opening`, `old`, `copying`, `migrating`.
#![tactic(auto)]

mod copying;
mod formatting;
mod geometry;
mod heads;
mod judging;
mod migrating;
mod old;
mod opening;
mod reading;
mod room;
mod spelling;
mod switching;

pub use formatting::{FormatFault, blank};
pub use geometry::Geometry;
pub use heads::Heads;
pub use migrating::{MigrateFault, carry};
pub use opening::read_disk;
pub use room::{CellsMemory, empty};
pub use spelling::{read_bins, spell};
pub use switching::switch;
