//! Cells on a disk, each of which holds the record of a block or nothing, also over a stop at any
//! moment.
//!
//! A disk has pairs of cells, and a pair has the one or two records of one block. A cell has two slots
//! and a gate, whose low bit picks a slot. A change goes into the slot that is not picked, is synced,
//! and then the gate is written and synced.
//!
//! The contracts say what the text of a disk stands for: a geometry, a fence and a map from key and
//! stamp to the record that is held. Each call says on every exit, also where a device call failed,
//! what the images of the disk stand for. They say nothing of a disk that gives back bytes from before a
//! later write, and nothing of what an untold disk holds.
//!
//! A disk of version 1, with one cell where there is now a pair, is carried over onto a new disk. The old
//! disk is only read, and the gate of the new one's header is opened last, so that a stop leaves the old
//! disk whole, and the new one is opened exactly where it is whole.
//!
//! A change makes four device calls, and a read of bins one. An opening reads the header, the gates and
//! 48 bytes of each cell, and looks up each record's key once. A migration makes three device calls of the
//! old disk and one for each of its cells and records, and four of the new one and one for each record.
//! Open cells can crash their disk, read it anew and make it anew, and keep what they know where that fails.
//!
//! `rz_cells_slots` below has the layout of a disk, what its bytes stand for, and what is done to slots.
//!
//! In reading order: `cells`, `formatting`, `opening`, `migrating`.
#![tactic(auto)]

mod cells;
mod formatting;
mod migrating;
mod opening;

pub use cells::{Cells, DiskFault};
pub use rz_cells_slots::{FormatFault, Geometry, MigrateFault};
pub use rz_events::{HeaderField, OpenFault};
