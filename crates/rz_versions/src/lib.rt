//! The versions of a block that a node holds: at most two, of distinct stamps, each on a side of a pair
//! of cells.
//!
//! A contract sees the two sides. It says what each call answers of them, on which side a new version
//! goes, and that the version goes in exactly as the rule of the node's model says. The calls take no
//! memory, and know no records and no disk.
#![tactic(auto)]

mod versions;

pub use versions::{Room, Version, Versions};
