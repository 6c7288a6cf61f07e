//! A disk as a trait, and the disks that meet it. A disk means its text, which a read gives, the
//! images that a crash at this moment may leave, and a meter of its faults. The contracts hold on
//! every exit, also where a device call failed: so a stop before, within or after a call leaves an
//! image of one exit. They do not say what a file of the system holds, how long a call takes, or
//! that it succeeds.
//!
//! Read `disk` first, then `storing`, a write that is synced. `plain` and `mem` keep their bytes in
//! memory by `medium`. `fused` and `rot` pass their calls on to another disk. `file` is the edge to
//! the system, and `placing` says where its file lies.
#![tactic(auto)]

mod disk;
mod file;
mod fused;
mod medium;
mod mem;
mod placing;
mod plain;
mod rot;
mod storing;

pub use disk::{Disk, DiskError, Failed};
pub use file::FileDisk;
pub use fused::Fused;
pub use mem::MemDisk;
pub use plain::PlainDisk;
pub use rot::RotDisk;
pub use storing::store;
