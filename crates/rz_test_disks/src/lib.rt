//! Disks for tests: of a loss of power, and of threads.
//!
//! An [`OutageDisk`] keeps its bytes in memory and has a [`Power`], which several disks may share. At one of
//! their calls the power goes: that call fails, and so does each later one. A crash then says which bytes of
//! the writes that no sync had followed are there. The contracts say that the disks count their faults, and
//! nothing of what they hold.
//!
//! A [`MeetDisk`] shows whether writes of two disks ran at the same time. It passes all calls on to its disk and
//! has its meanings. Each of its writes behind the header waits a while for another one, and the [`Meeting`]
//! remembers whether two ever were under way together. The contracts say nothing of that, which is for tests
//! to look at.
//!
//! In reading order: `power`, `disk`, `meeting`, `meet_disk`.
#![tactic(auto)]

mod disk;
mod meet_disk;
mod meeting;
mod power;

pub use disk::OutageDisk;
pub use meet_disk::MeetDisk;
pub use meeting::Meeting;
pub use power::Power;
