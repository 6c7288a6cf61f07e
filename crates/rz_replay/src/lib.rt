//! What the words of the command line ask for, done in turns over given disks: the call that carries the
//! theorem of the program.
//!
//! The contract of [`replay`] says which status comes when, that the source was read to its end, that over
//! disks that tell their texts the log is that of the script's play and what it says is true, that over
//! others it is that of a play in which a start and a read may find anything, which bytes the sink took, that the disks are
//! back in their order, and that their counts of faults go with the faults in the log. Of an old disk it
//! says that it is as it was, and what stands on the new one. Of the disk of a journal it says for which
//! calls it stands. [`completes_again`] says when a replay that goes on after earlier runs comes to its end,
//! and [`untouched`] that a scrub after a play finds what was written.
//! It does not say what a real file or a terminal holds, or that memory is there, whose want is status 70.
//! [`memory`] and [`files`] make the disks of a play.
//!
//! In reading order: `replaying`, `drivers`, `laws`, `migrating`, `disks`.
#![tactic(auto)]

mod disks;
mod drivers;
mod laws;
mod migrating;
mod replaying;

pub use disks::{FilesFault, Kept, files, memory};
pub use laws::{completes_again, untouched};
pub use replaying::{Played, replay};
