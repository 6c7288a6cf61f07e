//! The command `run`: a script played by clients and rebuilders on threads of their own, and told.
//!
//! [`run`] reads what words and an input ask for, opens a book of the script's volume, formats the disks,
//! lets everyone do what the script gives it, and writes what is to be told. Its contract (`specs/Runs`) says
//! that there is one log, that of the book: in it the events of each client and of each rebuilder are those
//! of its operations, each once and in order, and those of the administrator are those of its lines; no more
//! messages were lost than the links have counted; and the faults of each node are those that its disk has
//! counted. Over an honest book the log is legal and sound, and each disk stands for what the log says that
//! its node holds. Where the play came to its end the text of this log is written. Where memory was wanting
//! for someone, nothing is, and each has done the first part of what it was given. Disks and links come back
//! in their order, whatever comes of it. [`completes`] says when a run that returns has come to its end.
//!
//! Nothing here says that a thread runs, whose turn comes first, or that there is memory.
//!
//! In reading order: `outcome`, `naming`, `setting_up`, `telling`, `laws`, `playing`,
//! `running`.
#![tactic(auto)]

mod laws;
mod naming;
mod outcome;
mod playing;
mod running;
mod setting_up;
mod telling;

pub use laws::completes;
pub use outcome::Ran;
pub use running::run;
