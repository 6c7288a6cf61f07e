//! From the words of the command line and the input to what is to be played, or to the refusal.
//!
//! The contract of [`request`] says of each answer when it comes: words of another form, a source
//! that failed, a text that is too long, its first fault by the grammar of scripts, a script that is
//! too large, another number of disks than the volume has nodes, with one more for a journal; and that otherwise the script is
//! the one that the text means, or for `load` the workload of its seed. [`Refusal`] has the status and
//! the line of each refusal, those too that come later: of a disk, of too many turns, and of a journal. It says
//! nothing of what playing a script comes to, nor that there is memory.
//!
//! [`run_script`] does the same for a run, in which each actor has a thread of its own: the words are those
//! of that command, and no line of the text speaks of turns.
//!
//! [`migration`] asks for another thing: the node of which an old disk is carried over. It reads a volume
//! alone. The contract of [`migrate`] says what came of the two disks then: the old one is as it was, each image
//! of the new one is one from before, or its header is shut, or it stands for the fence and the records of the
//! old one; and which refusal comes when. At the end it tells the fence and the number of the records. It says
//! nothing of what a real file holds.
//!
//! The contract of [`wanted`] says what the words of the command line mean: the command, the number of disks and
//! the folder that they state, and that `Usage` comes exactly where they are not of the form of `specs/Line`.
//! The line is read by `clap`, whose command, number, disks and folder are answered, and judged by this crate, which
//! decides its form: `clap` takes more than that. Both have to say the same. The contract does not say that they do, so a
//! line of the form of which `clap` said another thing would count as want of memory; the tests show that it takes each
//! order and spelling. [`parse`] is what `clap` says, whose texts tell a person what is wrong with which word.
//!
//! In reading order: the words in `command`, `items`, `numbers`, `line`, `parser`, `taking`, `wanting`; what they ask for
//! in `status`, `refusal`, `causes`, `input`, `reading`, `wishes`, `asking`, `running`; an old disk in `old`, `outcome`,
//! `carrying`, `migrating`.
#![tactic(auto)]

mod asking;
mod carrying;
mod causes;
mod command;
mod input;
mod items;
mod line;
mod migrating;
mod numbers;
mod old;
mod outcome;
mod parser;
mod reading;
mod refusal;
mod running;
mod status;
mod taking;
mod wanting;
mod wishes;

pub use asking::request;
pub use command::{Command, Wanted, WordsError};
pub use migrating::migrate;
pub use old::{OldNode, migration};
pub use outcome::Migrated;
pub use parser::parse;
pub use refusal::{Refusal, Stop};
pub use running::run_script;
pub use status::Status;
pub use wanting::wanted;
pub use wishes::{Request, Wish};
