//! A script played on a stage and told: what is printed of it, and the status.
//!
//! The contract of [`perform`] is over any stage whose log can be read, and whose nodes can be asked for
//! records. It says how the play ended and which text was then to be written, and with which status: 0 with
//! the text of the log at its end, 8 with the text so far before a turn too many, 70 where memory was
//! wanting, and 5 where the sink failed. A scrub asks the nodes after a whole play, and its text has the lines
//! of what it found behind the text of the log. Over disks that tell their texts it says that the log is that of the script's play and that
//! what it says is true (`specs/Told`): it is legal and sound, each read and write ends as it has to, each
//! finished rebuild is whole, no update is lost, each view is whole, and each lost message has its cause.
//! A play may go on after earlier runs: it is then that of the script behind each log that they may have had.
//! `specs/Replays` says what a replay of what was asked for comes to, of which this is the last part, and
//! [`completes`] and [`completes_again`] when it comes to its end. Nothing here says what a real file or
//! terminal takes, nor that there is memory.
//!
//! [`summary`] gives what the log of the workload comes to, in the one line that `specs/Summary` defines: the
//! seed, how many blocks were put and got and how these ended, how many nodes were rebuilt and how many
//! positions were left, and the digest of the text of the log.
//!
//! In reading order: `kinds`, `counts`, `line`, `output`, `telling`, `scrubbing`, `performing`, `laws`.
#![tactic(auto)]

mod counts;
mod kinds;
mod laws;
mod line;
mod output;
mod performing;
mod scrubbing;
mod telling;

pub use laws::{begins, completes, completes_again};
pub use line::summary;
pub use output::finish;
pub use performing::perform;
pub use rz_player::LoggedStage;
pub use telling::{refuse, refuse_disks, stop};
