//! Clients and rebuilders at work on threads of their own, beside the administrator.
//!
//! [`work_all`] lets each worker of a pool do its operations on a thread of its own, where one can be made,
//! and on the caller's otherwise. [`at_work`] does so beside the administrator's lines, which the calling
//! thread carries out in their order. No start of a thread can be refused.
//!
//! [`play`] is a whole play: when all work is done it gathers what each worker has seen into the pass of the
//! administrator, closes the cluster, and takes over the tokens of its words. In the log that this pass has
//! then seen, the events of each worker are those of its operations, each once and in order, the events of
//! the administrator are those of its lines, and each disk that comes back stands for the events of its
//! node.
//!
//! [`administer`] carries out the administrator's lines one after another over a cluster that other threads use
//! meanwhile: a node stops, starts or loses its disk, or its disk is armed. Each call of a node is answered
//! rightly for the log just before its event, and between two lines others may add to the log what they will.
//! Lines of other actors are passed over.
//!
//! In reading order: `orders`, `administration`, `beside`, `playing`.
#![tactic(auto)]

mod administration;
mod beside;
mod orders;
mod playing;

pub use administration::administer;
pub use beside::{WorkResult, at_work, work_all};
pub use playing::{PlayResult, play};
pub use rz_player::Halted;
