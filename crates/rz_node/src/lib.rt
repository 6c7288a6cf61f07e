//! A storage node over a disk: it keeps at most two versions of a block behind fences, answers each
//! call by what it holds, and stands for what it held before a call or after it when that call stops.
//!
//! A contract sees a node as its disk, its geometry and its state: up, down or lost, the fence, how
//! many disks it lost, the records that it holds and the change that was left undecided. Each call
//! answers and leaves the state as the model of a node says, and says of the disk on every exit which
//! images it may have and what its meter counted. The contracts say nothing of how long a call takes.
//!
//! The heads of all cells stand in memory, and an index finds the pair of a key in logarithmic time.
//! Bins are read from the disk each time. Memory is taken where a node is made, started or replaced, and by
//! no other call.
//!
//! [`answer_node`] gives any call to a node, as one function, and says no less than the calls themselves: what the
//! answer, the state and the meter of the disk are, and what the disk may have after a crash then. [`node_event`]
//! makes of an answer the event that the log has of it. [`is_record`] tells whether bins may be handed in with a head. Both say what the models say, and nothing of who calls or when.
//!
//! In reading order: `node`, `fetching`, `storing`, `keeping`, `dropping`, `rows`, `opening`, `replacing`, `laws`,
//! `events`, `calls`.
#![tactic(auto)]

mod calls;
mod dropping;
mod events;
mod fetching;
mod keeping;
mod laws;
mod node;
mod opening;
mod replacing;
mod rows;
mod storing;

pub use calls::{answer_node, is_record};
pub use events::node_event;
pub use laws::change;
pub use node::Node;
pub use rz_cells::{FormatFault, Geometry};
pub use rz_events::{
    DropAnswer, FetchAnswer, Head, Held, KeepAnswer, Key, OpenFault, Phase, RefillAnswer,
    ReplaceAnswer, StartAnswer,
};
