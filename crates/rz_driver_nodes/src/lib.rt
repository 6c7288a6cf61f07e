//! The nodes of a volume in a row, and what is asked of one of them.
//!
//! A message comes through to a node ([`through`]), or its answer is lost ([`without_reply`]) or it is lost
//! itself ([`without_request`]); the contracts say what the node answers, what the machine that sent it is
//! told, and which events are noted. The administrator's orders ([`order_node`],
//! [`start_node`], [`arm_node`]) note theirs; a record that is asked for ([`fetch_node`]) has
//! none. Each contract says too that the faults of the node's word are counted by its disk, and, over disks
//! that tell their texts, what each image of the disk stands for by the log, behind that of any earlier runs.
//! They do not say that there is memory.
//!
//! In reading order: `server`, `messages`, `administration`, `asking`.
#![tactic(auto)]

mod administration;
mod asking;
mod messages;
mod server;

pub use administration::{arm_node, order_node, start_node};
pub use asking::fetch_node;
pub use messages::{through, without_reply, without_request};
pub use server::find;
