//! The driver: it plays a script over nodes, their disks and the export.
//!
//! [`Driver::new`] formats the disks, each for its node and in a fuse; [`Driver::first`] formats one more for
//! a journal, behind which the export then stands, and [`Driver::again`] opens the disks that earlier runs
//! left. As a stage the driver plays the lines of a script;
//! [`Driver::close_all`] gives the log and the disks back, in their order, and [`Driver::close`] those of the
//! nodes. The contracts say that each turn and each line is one of the play's relation, that the log stays as
//! it was where memory is wanting or the journal does not keep a call, and that the faults of each node's
//! word are counted by its disk. Over disks that tell their texts they say what each image of each disk
//! stands for, by the log, however a play ended: a node's for its records, a journal's for the calls that
//! changed the export. They do not say that there is memory.
//!
//! After a play [`Driver::published`] and [`Driver::fetch`] show what is published and what the nodes hold,
//! without an event: so a driver is a `ScrubbedStore`.
//!
//! In reading order: `driver`, `turns`, `orders`, `parts`, `making`, `closing`, `journaling`,
//! `continuing`, `stage`, `asking`.
#![tactic(auto)]

mod asking;
mod closing;
mod continuing;
mod driver;
mod journaling;
mod making;
mod orders;
mod parts;
mod stage;
mod turns;

pub use driver::Driver;
pub use rz_nodes::{DriverFault, OpenRefusal};
pub(crate) use rz_player::Halted;
