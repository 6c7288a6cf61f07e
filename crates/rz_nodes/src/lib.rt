//! Disks that are formatted or opened again for the nodes of a volume, all of them or none.
//!
//! [`format_all`] makes a node on each disk, in the order of the description, each disk in a fuse. Where
//! one fails, or memory is wanting, all disks come back in their order, and the contract says which images
//! they may have and that no count of faults fell. It does not say that there is memory. [`hand_back`] takes
//! the disks out of their fuses again.
//!
//! [`open_all`] opens the disk of each node, in the same order and each in a fuse, as a node that lost so many
//! disks as is said. Where one does not open, or memory is wanting, all disks come back as they came, and the
//! contract says which disk was the first that did not open and why.
//!
//! [`open_each`] takes what there is: a disk may be absent, may not open, or may be one that its node had
//! before, which its fence tells. Then that node is away, the others are opened all the same, and the contract
//! says which and why.
//!
//! In reading order: `nodes`, `fault`, `back`, `formatting`, `refusal`, `opening`, `arriving`.
#![tactic(auto)]

mod arriving;
mod back;
mod fault;
mod formatting;
mod nodes;
mod opening;
mod refusal;

pub use arriving::{Arrival, KnownNode, Missing, open_each};
pub use back::hand_back;
pub use fault::DriverFault;
pub use formatting::{Server, format_all};
pub use nodes::all_nodes;
pub use opening::open_all;
pub use refusal::OpenRefusal;
