//! A store in hand: names, blocks and ranges of bytes.
//!
//! Nobody else acts on a [`Store`], so what its users see, the names and what each block of each file contains, is
//! changed by its own calls alone. Over disks that tell what they hold each call does what it says: a write that
//! answers Ok changes exactly these bytes, one that answers an error changes so many of them as it tells, a read that
//! answers gives exactly the bytes that are there, and each refusal says why. Memory or the journal may be wanting at
//! any time. That a call returns is not said.
//!
//! In reading order: `faults`, `store`, `opening`, `blocks`, `names`, `texts`, `ranges`, `nodes`, `closing`.
#![tactic(auto)]

mod blocks;
mod closing;
mod faults;
mod names;
mod nodes;
mod opening;
mod ranges;
mod store;
mod texts;

pub use faults::{NameFault, ReadFault, ReplaceFault, StartFault, WriteFault};
pub use nodes::{JournalRoom, NodeRoom, Rebuilt};
pub use opening::seen_again;
pub use ranges::ShortWrite;
pub use rz_store_turns::{ClosedStore, Stop};
pub use store::Store;
