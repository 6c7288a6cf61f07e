//! Locks on ranges of bytes of files, each held by one of 64 owners.
//!
//! A [`Locks`] is seen as the finite map from the owners to the locks that they hold. A lock is
//! granted exactly where no held lock conflicts with it, and otherwise the answer names the least
//! owner whose lock does. No two held locks conflict. No call waits or takes memory, and no
//! contract says that a lock is ever free or who gets it next.
#![tactic(auto)]

mod conflict;
mod table;

pub use conflict::{LockAnswer, LockKind, Range};
pub use table::Locks;
