//! The pool of a run on threads: clients and rebuilders, each with its pass, its link and its operations.
//!
//! [`operations_of`] takes an actor's operations out of a script, [`passes_in_order`] puts the passes of all clients and
//! rebuilders into one row, and [`make_pool`] makes a [`PoolWorker`] of each of them, with a link and its operations; where
//! memory is wanting the links come back. When they have worked [`have_finished`] says whether all of them came to
//! the end of their operations, and [`take_results`] takes their links, their passes and the events that they show, each
//! in the order of the workers; it takes no memory, since a [`WorkerPool`] has room for what comes back.
//!
//! [`gather_all`] gathers the passes of many actors into one: in the log that it has then seen, the events of each
//! actor are those that its own pass had, each once and in order, and `held_lasts` says that this stays so.
//! [`count_all`] adds up the counts that the words of a book stand at. Each event of the log is of one of them, so
//! that this is the number of its events. The pass that asks holds the tokens of all words, so that no event comes
//! meanwhile: the log that it had seen before has as many.
//!
//! In reading order: `roster`, `ordering`, `pool_worker`, `worker_parts`, `making`, `ending`, `passes`, `laws`, `counting`.
#![tactic(auto)]

mod counting;
mod ending;
mod laws;
mod making;
mod ordering;
mod passes;
mod pool_worker;
mod roster;
mod worker_parts;

pub use counting::count_all;
pub use ending::{have_finished, take_results};
pub use laws::held_lasts;
pub use making::make_pool;
pub use ordering::passes_in_order;
pub use passes::gather_all;
pub use pool_worker::{PoolWorker, Results, WorkerPool};
pub use roster::operations_of;
