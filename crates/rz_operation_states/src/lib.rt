//! The stages of an operation: what each asks next, and how it goes on after an answer.
//!
//! A `OperationState` is how far an operation has come, with the machine of the block, the range or the rebuild that
//! is in hand there. The functions of a module answer for one kind of stage: an `Ask` that borrows what it
//! names, and after an answer the stage that follows. Their contracts say that stage and ask are those of
//! `rz_operation_model`. Which stage comes first, and which takes which answer, the crate above says.
//!
//! In reading order: `ask`, `stage`, `drops`, `locks`, `blocks`, `ranges`, `rebuilds`.
#![tactic(auto)]

mod ask;
pub mod blocks;
pub mod drops;
pub mod locks;
pub mod ranges;
pub mod rebuilds;
mod stage;

pub use ask::{Ask, Saying, goes_by_link, is_placed};
pub use stage::{OpenPlan, OperationState};
