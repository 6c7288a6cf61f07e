//! The write and the read of a range of bytes of a file, block by block, as machines that anyone can
//! drive over any transport.
//!
//! A `FileWrite` or a `FileRead` says what it asks next, is told the answer with the bins that came with
//! it, and says how it ended. Both stand over a `FileMachine`, which a `FilePlan` becomes once its file is
//! open, as the machine of an operation needs it. Its contracts say that it is the machine of `rz_operation_model` for ranges, for every list
//! of answers that belong to what was asked. They say nothing of which answers a node or the export gives.
//!
//! In reading order: `range`, `texts`, `block_writer`, `span`, `plan`, `machine`, `asks`, `answers`, `steps`,
//! `files`.
#![tactic(auto)]

mod answers;
mod asks;
mod block_writer;
mod files;
mod machine;
mod plan;
mod range;
mod span;
mod steps;
mod texts;

pub use files::{FileRead, FileWrite};
pub use machine::FileMachine;
pub use plan::FilePlan;
