//! What follows from the models of a block's read and write, for every list of answers that belong to what
//! was asked.
//!
//! `reads` says what a read asks next and how it ends, by its answers alone, and `writes` says the same of a
//! write.
#![tactic(auto)]

pub mod reads;
pub mod writes;
