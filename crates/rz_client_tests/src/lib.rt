//! Tests of the machines of clients and rebuilders, as tables of asks and answers, and of whole operations driven by hand.
//!
//! They stand beside the crates and not in them, since a crate with tests is proved twice.
#![tactic(auto)]

#[cfg(test)]
mod operations;
#[cfg(test)]
mod ranges;
#[cfg(test)]
mod reads;
#[cfg(test)]
mod rebuilds;
#[cfg(test)]
mod writes;
