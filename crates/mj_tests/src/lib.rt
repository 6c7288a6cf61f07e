//! Tests of the transform: blocks whose bins were worked out apart from the code, and blocks that come back.
//!
//! They stand beside the crates and not in them, since a crate with tests is proved twice.
#![tactic(auto)]

#[cfg(test)]
mod batches;
#[cfg(test)]
mod inversions;
#[cfg(test)]
mod lanes;
#[cfg(test)]
mod layouts;
#[cfg(test)]
mod phantoms;
#[cfg(test)]
mod projections;
#[cfg(test)]
mod verdicts;
#[cfg(test)]
mod words;
