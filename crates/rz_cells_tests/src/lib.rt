//! Tests of disks that are damaged, stopped or carried over from version 1.
//!
//! They stand beside the crates and not in them, since a crate with tests is proved twice.
#![tactic(auto)]

#[cfg(test)]
mod calls;
#[cfg(test)]
mod damage;
#[cfg(test)]
mod making;
#[cfg(test)]
mod migration;
#[cfg(test)]
mod stops;
