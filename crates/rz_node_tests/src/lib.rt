//! Tests of storage nodes and of what they stand on.
//!
//! They stand beside the crates and not in them, since a crate with tests is proved twice.
#![tactic(auto)]

#[cfg(test)]
mod arrivals;
#[cfg(test)]
mod disks;
#[cfg(test)]
mod index;
#[cfg(test)]
mod nodes;
#[cfg(test)]
mod records;
#[cfg(test)]
mod rot;
#[cfg(test)]
mod stops;
