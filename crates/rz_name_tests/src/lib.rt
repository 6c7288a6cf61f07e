//! Tests of names, of published blocks and of locks, and of the lists and marks below them.
//!
//! They stand beside the crates and not in them, since a crate with tests is proved twice. The contracts say
//! what each call answers where it has memory enough; that it answers so is shown here.
#![tactic(auto)]

#[cfg(test)]
mod exports;
#[cfg(test)]
mod lists;
#[cfg(test)]
mod locks;
#[cfg(test)]
mod marked;
#[cfg(test)]
mod objects;
#[cfg(test)]
mod paths;
#[cfg(test)]
mod published;
