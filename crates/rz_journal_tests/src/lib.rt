//! Tests of a journal: which entry of a damaged one is told, what it writes, where it stops, and what room it
//! has.
//!
//! They stand beside the crates and not in them, since a crate with tests is proved twice. What stands on a
//! disk is written out by hand in `sample` and `letters`.
//!
//! In `rules` and `wholes` the entries break one rule. `written` has the bytes of each kind of call and of part,
//! `entries` reads and writes entries alone, and `front` has a disk with one. `stops` stops at each device call of
//! a formatting, of an entry and of a change of halves, and `exports` has what is to be found then. `last` and
//! `full` fill a half up to its last byte.
#![tactic(auto)]

#[cfg(test)]
mod answers;
#[cfg(test)]
mod calls;
#[cfg(test)]
mod entries;
#[cfg(test)]
mod exports;
#[cfg(test)]
mod front;
#[cfg(test)]
mod full;
#[cfg(test)]
mod last;
#[cfg(test)]
mod letters;
#[cfg(test)]
mod links;
#[cfg(test)]
mod making;
#[cfg(test)]
mod rules;
#[cfg(test)]
mod sample;
#[cfg(test)]
mod stops;
#[cfg(test)]
mod wholes;
#[cfg(test)]
mod written;
