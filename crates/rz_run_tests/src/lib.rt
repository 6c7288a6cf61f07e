//! Tests of a script that is played on threads, by what is printed of it.
//!
//! They stand beside the crate and not in it, since a crate with tests is proved twice. Of runs of one client
//! the whole text is known. Where the threads make the order, a checker in plain code, which knows nothing of
//! the contracts, goes over the printed text: whether a store could have answered so.
//!
//! In reading order: `told`, `checker`, `workload`, `printed`, `stage`, `reading`, `clock`, `alone`,
//! `meeting`, `beside`.
#![tactic(auto)]

#[cfg(test)]
mod alone;
#[cfg(test)]
mod beside;
#[cfg(test)]
mod checker;
#[cfg(test)]
mod clock;
#[cfg(test)]
mod meeting;
#[cfg(test)]
mod printed;
#[cfg(test)]
mod reading;
#[cfg(test)]
mod stage;
#[cfg(test)]
mod told;
#[cfg(test)]
mod workload;
