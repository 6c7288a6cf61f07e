//! Tests of replays over disks that fail, are read wrong, or lose their power, and over a link that loses
//! messages. All else that a replay prints, and what it leaves in files, is seen with the built program
//! (`.ci/rows`).
//!
//! They stand beside the crate and not in it, since a crate with tests is proved twice.
//!
//! In reading order: `playing`, `faults`, `outages`, `places`.
#![tactic(auto)]

#[cfg(test)]
mod faults;
#[cfg(test)]
mod outages;
#[cfg(test)]
mod places;
#[cfg(test)]
mod playing;
