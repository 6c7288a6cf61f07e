//! Volumes: their rules, and how one is read from its JSON description.
//!
//! A [`Volume`] is seen as a layout and a list of clusters, a [`ClusterSpec`] as a number and a list of
//! nodes. Every volume meets the rules that `IsVolume` of rz_events names. `specs/Described` is the reading: a
//! function from a JSON value to the volume or to the first fault with its path. [`Volume::read`]
//! answers exactly that. The contracts do not say what a text is as JSON (`serde_json` does), nor
//! anything of what stands on the disks.
//!
//! In reading order: `volume`, `fault`, `parts`, `reading`.
#![tactic(auto)]

mod fault;
mod parts;
mod reading;
mod volume;

pub use fault::{VolumeCause, VolumeError, VolumeFault};
pub use rz_events::{Layout, NodeSpec, Text};
pub use volume::{ClusterSpec, Volume};
