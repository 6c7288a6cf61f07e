//! The workload that the store is measured with, made from a seed.
//!
//! The contract of `generate` says exactly which script it gives: `specs/Workload` has its volume and
//! its lines, `specs/Draws` the draws of the generator. The contract does not say what playing the
//! script comes to, nor that there is memory.
//!
//! In reading order: `draws`, `volume`, `lines`, `workload`.
#![tactic(auto)]

mod draws;
mod lines;
mod volume;
mod workload;

pub use workload::generate;
