//! Laws of an export that calls made: its parts keep the rules by which an export is built again.
//!
//! `trees` says of its names and objects what each call keeps, and how its paths are read again;
//! `exports` says so of its blocks and enrolments, and that its parts make it again. Each law is a
//! function here whose contract is the law.
#![tactic(auto)]

pub mod exports;
pub mod trees;
