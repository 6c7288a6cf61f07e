//! Paths and the map from paths to the numbers of objects.
//!
//! A contract sees a `Path` as the list of its names, and a `NameMap` as a finite map from paths to
//! numbers that holds the root with number 0. Each call is one function on that map: what it finds, or
//! which map it leaves. Nothing is said of the kinds of objects, nor of what a number stands for.
//!
//! The entries stand in the order of their paths in a balanced tree. To find a name, to add one or to
//! take one away takes logarithmic time in how many there are, and a rename as much for each path that
//! it moves. No clause tells it.
//!
//! In reading order: `path`, `order`, `cuts`, `entries`, `map`.
#![tactic(auto)]

mod cuts;
mod entries;
mod map;
mod order;
mod path;

pub use map::NameMap;
pub use path::{Path, PathError};
