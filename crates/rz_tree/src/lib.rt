//! The tree of a volume: directories, files and symbolic links with their attributes, under paths.
//!
//! A contract sees a `Tree` as two finite maps, one from paths to the numbers of objects and one from
//! these numbers to objects, with the number of the object that was made last. Each call is one
//! function on these maps: what it replies, and which maps it leaves. A refused call changes nothing,
//! and neither does one for which memory is wanting. Nothing is said of the blocks of files.
//!
//! In reading order: `inodes`, `tree`, `faults`, `looks`, `makes`, `changes`, `renames`, `answer`, `parts`,
//! `allowing`, `building`.
#![tactic(auto)]

mod allowing;
mod answer;
mod building;
mod changes;
mod faults;
mod inodes;
mod looks;
mod makes;
mod parts;
mod renames;
mod tree;

pub use parts::Part;
pub use tree::Tree;
