//! The keys that a node holds, each with the pair of cells that has its records and their versions,
//! and the pairs that are free.
//!
//! A contract sees a finite map from keys to entries and a list of free cells, and says exactly what
//! each call answers and leaves. Room for as many keys as there are cells is taken at once, and no
//! later call takes memory. The entries stand packed on nodes of one row, of which one leads to another
//! by its place: those of the entries in a balanced tree, and the others in a tree of spare nodes. So a
//! key is found, set or taken away in logarithmic time, and the first free cell at once; a cell that is
//! not the first of the free ones is looked for among them. An index of many entries at once takes the
//! time of a sort. That the tree is balanced is a matter of time alone, and no clause tells it.
//!
//! In reading order: `packed`, `nodes`, `spare`, `index`.
#![tactic(auto)]

mod index;
mod nodes;
mod packed;
mod spare;

pub use index::{Entry, Index};
pub use spare::Spare;
