//! The blocks that were begun and published, by key.
//!
//! A contract sees `Blocks` as a finite map from keys to the newest stamp begun and to what is
//! published. Each call is one function on that map. Only a new key takes memory: to begin, publish,
//! look up or forget a block takes none. Beside the entries stand marks of those that are published, so
//! that the next published block is found in logarithmic time, however many were only begun.
//! Nothing is said of which stamps are drawn, nor of files.
//!
//! [`Marks`] are marked blocks in numbered lists, with the room for a mark made beforehand. A contract sees
//! them by two questions: whether a block is marked in a list, and whether a list has room for the mark of a
//! block. Only to make room takes memory, and it is made for 64 blocks at once, those that stand next to each
//! other in a file. The next marked block is found in logarithmic time, however many blocks between have
//! room and no mark.
//!
//! In reading order: `row`, `marks`, `blocks`.
#![tactic(auto)]

mod blocks;
mod marks;
mod row;

pub use blocks::Blocks;
pub use marks::Marks;
