//! Which of a block's records were altered, where that can be known.
//!
//! A `Scrub` is given the bins of a block's records by position, and `judge` looks for the block that they
//! are projections of. The misfits of a block are the positions whose bins are not its projection. As many
//! records as rows give a block back; the reach is half of how many there are beyond that, rounded down. Two
//! blocks with no more misfits than the reach would share as many projections as give a block back, so
//! there is at most one.
//!
//! The contracts say that the verdict is clean exactly where some block has no misfit, that it is altered
//! exactly where none is without but some block is within the reach, and that the mask names exactly the
//! misfits of that one block. They do not say how many blocks are tried.
//!
//! In reading order: `verdict`, `slots`, `solver`, `search`, `scrub`, `law`.
#![tactic(auto)]

mod law;
mod scrub;
mod search;
mod slots;
mod solver;
mod verdict;

pub use law::one_within_reach;
pub use scrub::Scrub;
pub use verdict::Verdict;
