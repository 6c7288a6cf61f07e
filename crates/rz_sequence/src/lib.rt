//! A list in which an item is found, put in or taken out in logarithmic time.
//!
//! A contract sees a `Sequence` as the list of its items. Each call is one function on that list. The
//! items stand in a balanced tree; that it is balanced is a matter of time alone, and no clause tells it.
//!
//! In reading order: `mark`, `sequence`.
#![tactic(auto)]

mod mark;
mod sequence;

pub use mark::Mark;
pub use sequence::{Fork, Sequence};
