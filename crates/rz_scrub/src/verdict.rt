//! What is found of a block's records.

/// What is found of a block's records.
#[derive(Clone, Copy, Debug, PartialEq, Eq)]
pub enum Verdict {
    /// All are those of one block.
    Clean,
    /// Those that the mask names were altered, and the others are those of one block.
    Altered { mask: u16 },
    /// Too many were altered to say which.
    Unsure,
}
