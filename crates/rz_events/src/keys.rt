//! Blocks of files, and who acts.

/// The clients that a store takes. They are numbered from 1.
pub const CLIENTS: u8 = 64;

/// The rebuilders that a store takes. They are numbered from 1.
pub const REBUILDERS: u8 = 16;

/// A block of a file: the file's number and the block's number in it. Keys are ordered by the file
/// and then by the block.
#[derive(Clone, Copy, Debug, PartialEq, Eq, PartialOrd, Ord, Drop)]
pub struct Key {
    /// The number of the file.
    pub fid: u128,
    /// The number of the block in the file, counted from 0.
    pub block: u64,
}

/// Who acts: a client (1 to `CLIENTS`), a rebuilder (1 to `REBUILDERS`), or the administrator. Clients come before
/// rebuilders, and each kind is ordered by its number.
#[derive(Clone, Copy, Debug, PartialEq, Eq, PartialOrd, Ord, Drop)]
pub enum Actor {
    Client(u8),
    Rebuilder(u8),
    Admin,
}
