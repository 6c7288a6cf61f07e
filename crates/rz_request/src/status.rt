//! The statuses with which the program ends.

/// What the status of the program says.
pub struct Status;

impl Status {
    /// All was done, and the sink took the whole text.
    pub const DONE: u8 = 0;
    /// The words are those of no command that is built.
    pub const USAGE: u8 = 2;
    /// The text departs from the grammar.
    pub const SCRIPT: u8 = 3;
    /// The source failed.
    pub const SOURCE: u8 = 4;
    /// The sink failed.
    pub const SINK: u8 = 5;
    /// The volume of the text breaks a rule.
    pub const VOLUME: u8 = 6;
    /// The input is too long.
    pub const LONG: u8 = 7;
    /// A turn past the last one was called for.
    pub const TURNS: u8 = 8;
    /// The disks are too large, or the script is too much work.
    pub const LARGE: u8 = 9;
    /// There are other disks than are needed.
    pub const DISKS: u8 = 10;
    /// A disk failed while it was formatted, or carried over.
    pub const DISK: u8 = 11;
    /// The volume has no such node, or other blocks than an old disk.
    pub const NODE: u8 = 12;
    /// The old disk does not open.
    pub const OLD: u8 = 13;
    /// The journal's disk failed in play.
    pub const JOURNAL: u8 = 14;
    /// The journal had no room for a call.
    pub const FULL: u8 = 15;
    /// A disk that was to be used again does not open.
    pub const OPEN: u8 = 16;
    /// There was no memory.
    pub const NO_MEMORY: u8 = 70;
    /// The system did not give the words.
    pub const NO_WORDS: u8 = 71;
}
