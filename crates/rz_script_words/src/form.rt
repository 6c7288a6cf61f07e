//! The forms of reading.

/// For which command a script is read.
#[derive(Clone, Copy, Drop)]
pub enum Form {
    /// One thread plays it, turn by turn: every line may stand.
    Replay,
    /// Each actor has a thread of its own: no line speaks of turns, and no operation locks a range.
    Run,
    /// An old disk is carried over: the volume alone may stand.
    Migrate,
}
