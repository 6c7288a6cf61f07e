//! What the words of a command line can want.

/// What the program is to do.
#[derive(Clone, Copy, Debug, PartialEq, Eq, Drop)]
pub enum Command {
    /// Play a script in one thread.
    Replay,
    /// Play a script in many threads.
    Run,
    /// Play the workload of a seed.
    Load { seed: u64 },
    /// Carry an old disk of a node over.
    Migrate { sid: u16 },
    /// Play a script, and then judge what the disks hold.
    Scrub,
    /// Play a script with a journal that is formatted.
    First,
    /// Play a script over the disks of an earlier play.
    Again,
}

/// A command, the number of disks, and the folder of their files if there is one.
#[derive(Drop)]
pub struct Wanted {
    pub command: Command,
    pub disks: u16,
    pub folder: Option<String>,
}

/// Why words are not taken.
#[derive(Clone, Copy, Drop)]
pub enum WordsError {
    NoMemory,
    /// The words are not of the form.
    Usage,
}
