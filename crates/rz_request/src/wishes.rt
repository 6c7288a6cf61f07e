//! What is to be played.

use rz_script::Script;

/// Which play it is.
#[derive(Clone, Copy, Drop)]
pub enum Wish {
    /// The script of the input.
    Replay,
    /// The workload of a seed.
    Load { seed: u64 },
    /// The script of the input, after which the records of its published blocks are judged.
    Scrub,
    /// The script of the input, with a journal that is formatted on a disk of its own.
    First,
    /// The script of the input, over disks that an earlier play has left, with the journal behind them.
    Again,
}

/// A script that is to be played, for a wish.
#[derive(Drop)]
pub struct Request {
    pub wish: Wish,
    pub script: Script,
}
