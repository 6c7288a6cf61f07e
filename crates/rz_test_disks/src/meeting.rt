//! A place where writes of several disks may meet.
use std::sync::atomic::{AtomicBool, AtomicU64, Ordering};

/// How often a write looks whether another one is under way.
const LOOKS: u32 = 100_000_000;

/// It counts the writes that are under way, and remembers whether one of them saw another.
#[derive(Drop)]
pub struct Meeting {
    under_way: AtomicU64,
    met: AtomicBool,
}

impl Meeting {
    /// Nobody is there, and nobody met.
    pub fn new() -> Meeting {
        Meeting {
            under_way: AtomicU64::new(0),
            met: AtomicBool::new(false),
        }
    }

    /// Whether a write saw another.
    pub fn met(&self) -> bool {
        self.met.load(Ordering::SeqCst)
    }

    // Counts a write in, waits a while for another one, and counts it out. Once two met, nobody waits.
    pub(crate) fn attend(&self) {
        if self.met() {
            return;
        }
        self.under_way.fetch_add(1, Ordering::SeqCst);
        self.look_round();
        self.under_way.fetch_sub(1, Ordering::SeqCst);
    }

    // The other one may have gone by the time that this one looks, so it also looks whether two met.
    fn look_round(&self) {
        for _ in 0..LOOKS {
            if self.met() {
                return;
            }
            if self.under_way.load(Ordering::SeqCst) > 1 {
                self.met.store(true, Ordering::SeqCst);
                return;
            }
        }
    }
}
