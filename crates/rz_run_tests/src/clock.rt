//! Disks and links that go by one clock, and so make losses come while clients are at work.
ghost use Rattle.std.specs.Prelude.{◌≡◌, ◌≢◌, ◌⊎◌, ◌+◌, ◌<◌, ◌≤◌, ℕ, List, length, replicate, IsTrue, IsErrOf, OnOk, OnErr, if◌then◌else◌};
ghost use Rattle.rz_disk.specs.Images.{window, Torn, Written, Follows, Within, Only};
ghost use Rattle.rz_disk.specs.Meter.{Passes, Rises, faults, armed};

use rz_disk::{Disk, DiskError, Failed};
use rz_link::{Link, Sent};
use std::alloc::Global;
use std::marker::Model;
use std::sync::atomic::{AtomicU64, Ordering};
use std::thread::yield_now;

/// How often somebody looks whether the time has come, and lets others go on, before it waits no longer.
const LOOKS: u64 = 10_000_000;

/// It counts messages, and strikes.
#[derive(Drop)]
pub struct Clock {
    messages: AtomicU64,
    strokes: AtomicU64,
    between: u64,
}

/// Waits a while for a number to come up to another.
fn await_number(number: &AtomicU64, least: u64) {
    for _ in 0..LOOKS {
        if number.load(Ordering::SeqCst) >= least {
            return;
        }
        yield_now();
    }
}

impl Clock {
    /// So many messages go out between two strokes.
    pub fn new(between: u64) -> Clock {
        Clock {
            messages: AtomicU64::new(0),
            strokes: AtomicU64::new(0),
            between,
        }
    }

    /// Strikes, and waits until more messages have gone out.
    fn strike(&self) {
        let strokes = self.strokes.fetch_add(1, Ordering::SeqCst);
        let messages = self.between.saturating_mul(strokes.saturating_add(1));
        await_number(&self.messages, messages);
    }

    /// Waits until it has struck so often.
    fn await_strokes(&self, strokes: u64) {
        await_number(&self.strokes, strokes);
    }

    fn count_message(&self) {
        self.messages.fetch_add(1, Ordering::SeqCst);
    }
}

/// A disk that strikes at each crash, which is where its node starts. Where it is made once more, which is
/// where its node is rebuilt, it waits for so many strokes.
#[derive(Drop)]
pub struct ClockDisk<'a, D: Disk> {
    disk: D,
    clock: &'a Clock,
    strokes: u64,
    is_made: bool,
}

impl<'a, D: Disk> Model for ClockDisk<'a, D> {
    ghost Value = { D };

    ghost coded = { D.code };

    ghost view = { λ d. d.disk };
}

impl<'a, D: Disk> ClockDisk<'a, D> {
    pub fn new(disk: D, clock: &'a Clock, strokes: u64) -> ClockDisk<'a, D> {
        ClockDisk {
            disk,
            clock,
            strokes,
            is_made: false,
        }
    }
}

impl<'a, D: Disk> Disk for ClockDisk<'a, D> {
    ghost tells = { D.tells };

    ghost has_fuse = { D.has_fuse };

    ghost text = { D.text };

    ghost image = { D.image };

    ghost picks = { D.picks };

    ghost meter = { D.meter };

    ghost text_is_image = { D.text_is_image };

    ghost no_fuse = { D.no_fuse };

    ghost none_planned = { D.none_planned };

    fn size(&self) -> u64 {
        self.disk.size()
    }

    fn reset(&mut self, alloc: Global, size: u64) -> Result<(), DiskError> {
        if self.is_made {
            self.clock.await_strokes(self.strokes);
        }
        self.is_made = true;
        self.disk.reset(alloc, size)
    }

    fn read(&mut self, at: u64, out: &mut [u8]) -> Result<(), Failed> {
        self.disk.read(at, out)
    }

    fn write_at(&mut self, at: u64, bytes: &[u8]) -> Result<(), Failed> {
        self.disk.write_at(at, bytes)
    }

    fn sync(&mut self) -> Result<(), Failed> {
        self.disk.sync()
    }

    fn crash(&mut self, pick: u64) {
        self.clock.strike();
        self.disk.crash(pick)
    }

    fn arm(&mut self, passes: Option<u64>) {
        self.disk.arm(passes)
    }
}

/// A link that counts its messages, and carries none before so many strokes.
#[derive(Drop)]
pub struct ClockLink<'a, L: Link> {
    link: L,
    clock: &'a Clock,
    strokes: u64,
}

impl<'a, L: Link> Model for ClockLink<'a, L> {
    ghost Value = { L };

    ghost coded = { L.code };

    ghost view = { λ l. l.link };
}

impl<'a, L: Link> ClockLink<'a, L> {
    pub fn new(link: L, clock: &'a Clock, strokes: u64) -> ClockLink<'a, L> {
        ClockLink {
            link,
            clock,
            strokes,
        }
    }
}

impl<'a, L: Link> Link for ClockLink<'a, L> {
    ghost lost = { L.lost };

    ghost says = { L.says };

    fn send(&mut self, node: u16) -> Sent {
        self.clock.await_strokes(self.strokes);
        self.clock.count_message();
        self.link.send(node)
    }
}
