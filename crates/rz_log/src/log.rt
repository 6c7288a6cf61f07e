//! The log of a play.
ghost use Rattle.std.specs.Prelude.{◌≡◌, ◌+◌, ◌^◌, ◌<◌, ◌≤◌, [], ◌∷◌, reverse, length, OnOk};

use rz_events::Event;
use std::alloc::{AllocError, Global};
use std::marker::Model;

/// Memory is wanting, or a test failed that holds over disks that tell their texts; or the journal of a stage
/// did not keep a call. A play stops there, and its log has all that happened.
#[derive(Clone, Copy, Debug, PartialEq, Eq, Drop)]
pub struct Halted;

impl From<AllocError> for Halted {
    fn from(_: AllocError) -> Self {
        Halted
    }
}

/// A log takes events for one turn more while it has at most so many, which is 2^62.
const MOST_EVENTS: usize = 4_611_686_018_427_387_904;

/// The events so far, and room for more. Contracts see the newest event first. There may have been earlier
/// runs, whose events are not here.
#[derive(Drop)]
pub struct Log {
    events: Vec<Event>,
}

impl Model for Log {
    ghost use Rattle.std.specs.Prelude.{reverse, length};
    ghost use Rattle.std.specs.Vec.{vec_capacity};
    ghost use Rattle.rz_log.specs.Logged.{Logged, logged_code, IsLogCount, room_for};

    ghost Value = { Logged };

    ghost coded = { logged_code };

    ghost view = { λ l. record { events = reverse l.events.items; room = room_for (vec_capacity l.events) (length l.events.items) } };

    ghost invariant = { λ l. IsLogCount (length l.events.items) };
}

impl Log {
    /// A log with no event.
    pub fn new(alloc: Global) -> Log
        ensures { result.events ≡ [] }
    {
        Log {
            events: Vec::new(alloc),
        }
    }

    /// Makes room for two events. A log of more than 2^62 events gets no more room.
    pub fn make_room(&mut self) -> Result<(), AllocError>
        ensures same { self.new.events ≡ self.old.events }
        ensures ok { OnOk result (2 ≤ self.new.room) }
        ensures short { OnOk result (length self.new.events ≤ 2 ^ 62) }
    {
        if self.events.len() > MOST_EVENTS {
            return Err(AllocError);
        }
        self.events.reserve(2)?;
        Ok(())
    }

    /// Adds an event.
    pub fn note(&mut self, event: Event)
        requires room { 0 < self.old.room }
        ensures noted { self.new.events ≡ event ∷ self.old.events }
        ensures room { self.old.room ≤ self.new.room + 1 }
    {
        self.events.push_reserved(event);
    }

    /// The events, the oldest first.
    pub fn events(&self) -> &[Event]
        ensures { result.now ≡ reverse self.now.events }
    {
        self.events.as_slice()
    }

    /// The events, the oldest first.
    pub fn close(self) -> Vec<Event>
        ensures events { result.items ≡ reverse self.events }
        ensures short { length self.events ≤ 2 ^ 62 + 2 }
    {
        self.events
    }
}
