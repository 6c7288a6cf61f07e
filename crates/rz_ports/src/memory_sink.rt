//! Sinks in memory.
ghost use Rattle.std.specs.Prelude.{◌≡◌, ◌+◌, ◌-◌, ◌<◌, ◌≤◌, ◌↔◌, ◌⊎◌, ◌++◌, [], ℕ, Some, length, take, min, is_err, IfOk, IsErr, OnErr, vec_len, vec_capacity};
ghost use Rattle.std.specs.Io.KnownBytes.{Appends, Keeps};
ghost use Rattle.rz_ports.specs.Counts.{Rises};
ghost use Rattle.rz_ports.specs.Memory.{Store, Deposit, FailsNext, after_call, after_write};

use crate::plan::FaultPlan;
use crate::{Failed, Sink};
use std::alloc::{AllocError, Global};
use std::marker::Model;

/// A sink in memory with room for so many bytes. A write takes as many as there is room for. Once
/// the room is used up, a write takes none, and of a piece that is not empty that is a fault.
#[derive(Drop)]
pub struct PlainSink {
    bytes: Vec<u8>,
    room: usize,
    refusals: u64,
}

impl Model for PlainSink {
    ghost Value = { Store };

    ghost view = { λ s. record { taken = s.bytes.items; room = s.room; refusals = s.refusals } };

    ghost invariant = { λ s. (vec_len s.bytes ≤ s.room) × (s.room ≤ vec_capacity s.bytes) };
}

impl PlainSink {
    /// An empty sink with room for `room` bytes, whose memory is taken here.
    pub fn with_room(alloc: Global, room: usize) -> Result<Self, AllocError>
        ensures { IfOk result (λ s. s ≡ record { taken = []; room = room; refusals = 0 }) }
    {
        Ok(PlainSink {
            bytes: Vec::with_capacity(alloc, room)?,
            room,
            refusals: 0,
        })
    }

    /// The bytes that were taken.
    pub fn taken(&self) -> &[u8]
        ensures { result.now ≡ self.now.taken }
    {
        &self.bytes
    }
}

impl Sink for PlainSink {
    ghost taken = { λ store. Some store.taken };

    ghost faults = { λ store. store.refusals };

    fn write(&mut self, bytes: &[u8]) -> Result<usize, Failed>
        ensures count { result ≡ Ok (min (length bytes.now) (self.old.room - length self.old.taken)) }
        ensures after { IfOk result (λ n. self.new ≡ after_write n bytes.now self.old) }
    {
        let n = bytes.len().min(self.room - self.bytes.len());
        if n == 0 && !bytes.is_empty() {
            self.refusals = self.refusals.saturating_add(1);
            return Ok(0);
        }
        match self.bytes.extend_from_slice(&bytes[..n]) {
            Ok(()) => Ok(n),
            Err(_) => unreachable!(),
        }
    }
}

/// A sink in memory of which some writes fail, by their numbers. A failed write takes nothing, and
/// the other writes are those of a [`PlainSink`].
#[derive(Drop)]
pub struct MemSink {
    store: PlainSink,
    plan: FaultPlan,
}

impl Model for MemSink {
    ghost Value = { Deposit };

    ghost view = { λ s. record { store = s.store; calls = s.plan } };
}

impl MemSink {
    /// An empty sink with room for `room` bytes, whose memory is taken here, and of which the
    /// writes with these numbers fail, counted from 0. A number that stands twice counts once.
    pub fn with_room(alloc: Global, room: usize, fails: Vec<u64>) -> Result<Self, AllocError>
        ensures store { IfOk result (λ s. s.store ≡ record { taken = []; room = room; refusals = 0 }) }
        ensures calls { IfOk result (λ s. s.calls ≡ record { made = 0; fails = fails.items; failed = 0 }) }
    {
        Ok(MemSink {
            store: PlainSink::with_room(alloc, room)?,
            plan: FaultPlan::new(fails),
        })
    }

    /// The bytes that were taken.
    pub fn taken(&self) -> &[u8]
        ensures { result.now ≡ self.now.store.taken }
    {
        self.store.taken()
    }
}

impl Sink for MemSink {
    ghost taken = { λ deposit. Some deposit.store.taken };

    ghost faults = { λ deposit. deposit.store.refusals + deposit.calls.failed };

    fn write(&mut self, bytes: &[u8]) -> Result<usize, Failed>
        ensures fails { IsErr result ↔ FailsNext self.old.calls }
        ensures calls { self.new.calls ≡ after_call (is_err result) self.old.calls }

        ensures count { IfOk result (λ n. n ≡ min (length bytes.now) (self.old.store.room - length self.old.store.taken)) }
        ensures after { IfOk result (λ n. self.new.store ≡ after_write n bytes.now self.old.store) }
        ensures kept { OnErr result (self.new.store ≡ self.old.store) }
    {
        if self.plan.next_fails() {
            Err(Failed)
        } else {
            self.store.write(bytes)
        }
    }
}
