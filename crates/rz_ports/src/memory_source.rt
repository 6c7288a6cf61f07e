//! Sources in memory.
ghost use Rattle.std.specs.Prelude.{◌≡◌, ◌<◌, ◌≤◌, ◌↔◌, ◌++◌, [], ℕ, List, Ok, Some, length, take, drop, min, is_err, IfOk, IfSome, IsErr, OnErr};
ghost use Rattle.std.specs.Io.KnownBytes.{Consumes, Keeps};
ghost use Rattle.rz_ports.specs.Counts.{Rises};
ghost use Rattle.rz_ports.specs.Memory.{Feed, FailsNext, after_call};

use crate::plan::FaultPlan;
use crate::{Failed, Source};
use std::marker::Model;

/// A source over bytes in memory that never fails. A read gives as many bytes as there are and as
/// the buffer holds, and leaves the rest of the buffer.
#[derive(Drop)]
pub struct PlainSource {
    bytes: Vec<u8>,
    at: usize,
}

impl Model for PlainSource {
    ghost Value = { List ℕ };

    ghost view = { λ s. drop s.at s.bytes.items };

    ghost invariant = { λ s. s.at ≤ length s.bytes.items };
}

impl PlainSource {
    /// A source that has these bytes left.
    pub fn new(bytes: Vec<u8>) -> Self
        ensures { result ≡ bytes.items }
    {
        PlainSource { bytes, at: 0 }
    }
}

impl Source for PlainSource {
    ghost left = { λ bytes. Some bytes };

    ghost faults = { λ _. 0 };

    fn read(&mut self, out: &mut [u8]) -> Result<usize, Failed>
        ensures count { result ≡ Ok (min (length out.old) (length self.old)) }
        ensures moved { IfOk result (λ n. out.new ≡ take n self.old ++ drop n out.old) }
        ensures left { IfOk result (λ n. self.new ≡ drop n self.old) }
    {
        let rest = &self.bytes[self.at..];
        let n = rest.len().min(out.len());
        out[..n].copy_from_slice(&rest[..n]);
        self.at += n;
        Ok(n)
    }
}

/// A source over bytes in memory of which some reads fail, by their numbers. A failed read moves
/// nothing, and the other reads are those of a [`PlainSource`].
#[derive(Drop)]
pub struct MemSource {
    bytes: PlainSource,
    plan: FaultPlan,
}

impl Model for MemSource {
    ghost Value = { Feed };

    ghost view = { λ s. record { left = s.bytes; calls = s.plan } };
}

impl MemSource {
    /// A source that has these bytes left, and of which the reads with these numbers fail, counted
    /// from 0. A number that stands twice counts once.
    pub fn new(bytes: Vec<u8>, fails: Vec<u64>) -> Self
        ensures left { result.left ≡ bytes.items }
        ensures calls { result.calls ≡ record { made = 0; fails = fails.items; failed = 0 } }
    {
        MemSource {
            bytes: PlainSource::new(bytes),
            plan: FaultPlan::new(fails),
        }
    }
}

impl Source for MemSource {
    ghost left = { λ feed. Some feed.left };

    ghost faults = { λ feed. feed.calls.failed };

    fn read(&mut self, out: &mut [u8]) -> Result<usize, Failed>
        ensures fails { IsErr result ↔ FailsNext self.old.calls }
        ensures calls { self.new.calls ≡ after_call (is_err result) self.old.calls }

        ensures count { IfOk result (λ n. n ≡ min (length out.old) (length self.old.left)) }
        ensures moved { IfOk result (λ n. out.new ≡ take n self.old.left ++ drop n out.old) }
        ensures left { IfOk result (λ n. self.new.left ≡ drop n self.old.left) }

        ensures buffer_kept { OnErr result (out.new ≡ out.old) }
        ensures left_kept { OnErr result (self.new.left ≡ self.old.left) }
    {
        if self.plan.next_fails() {
            Err(Failed)
        } else {
            self.bytes.read(out)
        }
    }
}
