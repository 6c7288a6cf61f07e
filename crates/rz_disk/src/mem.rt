//! A disk in memory, of which some calls fail.
ghost use Rattle.std.specs.Prelude.{◌≡◌, ◌+◌, ◌≤◌, ◌==◌, ◌↔◌, true, false, refl, None, length, replicate, is_err, IsErr, IsTrue, IsErrOf, OnOk, OnErr, if◌then◌else◌};
ghost use Rattle.std.specs.List.{list_any};
ghost use Rattle.rz_disk.specs.Images.{window, Torn, Follows};
ghost use Rattle.rz_disk.specs.Stored.{settled, Writes, Picked, Leaves};
ghost use Rattle.rz_disk.specs.Scheduled.{unused, is_to_fail, Counts};
ghost use Rattle.rz_disk.specs.Meter.{one_more};

use crate::medium::Medium;
use crate::{Disk, DiskError, Failed};
use std::alloc::Global;
use std::marker::Model;

/// A reset reserves three bytes for each byte of disk, and touches none of them. Its calls `reset`,
/// `read`, `write_at` and `sync` are counted together, from 0, and it has a list of those that fail. A
/// call that fails changes the counts alone. A reset that is refused for memory changes nothing, and
/// is not counted.
#[derive(Drop)]
pub struct MemDisk {
    medium: Medium,
    fails: Vec<u64>,
    calls: u64,
    faults: u64,
}

impl Model for MemDisk {
    ghost use Rattle.rz_disk.specs.Scheduled.{Scheduled};

    ghost Value = { Scheduled };

    ghost view = { λ d. record {
      stored = d.medium;
      fails = d.fails.items;
      calls = d.calls;
      faults = d.faults;
    } };
}

impl MemDisk {
    /// A disk of no bytes. `fails` has the numbers of the calls that are to fail.
    pub fn new(alloc: Global, fails: Vec<u64>) -> MemDisk
        ensures { result ≡ unused fails.items }
    {
        MemDisk {
            medium: Medium::new(alloc),
            fails,
            calls: 0,
            faults: 0,
        }
    }
}

/// Counts a call, and answers whether it is to fail.
fn count(fails: &[u64], calls: &mut u64, faults: &mut u64) -> bool
    ensures answer { result ≡ list_any (λ n. n == calls.old) fails.now }
    ensures calls { calls.new ≡ one_more calls.old }
    ensures faults { faults.new ≡ (if result then one_more faults.old else faults.old) }
{
    let failed = fails.contains(calls);
    *calls = calls.saturating_add(1);
    if failed {
        *faults = faults.saturating_add(1);
    }
    failed
}

impl Disk for MemDisk {
    ghost tells = { true };

    ghost has_fuse = { false };

    ghost text = { λ d. d.stored.text };

    ghost image = { λ d. Leaves d.stored.marks d.stored.text };

    ghost picks = { λ d pick. Picked pick d.stored.synced d.stored.marks d.stored.text };

    ghost meter = { λ d. record { fuse = None; planned = 0; own = d.faults } };

    ghost text_is_image = { λ d _. record { size = refl; same = λ i free. refl } };

    ghost no_fuse = { λ d _. refl };

    ghost none_planned = { λ d _. refl };

    fn size(&self) -> u64 {
        self.medium.len()
    }

    fn reset(&mut self, alloc: Global, size: u64) -> Result<(), DiskError>
        ensures ok { OnOk result (self.new.stored ≡ settled (replicate size 0)) }
        ensures err { OnErr result (self.new.stored ≡ self.old.stored) }
        ensures passes { OnOk result (is_to_fail self.old ≡ false) }
        ensures fails { IsErrOf result DiskError.Failed → is_to_fail self.old ≡ true }
        ensures passes_counted { OnOk result (Counts false self.old self.new) }
        ensures fails_counted { IsErrOf result DiskError.Failed → Counts true self.old self.new }
        ensures no_memory { IsErrOf result DiskError.NoMemory → self.new ≡ self.old }
    {
        let zeros = Medium::zeros(alloc, size).map_err(|_| DiskError::NoMemory)?;
        if count(&self.fails, &mut self.calls, &mut self.faults) {
            return Err(DiskError::Failed);
        }
        self.medium = zeros;
        Ok(())
    }

    fn read(&mut self, at: u64, out: &mut [u8]) -> Result<(), Failed>
        requires { at + length out.old ≤ length self.old.stored.text }
        ensures fails { IsErr result ↔ IsTrue (is_to_fail self.old) }
        ensures gives { OnOk result (out.new ≡ window at (length out.old) self.old.stored.text) }
        ensures unread { OnErr result (out.new ≡ out.old) }
        ensures stored { self.new.stored ≡ self.old.stored }
        ensures counts { Counts (is_err result) self.old self.new }
    {
        if count(&self.fails, &mut self.calls, &mut self.faults) {
            return Err(Failed);
        }
        self.medium.read(at, out);
        Ok(())
    }

    fn write_at(&mut self, at: u64, bytes: &[u8]) -> Result<(), Failed>
        requires { at + length bytes.now ≤ length self.old.stored.text }
        ensures fails { IsErr result ↔ IsTrue (is_to_fail self.old) }
        ensures writes { OnOk result (Writes at bytes.now self.old.stored self.new.stored) }
        ensures unwritten { OnErr result (self.new.stored ≡ self.old.stored) }
        ensures crash { Follows (Torn at (length bytes.now))
            (Leaves self.old.stored.marks self.old.stored.text)
            (Leaves self.new.stored.marks self.new.stored.text) }
        ensures counts { Counts (is_err result) self.old self.new }
    {
        if count(&self.fails, &mut self.calls, &mut self.faults) {
            return Err(Failed);
        }
        self.medium.write(at, bytes);
        Ok(())
    }

    fn sync(&mut self) -> Result<(), Failed>
        ensures fails { IsErr result ↔ IsTrue (is_to_fail self.old) }
        ensures settled { OnOk result (self.new.stored ≡ settled self.old.stored.text) }
        ensures unsynced { OnErr result (self.new.stored ≡ self.old.stored) }
        ensures counts { Counts (is_err result) self.old self.new }
    {
        let fails = count(&self.fails, &mut self.calls, &mut self.faults);
        if fails {
            return Err(Failed);
        }
        self.medium.sync();
        Ok(())
    }

    /// Each byte that was written since the last sync becomes the synced one at pick 0, stays at
    /// pick 1, and becomes the low byte of `pick * (address + 1)` at a greater pick.
    fn crash(&mut self, pick: u64)
        ensures left { Picked pick self.old.stored.synced self.old.stored.marks
            self.old.stored.text self.new.stored.text }
        ensures stored { self.new.stored ≡ settled self.new.stored.text }
        ensures same { self.new ≡ record self.old { stored = self.new.stored } }
    {
        self.medium.crash(pick);
    }

    fn arm(&mut self, _passes: Option<u64>)
        ensures { self.new ≡ self.old }
    {}
}
