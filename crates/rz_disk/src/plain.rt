//! A disk in memory that never fails.
ghost use Rattle.std.specs.Prelude.{◌≡◌, ◌+◌, ◌≤◌, true, false, refl, None, length, replicate, [], IsOk, IsErrOf, OnOk, OnErr};
ghost use Rattle.rz_disk.specs.Images.{window, Torn, Follows};
ghost use Rattle.rz_disk.specs.Stored.{settled, Writes, Picked, Leaves};

use crate::medium::Medium;
use crate::{Disk, DiskError, Failed};
use std::alloc::Global;
use std::marker::Model;

/// A reset reserves three bytes for each byte of disk, and touches none of them.
#[derive(Drop)]
pub struct PlainDisk {
    medium: Medium,
}

impl Model for PlainDisk {
    ghost use Rattle.rz_disk.specs.Stored.{Stored};

    ghost Value = { Stored };

    ghost view = { λ d. d.medium };
}

impl PlainDisk {
    /// A disk of no bytes.
    pub fn new(alloc: Global) -> PlainDisk
        ensures { result ≡ settled [] }
    {
        PlainDisk {
            medium: Medium::new(alloc),
        }
    }
}

impl Disk for PlainDisk {
    ghost tells = { true };

    ghost has_fuse = { false };

    ghost text = { λ d. d.text };

    ghost image = { λ d. Leaves d.marks d.text };

    ghost picks = { λ d pick. Picked pick d.synced d.marks d.text };

    ghost meter = { λ d. record { fuse = None; planned = 0; own = 0 } };

    ghost text_is_image = { λ d _. record { size = refl; same = λ i free. refl } };

    ghost no_fuse = { λ d _. refl };

    ghost none_planned = { λ d _. refl };

    fn size(&self) -> u64 {
        self.medium.len()
    }

    fn reset(&mut self, alloc: Global, size: u64) -> Result<(), DiskError>
        ensures ok { OnOk result (self.new ≡ settled (replicate size 0)) }
        ensures err { OnErr result (self.new ≡ self.old) }
        ensures never_fails { IsErrOf result DiskError.Failed → ⊥ }
    {
        match Medium::zeros(alloc, size) {
            Ok(zeros) => {
                self.medium = zeros;
                Ok(())
            }
            Err(_) => Err(DiskError::NoMemory),
        }
    }

    fn read(&mut self, at: u64, out: &mut [u8]) -> Result<(), Failed>
        requires { at + length out.old ≤ length self.old.text }
        ensures ok { IsOk result }
        ensures gives { out.new ≡ window at (length out.old) self.old.text }
        ensures same { self.new ≡ self.old }
    {
        self.medium.read(at, out);
        Ok(())
    }

    fn write_at(&mut self, at: u64, bytes: &[u8]) -> Result<(), Failed>
        requires { at + length bytes.now ≤ length self.old.text }
        ensures ok { IsOk result }
        ensures writes { Writes at bytes.now self.old self.new }
        ensures crash { Follows (Torn at (length bytes.now))
            (Leaves self.old.marks self.old.text) (Leaves self.new.marks self.new.text) }
    {
        self.medium.write(at, bytes);
        Ok(())
    }

    fn sync(&mut self) -> Result<(), Failed>
        ensures ok { IsOk result }
        ensures settled { self.new ≡ settled self.old.text }
    {
        self.medium.sync();
        Ok(())
    }

    fn crash(&mut self, pick: u64)
        ensures left { Picked pick self.old.synced self.old.marks self.old.text self.new.text }
        ensures settled { self.new ≡ settled self.new.text }
    {
        self.medium.crash(pick);
    }

    fn arm(&mut self, _passes: Option<u64>)
        ensures { self.new ≡ self.old }
    {}
}
