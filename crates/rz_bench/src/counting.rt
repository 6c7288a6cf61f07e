//! A disk in memory that counts what is written on it.

ghost use Rattle.std.specs.Prelude.{◌≡◌, ◌+◌, ◌≤◌, false, refl, None, length};

use rz_disk::{Disk, DiskError, Failed};
use std::alloc::{AllocError, Global};

/// The address of the byte of a journal's header that picks the half in use.
const PICK: u64 = 33;

/// It reads what was written, and a crash leaves it alone. No call of it fails, but a reset for which
/// memory is wanting. Nothing is said of its bytes but how many there are.
#[derive(Drop)]
pub struct CountingDisk {
    bytes: Vec<u8>,
    written: Written,
}

/// What was written on a disk. The counts stay at the last u64.
#[derive(Clone, Copy, Drop)]
pub struct Written {
    pub bytes: u64,
    /// How often another half was picked.
    pub changes: u64,
}

impl CountingDisk {
    /// A disk of no bytes.
    pub fn new(alloc: Global) -> CountingDisk {
        CountingDisk {
            bytes: Vec::new(alloc),
            written: Written {
                bytes: 0,
                changes: 0,
            },
        }
    }

    /// What was written since it was made, or since this was asked last.
    pub fn take_written(&mut self) -> Written
        ensures { result ≡ self.old.written }
    {
        let written = self.written;
        self.written = Written {
            bytes: 0,
            changes: 0,
        };
        written
    }
}

impl Disk for CountingDisk {
    ghost tells = { false };

    ghost has_fuse = { false };

    ghost text = { λ d. d.bytes.items };

    ghost image = { λ d c. ⊥ };

    ghost picks = { λ d pick c. c ≡ d.bytes.items };

    ghost meter = { λ d. record { fuse = None; planned = 0; own = 0 } };

    ghost text_is_image = { λ d no. cc };

    ghost no_fuse = { λ d _. refl };

    ghost none_planned = { λ d _. refl };

    fn size(&self) -> u64 {
        self.bytes.len() as u64
    }

    fn reset(&mut self, alloc: Global, size: u64) -> Result<(), DiskError> {
        match Vec::from_elem(alloc, 0, size as usize) {
            Ok(zeros) => {
                self.bytes = zeros;
                Ok(())
            }
            Err(AllocError) => Err(DiskError::NoMemory),
        }
    }

    fn read(&mut self, at: u64, out: &mut [u8]) -> Result<(), Failed> {
        let start = at as usize;
        out.copy_from_slice(&self.bytes[start..start + out.len()]);
        Ok(())
    }

    fn write_at(&mut self, at: u64, bytes: &[u8]) -> Result<(), Failed> {
        let start = at as usize;
        self.bytes[start..start + bytes.len()].copy_from_slice(bytes);
        self.written.bytes = self.written.bytes.saturating_add(bytes.len() as u64);
        if at == PICK {
            self.written.changes = self.written.changes.saturating_add(1);
        }
        Ok(())
    }

    fn sync(&mut self) -> Result<(), Failed> {
        Ok(())
    }

    fn crash(&mut self, _pick: u64) {}

    fn arm(&mut self, _passes: Option<u64>) {}
}
