//! A disk that keeps nothing.

ghost use Rattle.std.specs.Prelude.{◌≡◌, ◌+◌, ◌≤◌, false, refl, None, length, replicate};

use rz_disk::{Disk, DiskError, Failed};
use std::alloc::Global;

/// No call of it fails, and none takes memory. It tells no text, since it reads as zeros whatever was
/// written, and a crash leaves it alone.
#[derive(Drop)]
pub struct Blank {
    size: u64,
}

impl Blank {
    /// A disk of no bytes.
    pub fn new() -> Blank
        ensures { result.size ≡ 0 }
    {
        Blank { size: 0 }
    }
}

impl Disk for Blank {
    ghost tells = { false };

    ghost has_fuse = { false };

    ghost text = { λ d. replicate d.size 0 };

    ghost image = { λ d c. ⊥ };

    ghost picks = { λ d pick c. c ≡ replicate d.size 0 };

    ghost meter = { λ d. record { fuse = None; planned = 0; own = 0 } };

    ghost text_is_image = { λ d no. cc };

    ghost no_fuse = { λ d _. refl };

    ghost none_planned = { λ d _. refl };

    fn size(&self) -> u64 {
        self.size
    }

    fn reset(&mut self, _alloc: Global, size: u64) -> Result<(), DiskError> {
        self.size = size;
        Ok(())
    }

    fn read(&mut self, _at: u64, out: &mut [u8]) -> Result<(), Failed> {
        out.fill(0);
        Ok(())
    }

    fn write_at(&mut self, _at: u64, _bytes: &[u8]) -> Result<(), Failed> {
        Ok(())
    }

    fn sync(&mut self) -> Result<(), Failed> {
        Ok(())
    }

    fn crash(&mut self, _pick: u64) {}

    fn arm(&mut self, _passes: Option<u64>) {}
}
