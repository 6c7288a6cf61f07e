//! The trait of a disk.
ghost use Rattle.std.specs.Prelude.{◌≡◌, ◌⊎◌, ◌+◌, ◌≤◌, ℕ, Bool, false, List, length, replicate, Option, None, IsTrue, IsErrOf, OnOk, OnErr, if◌then◌else◌};
ghost use Rattle.rz_disk.specs.Images.{window, Torn, Written, Follows, Within, Only};
ghost use Rattle.rz_disk.specs.Meter.{Meter, Passes, Rises, faults, armed};

use std::alloc::Global;

/// A device call failed.
#[derive(Clone, Copy, Debug, PartialEq, Eq)]
pub struct Failed;

/// Why a disk was not reset.
#[derive(Clone, Copy, Debug, PartialEq, Eq)]
pub enum DiskError {
    Failed,
    NoMemory,
}

/// A disk of bytes, which a crash may leave other than a read gives it.
///
/// A device call is a `read`, a `write_at` or a `sync`. Each contract holds on every exit, so a
/// stop before, within or after a call leaves an image that one exit of the call has.
pub trait Disk: Drop {
    /// Whether it tells what a read gives.
    ghost tells: { Bool };

    /// Whether it can be armed.
    ghost has_fuse: { Bool };

    /// What a read gives, where that is told. It has the disk's size, told or not.
    ghost text: { Self → List ℕ };

    /// What a crash at this moment may leave.
    ghost image: { Self → List ℕ → Type 0 };

    /// What a crash with a pick leaves to be read, in the disk's own way.
    ghost picks: { Self → ℕ → List ℕ → Type 0 };

    /// Its faults, those that its fuse planned, and the passes that it has left where it is armed.
    ghost meter: { Self → Meter };

    /// The number of its bytes.
    fn size(&self) -> u64
        ensures { result ≡ length (text self.now) };

    /// Makes it `size` zero bytes.
    fn reset(&mut self, alloc: Global, size: u64) -> Result<(), DiskError>
        ensures text { OnOk result (text self.new ≡ replicate size 0) }
        ensures only { OnOk result (Only (text self.new) (image self.new)) }

        // After an error it has its old text or those zeros, and no image but the old ones and
        // those zeros.
        ensures kept { OnErr result ((text self.new ≡ text self.old)
            ⊎ (text self.new ≡ replicate size 0)) }
        ensures crash { (c : List ℕ) → image self.new c → image self.old c
            ⊎ (c ≡ replicate size 0) }

        // It takes no pass and plans no fault.
        ensures fuse { (meter self.new).fuse ≡ (meter self.old).fuse }
        ensures planned { (meter self.new).planned ≡ (meter self.old).planned }
        ensures own { (meter self.old).own ≤ (meter self.new).own }

        // Want of memory is no fault.
        ensures risen { IsErrOf result DiskError.Failed
            → Rises (faults (meter self.old)) (faults (meter self.new)) }
        ensures own_risen { IsErrOf result DiskError.Failed
            → Rises (meter self.old).own (meter self.new).own };

    /// Reads the bytes from `at` on. A failed read may leave anything in `out`.
    fn read(&mut self, at: u64, out: &mut [u8]) -> Result<(), Failed>
        requires { at + length out.old ≤ length (text self.old) }
        ensures gives { OnOk result (IsTrue Self.tells
            → out.new ≡ window at (length out.old) (text self.old)) }
        ensures text { text self.new ≡ text self.old }
        ensures crash { Within (image self.old) (image self.new) }
        ensures kept { Within (image self.new) (image self.old) }
        ensures meter { Passes result (meter self.old) (meter self.new) };

    /// Writes the bytes from `at` on.
    fn write_at(&mut self, at: u64, bytes: &[u8]) -> Result<(), Failed>
        requires { at + length bytes.now ≤ length (text self.old) }
        ensures size { length (text self.new) ≡ length (text self.old) }
        ensures written { OnOk result (IsTrue Self.tells
            → Written at bytes.now (text self.old) (text self.new)) }

        // On every exit: a crash may leave any bytes in the range.
        ensures crash { Follows (Torn at (length bytes.now)) (image self.old) (image self.new) }
        ensures meter { Passes result (meter self.old) (meter self.new) };

    /// Brings what was written onto the disk. A failed sync changes nothing.
    fn sync(&mut self) -> Result<(), Failed>
        ensures text { text self.new ≡ text self.old }
        ensures only { OnOk result (Only (text self.old) (image self.new)) }
        ensures crash { Within (image self.old) (image self.new) }
        ensures kept { OnErr result (Within (image self.new) (image self.old)) }
        ensures meter { Passes result (meter self.old) (meter self.new) };

    /// Loses what a loss of power may lose. `pick` says which image is left, in the disk's own way.
    fn crash(&mut self, pick: u64)
        ensures by_pick { picks self.old pick (text self.new) }
        ensures left { IsTrue Self.tells → image self.old (text self.new) }
        ensures only { Only (text self.new) (image self.new) }
        ensures meter { meter self.new ≡ meter self.old };

    /// Arms a disk that has a fuse with `Some` passes, and disarms it with `None`.
    fn arm(&mut self, passes: Option<u64>)
        ensures text { text self.new ≡ text self.old }
        ensures crash { Within (image self.old) (image self.new) }
        ensures kept { Within (image self.new) (image self.old) }
        ensures meter { meter self.new
            ≡ (if Self.has_fuse then armed passes (meter self.old) else meter self.old) };

    ghost text_is_image: { (d : Self) → IsTrue Self.tells → image d (text d) };

    ghost no_fuse: { (d : Self) → Self.has_fuse ≡ false → (meter d).fuse ≡ None };

    ghost none_planned: { (d : Self) → Self.has_fuse ≡ false → (meter d).planned ≡ 0 };
}
