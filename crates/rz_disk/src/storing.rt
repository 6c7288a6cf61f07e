//! A write that is on the disk when it has succeeded.
ghost use Rattle.std.specs.Prelude.{◌≡◌, ◌+◌, ◌≤◌, ℕ, List, length, IsTrue, IsErr, OnOk};
ghost use Rattle.rz_disk.specs.Images.{Torn, Written, Only};
ghost use Rattle.rz_disk.specs.Meter.{Took, Lasts, Rises, HasPasses, faults};

use crate::{Disk, Failed};

/// Writes and then syncs. Before, what the disk reads is all on it.
pub fn store<D: Disk>(disk: &mut D, at: u64, bytes: &[u8]) -> Result<(), Failed>
    requires range { at + length bytes.now ≤ length (D.text disk.old) }
    requires only { Only (D.text disk.old) (D.image disk.old) }
    ensures size { length (D.text disk.new) ≡ length (D.text disk.old) }

    // On every exit.
    ensures crash { (c : List ℕ) → D.image disk.new c
        → Torn at (length bytes.now) (D.text disk.old) c }
    ensures only { OnOk result (Only (D.text disk.new) (D.image disk.new)) }
    ensures written { OnOk result (IsTrue D.tells
        → Written at bytes.now (D.text disk.old) (D.text disk.new)) }

    ensures took { Took 2 result (D.meter disk.old) (D.meter disk.new) }
    ensures meter { Lasts (D.meter disk.old) (D.meter disk.new) }
    ensures risen { IsErr result → Rises (faults (D.meter disk.old)) (faults (D.meter disk.new)) }
    ensures own_risen { IsErr result → HasPasses 2 (D.meter disk.old)
        → Rises (D.meter disk.old).own (D.meter disk.new).own }
{
    disk.write_at(at, bytes)?;
    disk.sync()
}
