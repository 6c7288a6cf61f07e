//! The change of one cell.
ghost use Rattle.std.specs.Prelude.{◌≡◌, ◌+◌, ◌-◌, ◌*◌, ◌%◌, ◌<◌, ◌≤◌, ℕ, List, Option, length, slice_index, slice_set, IsTrue, OnOk};
ghost use Rattle.rz_disk.specs.Images.{Only};
ghost use Rattle.rz_record.specs.Slot.{Rec, Spells};
ghost use Rattle.rz_cells_slots.specs.Counted.{Counted};
ghost use Rattle.rz_cells_slots.specs.Shape.{IsGeometry, disk_bytes, slot_of, gate_at};
ghost use Rattle.rz_cells_slots.specs.Stands.{HoldsChanged, HoldsEither, Suits};
ghost use Rattle.rz_cells_slots.specs.Open.{Knows};

use crate::Geometry;
use crate::geometry::HEADER_BYTES;
use rz_disk::{Disk, Failed, store};

/// Writes bytes into the slot that the cell's gate does not pick, and then lets the gate pick it.
pub fn switch<D: Disk>(
    disk: &mut D,
    geometry: &Geometry,
    cell: u32,
    gate: u8,
    bytes: &[u8],
) -> Result<(), Failed>
    requires geometry { IsGeometry geometry.now }
    requires cell { cell < 2 * geometry.now.cells }
    requires long { length bytes.now ≤ slot_of geometry.now }
    requires size { length (D.text disk.old) ≡ disk_bytes geometry.now }
    requires settled { Only (D.text disk.old) (D.image disk.old) }
    requires gate { IsTrue D.tells → gate % 2 ≡ slice_index (D.text disk.old) (gate_at cell) % 2 }

    // On every exit each image holds the cells from before, or with the new one.
    ensures crash { IsTrue D.tells → (fence : ℕ) (new : Option Rec) → Spells (slot_of geometry.now) bytes.now new → Suits geometry.now new
        → HoldsEither geometry.now fence (D.text disk.old) (D.image disk.new) cell new }

    // And then the text, which is the one image, holds them with the new one.
    ensures done { OnOk result (IsTrue D.tells → (fence : ℕ) (new : Option Rec) → Spells (slot_of geometry.now) bytes.now new → Suits geometry.now new
        → HoldsChanged geometry.now fence (D.text disk.old) (D.text disk.new) cell new) }
    ensures gates { OnOk result (IsTrue D.tells → (gates : List ℕ) → length gates ≡ 2 * geometry.now.cells → Knows geometry.now gates (D.text disk.old)
        → Knows geometry.now (slice_set gates cell (1 - gate % 2)) (D.text disk.new)) }
    ensures size { length (D.text disk.new) ≡ length (D.text disk.old) }
    ensures settled { OnOk result (Only (D.text disk.new) (D.image disk.new)) }

    ensures meter { Counted 4 result (D.meter disk.old) (D.meter disk.new) }
{
    let other = 1 - gate % 2;
    let at = geometry.slot_at(cell, other);
    store(disk, at, bytes)?;
    store(disk, HEADER_BYTES + cell as u64, &[other])?;
    Ok(())
}
