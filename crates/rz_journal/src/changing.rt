//! The two changes of a disk, each of which one bit decides.

ghost use Rattle.std.specs.Prelude.{◌≡◌, ◌⊎◌, ◌+◌, ◌-◌, ◌*◌, ◌^◌, ◌<◌, ◌≤◌, ℕ, List, [], ◌∷◌, length, IsTrue, IsErr, OnOk};
ghost use Rattle.rz_disk.specs.Images.{Only};
ghost use Rattle.rz_disk.specs.Meter.{Took, Lasts, Rises, HasPasses, faults};
ghost use Rattle.rz_journal.specs.Row.{Entries, taken, row_bytes};
ghost use Rattle.rz_journal.specs.Stands.{disk_bytes, half_at, HalfHolds, with_last};

use crate::shape::{HALF_GATE, half_at};
use rz_disk::{Disk, Failed, store};

/// Writes an entry behind the shut gate at an address, and then opens that gate. `row` is the entry
/// alone, as it is to stand there, with a shut gate behind it.
pub fn add<D: Disk>(disk: &mut D, at: u64, row: &[u8]) -> Result<(), Failed>
    requires some { 1 ≤ length row.now }
    requires range { at + length row.now ≤ length (D.text disk.old) }
    requires near { at < 2 ^ 40 }
    requires settled { Only (D.text disk.old) (D.image disk.old) }

    // On every exit each image holds the entries from before, or these and the new one.
    ensures crash { IsTrue D.tells → (half : ℕ) (entries : Entries) (entry c : List ℕ) → row.now ≡ row_bytes (entry ∷ [])
        → at ≡ half_at half + taken entries → taken entries + (5 + length entry) < 8_388_576
        → HalfHolds half entries (D.text disk.old) → D.image disk.new c → HalfHolds half entries c ⊎ HalfHolds half (with_last entry entries) c }

    // And then the text, which is the one image, holds these and the new one.
    ensures done { OnOk result (IsTrue D.tells → (half : ℕ) (entries : Entries) (entry : List ℕ) → row.now ≡ row_bytes (entry ∷ [])
        → at ≡ half_at half + taken entries → taken entries + (5 + length entry) < 8_388_576
        → HalfHolds half entries (D.text disk.old) → HalfHolds half (with_last entry entries) (D.text disk.new)) }
    ensures size { length (D.text disk.new) ≡ length (D.text disk.old) }
    ensures settled { OnOk result (Only (D.text disk.new) (D.image disk.new)) }

    ensures took { Took 4 result (D.meter disk.old) (D.meter disk.new) }
    ensures meter { Lasts (D.meter disk.old) (D.meter disk.new) }
    ensures risen { IsErr result → Rises (faults (D.meter disk.old)) (faults (D.meter disk.new)) }
    ensures own_risen { IsErr result → HasPasses 4 (D.meter disk.old) → Rises (D.meter disk.old).own (D.meter disk.new).own }
{
    store(disk, at + 1, &row[1..])?;
    store(disk, at, &[1])?;
    Ok(())
}

/// Writes entries into the half that does not count, and then lets the disk pick it. `row` is the
/// entries as they are to stand there, with a shut gate behind the last.
pub fn replace<D: Disk>(disk: &mut D, half: u8, row: &[u8]) -> Result<(), Failed>
    requires half { half < 2 }
    requires room { length row.now ≤ 8_388_576 }
    requires size { length (D.text disk.old) ≡ disk_bytes }
    requires settled { Only (D.text disk.old) (D.image disk.old) }

    // On every exit each image holds the entries from before, or the new ones in the other half.
    ensures crash { IsTrue D.tells → (entries new : Entries) (c : List ℕ) → row.now ≡ row_bytes new → taken new < 8_388_576
        → HalfHolds half entries (D.text disk.old) → D.image disk.new c → HalfHolds half entries c ⊎ HalfHolds (1 - half) new c }

    // And then the text, which is the one image, holds the new ones.
    ensures done { OnOk result (IsTrue D.tells → (entries new : Entries) → row.now ≡ row_bytes new → taken new < 8_388_576
        → HalfHolds half entries (D.text disk.old) → HalfHolds (1 - half) new (D.text disk.new)) }
    ensures size { length (D.text disk.new) ≡ length (D.text disk.old) }
    ensures settled { OnOk result (Only (D.text disk.new) (D.image disk.new)) }

    ensures took { Took 4 result (D.meter disk.old) (D.meter disk.new) }
    ensures meter { Lasts (D.meter disk.old) (D.meter disk.new) }
    ensures risen { IsErr result → Rises (faults (D.meter disk.old)) (faults (D.meter disk.new)) }
    ensures own_risen { IsErr result → HasPasses 4 (D.meter disk.old) → Rises (D.meter disk.old).own (D.meter disk.new).own }
{
    let other = 1 - half;
    let start = half_at(other);
    store(disk, start, row)?;
    store(disk, HALF_GATE, &[other])?;
    Ok(())
}
