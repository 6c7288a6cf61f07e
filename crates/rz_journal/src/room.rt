//! Room for one entry more.

ghost use Rattle.std.specs.Prelude.{◌≡◌, ◌⊎◌, ◌+◌, ◌≤◌, length, IsTrue, IsOk, IsErrOf, IfErr, OnOk};
ghost use Rattle.rz_disk.specs.Meter.{Lasts, Rises, faults};
ghost use Rattle.rz_journal.specs.Kept.{IsJournalReady, AllKeep};
ghost use Rattle.rz_journal.specs.Room.{FitsNowhere, IsHalt};

use crate::rows::parts_row;
use crate::{Entries, HALF_BYTES};
use rz_disk::{Disk, Failed};
use rz_export::Export;
use std::alloc::Global;

/// Why an entry was not written.
#[derive(Clone, Copy, Drop)]
pub enum Halt {
    NoMemory,
    /// The parts of the export and the entry take so many bytes in a half.
    Full { need: u64 },
    Failed,
}

/// Makes room for a row: where it has none behind the entries, the parts of the export take their
/// place.
pub fn make_room<D: Disk>(
    alloc: Global,
    export: &Export,
    entries: &mut Entries<D>,
    row: &[u8],
) -> Result<(), Halt>
    requires ready { IsJournalReady D.tells (D.text entries.old.disk) (D.image entries.old.disk) entries.old.half entries.old.used export.now }
    requires some { 1 ≤ length row.now }
    ensures ready { OnOk result (IsJournalReady D.tells (D.text entries.new.disk) (D.image entries.new.disk) entries.new.half entries.new.used export.now) }
    ensures room { OnOk result (entries.new.used + length row.now ≤ 8_388_576) }
    ensures fits { OnOk result (¬ FitsNowhere export.now entries.old.used (length row.now)) }

    // Where it fits behind the entries these stay, and no memory is taken.
    ensures stays { entries.old.used + length row.now ≤ 8_388_576 → IsOk result × (entries.new ≡ entries.old) }

    ensures halted { IfErr result (IsHalt export.now entries.old.used (length row.now)) }
    ensures untouched { IfErr result (λ h. (h ≡ Halt.Failed) ⊎ (entries.new ≡ entries.old)) }

    // On every exit.
    ensures images { IsTrue D.tells → AllKeep (D.image entries.new.disk) export.now }

    ensures meter { Lasts (D.meter entries.old.disk) (D.meter entries.new.disk) }
    ensures risen { IsErrOf result Halt.Failed → Rises (faults (D.meter entries.old.disk)) (faults (D.meter entries.new.disk)) }
{
    rz_export_laws::exports::parts_make_it();
    if entries.has_room(row.len() as u64) {
        return Ok(());
    }
    let Ok(parts) = parts_row(alloc, export) else {
        return Err(Halt::NoMemory);
    };
    let need = (parts.len() - 1) as u64 + row.len() as u64;
    if need > HALF_BYTES {
        return Err(Halt::Full { need });
    }
    match entries.compact(parts.as_slice()) {
        Ok(()) => Ok(()),
        Err(Failed) => Err(Halt::Failed),
    }
}
