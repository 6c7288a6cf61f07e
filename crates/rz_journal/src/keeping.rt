//! A call that is answered, and kept where it is accepted.

ghost use Rattle.std.specs.Prelude.{◌≡◌, ◌⊎◌, ◌+◌, ◌≤◌, None, length, IsTrue, IsErrOf, IfOk, IfErr, OnOk};
ghost use Rattle.rz_disk.specs.Meter.{Lasts, Rises, faults};
ghost use Rattle.rz_events.specs.Borrowed.{call_of};
ghost use Rattle.rz_export_model.specs.Export.{is_proper};
ghost use Rattle.rz_journal.specs.Said.{entry_of};
ghost use Rattle.rz_export.specs.Calls.{IsAnswered};
ghost use Rattle.rz_journal.specs.Kept.{IsJournalReady, IsRowOf, AllKeepEither};
ghost use Rattle.rz_journal.specs.Room.{FitsNowhere, IsHalt};
ghost use Rattle.rz_journal.specs.Said.{used_after};

use crate::Entries;
use crate::room::{Halt, make_room};
use crate::said::accepts;
use rz_disk::{Disk, Failed};
use rz_events::{CallRef, Reply};
use rz_export::Export;
use std::alloc::Global;

/// Answers a call whose entry has this row, and writes the entry where the call is accepted.
pub fn keep<D: Disk>(
    alloc: Global,
    export: &mut Export,
    entries: &mut Entries<D>,
    call: CallRef<'_>,
    row: &[u8],
) -> Result<Reply, Halt>
    requires ready { IsJournalReady D.tells (D.text entries.old.disk) (D.image entries.old.disk) entries.old.half entries.old.used export.old }
    requires proper { IsTrue (is_proper export.old (call_of call)) }
    requires row { IsRowOf (call_of call) row.now }
    ensures ready { OnOk result (IsJournalReady D.tells (D.text entries.new.disk) (D.image entries.new.disk) entries.new.half entries.new.used export.new) }
    ensures answered { IfOk result (λ r. IsAnswered export.old (call_of call.entry) r export.new) }
    ensures fits { OnOk result (¬ FitsNowhere export.old entries.old.used (length row.now)) }
    ensures halted { IfErr result (IsHalt export.old entries.old.used (length row.now)) }
    ensures untouched { IfErr result (λ h. (h ≡ Halt.Failed) ⊎ ((entries.new ≡ entries.old) × (export.new ≡ export.old))) }
    ensures volume { export.new.volume ≡ export.old.volume }

    // A row that fits goes behind the others, where the call is accepted, and their half goes on to count.
    ensures used { IfOk result (λ r. entries.old.used + length row.now ≤ 8_388_576 → entries.new.used ≡ used_after r (length row.now) entries.old.used) }
    ensures half { OnOk result (entries.old.used + length row.now ≤ 8_388_576 → entries.new.half ≡ entries.old.half) }

    // On every exit.
    ensures images { IsTrue D.tells → AllKeepEither (D.image entries.new.disk) export.old (call_of call.entry) }

    ensures meter { Lasts (D.meter entries.old.disk) (D.meter entries.new.disk) }
    ensures risen { IsErrOf result Halt.Failed → Rises (faults (D.meter entries.old.disk)) (faults (D.meter entries.new.disk)) }
{
    rz_export_laws::exports::stays_whole();
    make_room(alloc, export, entries, row)?;
    let reply = export.answer_ref(call);
    if !accepts(&reply) {
        return Ok(reply);
    }
    match entries.append(row) {
        Ok(()) => Ok(reply),
        Err(Failed) => {
            drop(reply);
            Err(Halt::Failed)
        }
    }
}

/// Answers a call that has no entry, which changes nothing.
pub fn look(export: &mut Export, call: CallRef<'_>) -> Reply
    requires proper { IsTrue (is_proper export.old (call_of call)) }
    requires entry { entry_of (call_of call) ≡ None }
    ensures answered { IsAnswered export.old (call_of call.entry) result export.new }
    ensures same { export.new ≡ export.old }
{
    export.answer_ref(call)
}
