//! The journal.

ghost use Rattle.std.specs.Prelude.{◌≡◌, ◌⊎◌, ◌+◌, ◌≤◌, ℕ, List, [], length, None, false, true, IsTrue, IfOk, IfErr, MatchResult};
ghost use Rattle.rz_disk.specs.Images.{Only};
ghost use Rattle.rz_disk.specs.Meter.{Lasts, Rises, faults};
ghost use Rattle.rz_events.specs.Volume.{IsVolume};
ghost use Rattle.rz_events.specs.Borrowed.{call_of};
ghost use Rattle.rz_events.specs.declared.export.Call.{Call};
ghost use Rattle.rz_export_model.specs.Export.{new_export, is_proper};
ghost use Rattle.rz_journal.specs.Said.{entry_of, used_after};
ghost use Rattle.rz_journal.specs.Stands.{IsSameHalf};
ghost use Rattle.rz_cells_slots.specs.Stands.{IsShut};
ghost use Rattle.rz_journal.specs.JournalText.{IsTextOf};
ghost use Rattle.rz_journal.specs.Kept.{IsRowOf, AllKeep, AllKeepEither, IsExportAfter, AllStandFor, AllStandForEither};
ghost use Rattle.rz_journal.specs.Seen.{IsOpenAnswer, IsJournalAnswer, IsInPlace, IfReply, calls_after};

use crate::keeping::{keep, look};
use crate::room::Halt;
use crate::rows::call_row;
use crate::{Entries, HALF_BYTES};
use rz_cells::FormatFault;
use rz_config::Volume;
use rz_disk::{Disk, DiskError};
use rz_events::{Call, CallRef, Reply};
use rz_export::Export;
use std::alloc::Global;
use std::marker::Model;

/// What a journal answers.
#[derive(Drop)]
pub enum JournalReply {
    /// The export's reply.
    Reply(Reply),
    /// The parts of the export and the entry of the call take `need` bytes, where a half has `have`.
    Full { need: u64, have: u64 },
    DiskFault,
    /// A device call failed before.
    Closed,
}

/// An export whose accepted calls stand on a disk.
#[derive(Drop)]
pub struct Journal<D: Disk> {
    pub(crate) alloc: Global,
    pub(crate) export: Export,
    pub(crate) entries: Entries<D>,
    pub(crate) closed: bool,
}

impl<D: Disk> Model for Journal<D> {
    ghost use Rattle.std.specs.Prelude.{◌≡◌, false};
    ghost use Rattle.rz_journal.specs.Kept.{IsJournalReady};
    ghost use Rattle.rz_journal.specs.Seen.{JournalView, view_code};

    ghost Value = { JournalView D };

    ghost coded = { view_code D.code };

    ghost view = { λ j. record { disk = j.entries.disk; used = j.entries.used; export = j.export; closed = j.closed } };

    // Until a device call failed, the disk is open and its text keeps the export.
    ghost invariant = { λ j. j.closed ≡ false → IsJournalReady D.tells (D.text j.entries.disk) (D.image j.entries.disk) j.entries.half j.entries.used j.export };
}

impl<D: Disk> Journal<D> {
    /// Makes a disk anew, and a journal on it whose export is that of a new store.
    ///
    /// Want of memory may come before the disk is reset or from its reset.
    pub fn format(alloc: Global, volume: Volume, disk: D) -> Result<Journal<D>, (D, FormatFault)>
        ensures export { IfOk result (λ j. j.export ≡ new_export volume 0) }
        ensures used { IfOk result (λ j. j.used ≡ 0) }
        ensures open { IfOk result (λ j. j.closed ≡ false) }
        ensures stands { IfOk result (λ j. IsTrue D.tells → IsTextOf volume (D.text j.disk) []) }
        ensures settled { IfOk result (λ j. Only (D.text j.disk) (D.image j.disk)) }

        // Otherwise each image is one from before, or its header is shut, or it stands for no calls.
        ensures crash { IfErr result (λ e. IsTrue D.tells → (c : List ℕ) → D.image e.0 c → D.image disk c ⊎ IsShut c ⊎ IsTextOf volume c []) }
        ensures meter { MatchResult result (λ j. Lasts (D.meter disk) (D.meter j.disk)) (λ e. Lasts (D.meter disk) (D.meter e.0)) }
        ensures risen { IfErr result (λ e. e.1 ≡ FormatFault.DiskFault → Rises (faults (D.meter disk)) (faults (D.meter e.0))) }
    {
        rules(&volume);
        rz_export_laws::exports::new_is_whole();
        let Ok(export) = Export::new(alloc, volume, 0) else {
            return Err((disk, FormatFault::NoMemory));
        };
        match Entries::format(alloc, disk) {
            Ok(entries) => Ok(Journal {
                alloc,
                export,
                entries,
                closed: false,
            }),
            Err((disk, error)) => {
                drop(export);
                Err((disk, format_fault(error)))
            }
        }
    }

    /// Answers a call that the export takes. The entry of a call that may change the export is first
    /// tested for room, and written where the call is accepted. After a fault of the disk the journal is
    /// closed.
    pub fn answer(&mut self, call: &Call) -> JournalReply
        requires { IsTrue (is_proper self.old.export call.now) }
        ensures answered { IsJournalAnswer self.old call.now result self.new }
        ensures volume { self.new.export.volume ≡ self.old.export.volume }

        // On every exit of an open journal each image stands for the calls from before, or for these and this one.
        ensures atomic { IsTrue D.tells → self.old.closed ≡ false → (calls : List Call) → IsExportAfter self.old.export calls
            → AllStandForEither (D.image self.new.disk) self.old.export calls call.now }

        // After a reply each stands for all that were accepted, and these give the export.
        ensures calls { IfReply result (λ r. (calls : List Call) → IsExportAfter self.old.export calls → IsExportAfter self.new.export (calls_after r call.now calls)) }
        ensures replied { IfReply result (λ r. IsTrue D.tells → (calls : List Call) → IsExportAfter self.new.export calls → AllStandFor (D.image self.new.disk) self.new.export calls) }

        // An entry that fits goes behind the others, where the call is accepted. So the half that counts is another one
        // only where the entry does not fit.
        ensures place { IfReply result (λ r. IsInPlace D.tells D.text self.old call.now r self.new) }

        // A call without an entry leaves the disk as it is.
        ensures looked { IfReply result (λ r. entry_of call.now ≡ None → self.new.disk ≡ self.old.disk) }

        ensures meter { Lasts (D.meter self.old.disk) (D.meter self.new.disk) }
        ensures risen { result ≡ JournalReply.DiskFault → Rises (faults (D.meter self.old.disk)) (faults (D.meter self.new.disk)) }
    {
        self.answer_ref(call.borrowed())
    }

    /// Answers a borrowed call in the same way. An entry of a begin has the length of the text alone, so
    /// that the text is copied nowhere.
    pub fn answer_ref(&mut self, call: CallRef<'_>) -> JournalReply
        requires { IsTrue (is_proper self.old.export (call_of call)) }
        ensures answered { IsJournalAnswer self.old (call_of call.entry) result self.new }
        ensures volume { self.new.export.volume ≡ self.old.export.volume }

        // On every exit of an open journal each image stands for the calls from before, or for these and this one.
        ensures atomic { IsTrue D.tells → self.old.closed ≡ false → (calls : List Call) → IsExportAfter self.old.export calls
            → AllStandForEither (D.image self.new.disk) self.old.export calls (call_of call.entry) }

        // After a reply each stands for all that were accepted, and these give the export.
        ensures calls { IfReply result (λ r. (calls : List Call) → IsExportAfter self.old.export calls → IsExportAfter self.new.export (calls_after r (call_of call.entry) calls)) }
        ensures replied { IfReply result (λ r. IsTrue D.tells → (calls : List Call) → IsExportAfter self.new.export calls → AllStandFor (D.image self.new.disk) self.new.export calls) }

        // An entry that fits goes behind the others, where the call is accepted. So the half that counts is another one
        // only where the entry does not fit.
        ensures place { IfReply result (λ r. IsInPlace D.tells D.text self.old (call_of call.entry) r self.new) }

        // A call without an entry leaves the disk as it is.
        ensures looked { IfReply result (λ r. entry_of (call_of call.entry) ≡ None → self.new.disk ≡ self.old.disk) }

        ensures meter { Lasts (D.meter self.old.disk) (D.meter self.new.disk) }
        ensures risen { result ≡ JournalReply.DiskFault → Rises (faults (D.meter self.old.disk)) (faults (D.meter self.new.disk)) }
    {
        if self.closed {
            return JournalReply::Closed;
        }
        match call_row(self.alloc, call) {
            Err(_) => JournalReply::Reply(Reply::NoMemory),
            Ok(None) => JournalReply::Reply(look(&mut self.export, call)),
            Ok(Some(row)) => self.keep(call, row.as_slice()),
        }
    }

    // Answers a call whose entry has this row.
    fn keep(&mut self, call: CallRef<'_>, row: &[u8]) -> JournalReply
        requires proper { IsTrue (is_proper self.old.export (call_of call)) }
        requires row { IsRowOf (call_of call) row.now }
        requires open { self.old.closed ≡ false }
        ensures answered { IsOpenAnswer self.old (call_of call.entry) result self.new }
        ensures volume { self.new.export.volume ≡ self.old.export.volume }
        ensures images { IsTrue D.tells → AllKeepEither (D.image self.new.disk) self.old.export (call_of call.entry) }
        ensures replied { IfReply result (λ r. IsTrue D.tells → AllKeep (D.image self.new.disk) self.new.export) }
        ensures used { IfReply result (λ r. self.old.used + length row.now ≤ 8_388_576 → self.new.used ≡ used_after r (length row.now) self.old.used) }
        ensures half { IfReply result (λ r. IsTrue D.tells → self.old.used + length row.now ≤ 8_388_576 → IsSameHalf (D.text self.old.disk) (D.text self.new.disk)) }
        ensures meter { Lasts (D.meter self.old.disk) (D.meter self.new.disk) }
        ensures risen { result ≡ JournalReply.DiskFault → Rises (faults (D.meter self.old.disk)) (faults (D.meter self.new.disk)) }
    {
        match keep(self.alloc, &mut self.export, &mut self.entries, call, row) {
            Ok(reply) => JournalReply::Reply(reply),
            Err(Halt::NoMemory) => JournalReply::Reply(Reply::NoMemory),
            Err(Halt::Full { need }) => JournalReply::Full {
                need,
                have: HALF_BYTES,
            },
            Err(Halt::Failed) => {
                self.closed = true;
                JournalReply::DiskFault
            }
        }
    }

    /// The export.
    pub fn export(&self) -> &Export
        ensures { result.now ≡ self.now.export }
    {
        &self.export
    }

    /// How many bytes of a half the entries take.
    pub fn used(&self) -> u64
        ensures { result ≡ self.now.used }
    {
        self.entries.used
    }

    /// The disk.
    pub fn into_disk(self) -> D
        ensures { result ≡ self.disk }
    {
        self.entries.into_disk()
    }
}

// Why a disk was not made anew, as the fault of a format.
fn format_fault(error: DiskError) -> FormatFault
    ensures { result ≡ FormatFault.DiskFault → error ≡ DiskError.Failed }
{
    match error {
        DiskError::NoMemory => FormatFault::NoMemory,
        DiskError::Failed => FormatFault::DiskFault,
    }
}

/// The rules that every volume keeps.
pub(crate) fn rules(volume: &Volume)
    ensures { IsVolume volume.now }
{
    let _ = &volume.layout;
}
