//! A journal opened again.

ghost use Rattle.std.specs.Prelude.{◌≡◌, ◌⊎◌, false, IsTrue, List, IfOk, IfErr, MatchResult, length};
ghost use Rattle.rz_disk.specs.Images.{Only, Within};
ghost use Rattle.rz_disk.specs.Meter.{Lasts, Rises, faults};
ghost use Rattle.rz_journal.specs.Opening.{IsReopened, IsJournalRefused, fault_of};
ghost use Rattle.rz_events.specs.declared.export.Call.{Call};
ghost use Rattle.rz_journal.specs.JournalText.{IsTextOf};
ghost use Rattle.rz_journal.specs.Kept.{IsExportAfter};
ghost use Rattle.rz_journal.specs.Stands.{disk_bytes};

use crate::journal::{Journal, rules};
use crate::rebuilding::{JournalFault, rebuild};
use crate::{Half, HalfFault};
use rz_config::Volume;
use rz_disk::Disk;
use std::alloc::Global;

impl<D: Disk> Journal<D> {
    /// Opens a journal again on a disk that was formatted. The disk stays as it is.
    ///
    /// Want of memory comes first, or while the entries are read.
    pub fn reopen(alloc: Global, volume: Volume, disk: D) -> Result<Journal<D>, (D, JournalFault)>
        ensures open { IfOk result (λ j. j.closed ≡ false) }

        // The export is the one that the entries of the disk make.
        ensures made { IfOk result (λ j. IsTrue D.tells → IsReopened volume (D.text disk) j.used j.export) }

        ensures volume { IfOk result (λ j. j.export.volume ≡ volume) }

        // It is the one after the calls for which the text stands.
        ensures calls { IfOk result (λ j. IsTrue D.tells → (calls : List Call) → IsTextOf volume (D.text disk) calls → IsExportAfter j.export calls) }

        // No disk of another size opens, whether it tells what it holds or not.
        ensures sized { IfOk result (λ j. length (D.text disk) ≡ disk_bytes) }

        // Each fault is the first that the text has.
        ensures refused { IfErr result (λ e. IsJournalRefused D.tells volume (D.text disk) e.1) }

        // A text that stands for calls is refused by want of memory or a failed device call alone.
        ensures exact { IfErr result (λ e. IsTrue D.tells → (calls : List Call) → IsTextOf volume (D.text disk) calls → (e.1 ≡ JournalFault.NoMemory) ⊎ (e.1 ≡ JournalFault.DiskFault)) }

        ensures settled { IfOk result (λ j. Only (D.text j.disk) (D.image j.disk)) }
        ensures text { MatchResult result (λ j. D.text j.disk ≡ D.text disk) (λ e. D.text e.0 ≡ D.text disk) }
        ensures crash { MatchResult result (λ j. Within (D.image disk) (D.image j.disk)) (λ e. Within (D.image disk) (D.image e.0)) }
        ensures meter { MatchResult result (λ j. Lasts (D.meter disk) (D.meter j.disk)) (λ e. Lasts (D.meter disk) (D.meter e.0)) }
        ensures risen { IfErr result (λ e. e.1 ≡ JournalFault.DiskFault → Rises (faults (D.meter disk)) (faults (D.meter e.0))) }
    {
        rules(&volume);
        rz_export_laws::exports::new_is_whole();
        rz_export_laws::exports::stays_whole();
        rz_export_laws::exports::built();
        rz_export_laws::trees::texts_plain();
        let half = match Half::open(alloc, disk) {
            Ok(half) => half,
            Err((disk, fault)) => return Err((disk, refused(fault))),
        };
        match rebuild(alloc, volume, half.bytes()) {
            Ok((export, used)) => Ok(Journal {
                alloc,
                export,
                entries: half.into_entries(used as u64),
                closed: false,
            }),
            Err(fault) => Err((half.into_disk(), fault)),
        }
    }
}

// The fault of the disk as one of the journal.
fn refused(fault: HalfFault) -> JournalFault
    ensures { result ≡ fault_of fault }
{
    match fault {
        HalfFault::NoMemory => JournalFault::NoMemory,
        HalfFault::WrongSize { have, need } => JournalFault::WrongSize { have, need },
        HalfFault::DiskFault => JournalFault::DiskFault,
        HalfFault::Unformatted => JournalFault::Unformatted,
        HalfFault::BadHeader => JournalFault::BadHeader,
    }
}
