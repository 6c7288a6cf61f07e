//! The metadata of a store.
ghost use Rattle.std.specs.Prelude.{◌≡◌, ◌⊎◌, ◌≤◌, ℕ, true, false, List, [], IsTrue, IsSome, IfSome, IfOk, None, map, length, IfErr, OnOk, OnErr};
ghost use Rattle.rz_disk.specs.Meter.{Rises, faults};
ghost use Rattle.rz_events.specs.declared.files.NodeSpec.{NodeSpec as ANode};
ghost use Rattle.rz_events.specs.declared.export.Call.{Call as ACall};
ghost use Rattle.rz_export_model.specs.Export.{export_reply, export_after, fence_of, is_proper, new_export, published_after};
ghost use Rattle.rz_journal.specs.JournalText.{IsTextOf};
ghost use Rattle.rz_journal.specs.Kept.{IsExportAfter};
ghost use Rattle.rz_journal.specs.Opening.{IsJournalRefused};
ghost use Rattle.rz_journal.specs.Seen.{calls_after};
ghost use Rattle.rz_cells_slots.specs.Stands.{IsShut};
ghost use Rattle.rz_journal.specs.Stands.{disk_bytes};
ghost use Rattle.rz_events.specs.Borrowed.{call_of};
ghost use Rattle.rz_metadata.specs.Enrolled.{loss_of};
ghost use Rattle.rz_metadata.specs.Reopened.{AllTextsOf, IsAsItCame, MakesExport};
ghost use Rattle.rz_metadata.specs.Journals.{IsAsBefore, MayLack, MayRefuse};
ghost use Rattle.rz_metadata.specs.Stands.{export_in, disk_of, is_journaled, CountsFaults, IsJournalOpen, Stands, StandsAtEnd, refusal_of, used_of};

use crate::enrolments::{fences_of, losses_of};
use crate::journaled::{JournalRefusal, Journaled};
use crate::memory::{NoReply, reply_to};
use rz_cells::FormatFault;
use rz_config::Volume;
use rz_disk::Disk;
use rz_events::{CallRef, Key, Listed, NodeSpec, Reply};
use rz_export::Export;
use rz_journal::{Journal, JournalFault};
use std::alloc::{AllocError, Global};

/// The export of a store, in memory alone or behind a journal on a disk.
#[derive(Drop)]
pub enum Metadata<D: Disk> {
    InMemory(Export),
    Journaled(Journaled<D>),
}

impl<D: Disk> Metadata<D> {
    /// The export of a new store, in memory.
    pub fn in_memory(alloc: Global, volume: Volume) -> Result<Metadata<D>, AllocError>
        ensures export { IfOk result (λ m. export_in m ≡ new_export volume 0) }
        ensures stands { IfOk result (λ m. (first : ℕ) → Stands D.tells D.meter D.image first m []) }
        ensures counted { IfOk result (λ m. (first : ℕ) → CountsFaults D.meter first m) }
        ensures journal { IfOk result (λ m. is_journaled m ≡ false) }
        ensures open { IfOk result (λ m. IsJournalOpen m) }
    {
        Ok(Metadata::InMemory(Export::new(alloc, volume, 0)?))
    }

    /// Makes a disk anew, and a journal on it whose export is that of a new store.
    pub fn format(alloc: Global, volume: Volume, disk: D) -> Result<Metadata<D>, (D, FormatFault)>
        ensures export { IfOk result (λ m. export_in m ≡ new_export volume 0) }
        ensures stands { IfOk result (λ m. Stands D.tells D.meter D.image (faults (D.meter disk)) m []) }
        ensures counted { IfOk result (λ m. CountsFaults D.meter (faults (D.meter disk)) m) }
        ensures journal { IfOk result (λ m. is_journaled m ≡ true) }
        ensures open { IfOk result (λ m. IsJournalOpen m) }

        // Otherwise each image is one from before, or its header is shut, or it stands for no calls.
        ensures crash { IfErr result (λ e. IsTrue D.tells → (c : List ℕ) → D.image e.0 c → D.image disk c ⊎ IsShut c ⊎ IsTextOf volume c []) }
        ensures lasts { IfErr result (λ e. faults (D.meter disk) ≤ faults (D.meter e.0)) }
        ensures risen { IfErr result (λ e. e.1 ≡ FormatFault.DiskFault → Rises (faults (D.meter disk)) (faults (D.meter e.0))) }
    {
        match Journal::format(alloc, volume, disk) {
            Ok(journal) => Ok(Metadata::Journaled(Journaled {
                journal,
                refusal: None,
            })),
            Err(back) => Err(back),
        }
    }

    /// Opens a journal again on a disk that was formatted, with the export that its entries make. The disk
    /// stays as it is.
    pub fn reopen(alloc: Global, volume: Volume, disk: D) -> Result<Metadata<D>, (D, JournalFault)>
        ensures volume { IfOk result (λ m. (export_in m).volume ≡ volume) }
        ensures made { IfOk result (λ m. IsTrue D.tells → MakesExport volume (D.text disk) (export_in m)) }
        ensures journal { IfOk result (λ m. is_journaled m ≡ true) }
        ensures open { IfOk result (λ m. IsJournalOpen m) }
        ensures counted { IfOk result (λ m. CountsFaults D.meter (faults (D.meter disk)) m) }

        // It stands for the calls for which each image of the disk stood as it came, and has the export after them.
        ensures calls { IfOk result (λ m. IsTrue D.tells → (calls : List ACall) → IsTextOf volume (D.text disk) calls → IsExportAfter (export_in m) calls) }
        ensures stands { IfOk result (λ m. IsTrue D.tells → (calls : List ACall) → AllTextsOf volume (D.image disk) calls → Stands D.tells D.meter D.image (faults (D.meter disk)) m calls) }

        // No disk of another size opens, whether it tells what it holds or not.
        ensures sized { IfOk result (λ m. length (D.text disk) ≡ disk_bytes) }

        // Each fault is the first that the text has.
        ensures refused { IfErr result (λ e. IsJournalRefused D.tells volume (D.text disk) e.1) }
        ensures risen { IfErr result (λ e. e.1 ≡ JournalFault.DiskFault → Rises (faults (D.meter disk)) (faults (D.meter e.0))) }

        // A text that stands for calls is refused by want of memory or a failed device call alone.
        ensures exact { IfErr result (λ e. IsTrue D.tells → (calls : List ACall) → IsTextOf volume (D.text disk) calls → (e.1 ≡ JournalFault.NoMemory) ⊎ (e.1 ≡ JournalFault.DiskFault)) }

        ensures came { IfOk result (λ m. IfSome (disk_of m) (IsAsItCame D.meter D.text D.image disk)) }
        ensures back { IfErr result (λ e. IsAsItCame D.meter D.text D.image disk e.0) }
    {
        match Journal::reopen(alloc, volume, disk) {
            Ok(journal) => {
                let refusal = None;
                Ok(Metadata::Journaled(Journaled { journal, refusal }))
            }
            Err(back) => Err(back),
        }
    }

    /// Whether the export takes a call: lengths, masks, stamps and nodes are those of the volume, and a publish
    /// is one of a block that was begun.
    pub fn takes(&self, ask: CallRef<'_>) -> bool
        ensures { result ≡ is_proper (export_in self.now) (call_of ask.entry) }
    {
        match self {
            Metadata::InMemory(export) => export.takes_ref(ask),
            Metadata::Journaled(journaled) => journaled.journal.export().takes_ref(ask),
        }
    }

    /// The reply to what an operation asks. Behind a journal a call that is accepted stands on the disk
    /// then.
    pub fn reply(&mut self, ask: CallRef<'_>) -> Result<Reply, NoReply>
        ensures reply { IfOk result (λ r. r ≡ export_reply (export_in self.old) (call_of ask.entry)) }
        ensures after { OnOk result (export_in self.new ≡ export_after (export_in self.old) (call_of ask.entry)) }
        ensures kept { IfOk result (λ r. (first : ℕ) (calls : List ACall) → Stands D.tells D.meter D.image first self.old calls → Stands D.tells D.meter D.image first self.new (calls_after r (call_of ask.entry) calls)) }
        ensures left { OnErr result ((first : ℕ) (calls : List ACall) → Stands D.tells D.meter D.image first self.old calls → StandsAtEnd D.tells D.meter D.image first self.new calls (call_of ask.entry)) }

        // A journal that is open stays so after a reply. Without one it may refuse the call, where that has an entry.
        ensures open { OnOk result (IsJournalOpen self.old → IsJournalOpen self.new) }
        ensures refused { OnErr result (IsJournalOpen self.old → MayRefuse (refusal_of self.new) (call_of ask.entry) (IsJournalOpen self.new)) }

        // Where it did not refuse it, all is as it was; and memory was wanting, where the export takes the call.
        ensures unkept { OnErr result (refusal_of self.new ≡ None → IsAsBefore D.tells D.meter D.image self.old self.new) }
        ensures wanting { OnErr result (IsTrue (is_proper (export_in self.old) (call_of ask.entry)) → refusal_of self.new ≡ None → MayLack self.old (call_of ask.entry)) }

        // After a refusal there is no reply any more.
        ensures shut { IfOk result (λ r. refusal_of self.old ≡ None) }
        ensures still { OnErr result (IsSome (refusal_of self.old) → self.new ≡ self.old) }

        // On every exit.
        ensures counted { IsJournalOpen self.old → (first : ℕ) → CountsFaults D.meter first self.old → CountsFaults D.meter first self.new }
        ensures journal { is_journaled self.new ≡ is_journaled self.old }
        ensures volume { (export_in self.new).volume ≡ (export_in self.old).volume }
    {
        match self {
            Metadata::InMemory(export) => reply_to(export, ask),
            Metadata::Journaled(journaled) => journaled.reply(ask),
        }
    }

    /// The least published block of a live file above `after`.
    pub fn published(&self, after: Option<Key>) -> Option<Listed>
        ensures { result ≡ published_after (export_in self.now) after }
    {
        match self {
            Metadata::InMemory(export) => export.published(after),
            Metadata::Journaled(journaled) => journaled.journal.export().published(after),
        }
    }

    /// The loss that was enrolled last of each of these nodes, or 0.
    pub fn losses(&self, alloc: Global, nodes: &[NodeSpec]) -> Result<Vec<u64>, AllocError>
        ensures { IfOk result (λ v. v.items ≡ map (λ (n : ANode). loss_of (export_in self.now) n.sid) nodes.now) }
    {
        match self {
            Metadata::InMemory(export) => losses_of(alloc, export, nodes),
            Metadata::Journaled(journaled) => losses_of(alloc, journaled.journal.export(), nodes),
        }
    }

    /// The fence of the last enrolment of each of these nodes, or 0.
    pub fn fences(&self, alloc: Global, nodes: &[NodeSpec]) -> Result<Vec<u64>, AllocError>
        ensures { IfOk result (λ v. v.items ≡ map (λ (n : ANode). fence_of (export_in self.now) n.sid) nodes.now) }
    {
        match self {
            Metadata::InMemory(export) => fences_of(alloc, export, nodes),
            Metadata::Journaled(journaled) => fences_of(alloc, journaled.journal.export(), nodes),
        }
    }

    /// Why the journal did not keep a call, if there is a journal and it did not.
    pub fn refusal(&self) -> Option<JournalRefusal>
        ensures { result ≡ refusal_of self.now }
    {
        match self {
            Metadata::InMemory(_) => None,
            Metadata::Journaled(journaled) => journaled.refusal,
        }
    }

    /// How many bytes of a half of the journal its entries take, if there is a journal.
    pub fn journal_used(&self) -> Option<u64>
        ensures { result ≡ used_of self.now }
    {
        match self {
            Metadata::InMemory(_) => None,
            Metadata::Journaled(journaled) => Some(journaled.journal.used()),
        }
    }

    /// The journal's disk, if there is a journal.
    pub fn into_disk(self) -> Option<D>
        ensures { result ≡ disk_of self }
    {
        match self {
            Metadata::InMemory(export) => {
                drop(export);
                None
            }
            Metadata::Journaled(journaled) => Some(journaled.journal.into_disk()),
        }
    }
}
