//! An export behind a journal.
ghost use Rattle.std.specs.Prelude.{◌≡◌, ℕ, List, IsTrue, IsSome, None, IfOk, OnOk, OnErr};
ghost use Rattle.rz_events.specs.declared.export.Call.{Call as ACall};
ghost use Rattle.rz_export_model.specs.Export.{export_reply, export_after, is_proper};
ghost use Rattle.rz_journal.specs.Seen.{calls_after};
ghost use Rattle.rz_events.specs.Borrowed.{call_of};
ghost use Rattle.rz_metadata.specs.Journals.{MayLackBehind, MayRefuse};
ghost use Rattle.rz_metadata.specs.Stands.{CountsOn, IsJournalKept, IsCallLeft, IsUnrefused};

use crate::memory::{NoReply, wants_memory};
use rz_disk::Disk;
use rz_events::{CallRef, Reply};
use rz_journal::{Journal, JournalReply};

/// Why a journal did not keep a call.
#[derive(Clone, Copy, Debug, PartialEq, Eq, Drop)]
pub enum JournalRefusal {
    /// There was no room for the call.
    Full,
    /// A device call failed.
    Failed,
}

/// A journal, and why it did not keep the last call, if it did not. It takes no call after that.
#[derive(Drop)]
pub struct Journaled<D: Disk> {
    pub(crate) journal: Journal<D>,
    pub(crate) refusal: Option<JournalRefusal>,
}

impl<D: Disk> Journaled<D> {
    /// The reply of the export, whose call then stands on the disk where it was accepted.
    pub(crate) fn reply(&mut self, ask: CallRef<'_>) -> Result<Reply, NoReply>
        ensures reply { IfOk result (λ r. r ≡ export_reply self.old.journal.export (call_of ask.entry)) }
        ensures after { OnOk result (self.new.journal.export ≡ export_after self.old.journal.export (call_of ask.entry)) }
        ensures kept { IfOk result (λ r. (first : ℕ) (calls : List ACall) → IsJournalKept D.tells D.meter D.image first self.old calls → IsJournalKept D.tells D.meter D.image first self.new (calls_after r (call_of ask.entry) calls)) }
        ensures left { OnErr result ((first : ℕ) (calls : List ACall) → IsJournalKept D.tells D.meter D.image first self.old calls → IsCallLeft D.tells D.meter D.image first self.new calls (call_of ask.entry)) }
        ensures volume { self.new.journal.export.volume ≡ self.old.journal.export.volume }
        ensures open { OnOk result (IsUnrefused self.old → IsUnrefused self.new) }
        ensures refused { OnErr result (IsUnrefused self.old → MayRefuse self.new.refusal (call_of ask.entry) (IsUnrefused self.new)) }
        ensures unkept { OnErr result (self.new.refusal ≡ None → self.new.journal.export ≡ self.old.journal.export) }
        ensures wanting { OnErr result (IsTrue (is_proper self.old.journal.export (call_of ask.entry)) → self.new.refusal ≡ None → MayLackBehind self.old.journal.export (call_of ask.entry)) }
        ensures shut { IfOk result (λ r. self.old.refusal ≡ None) }
        ensures still { OnErr result (IsSome self.old.refusal → self.new ≡ self.old) }
        ensures counted { IsUnrefused self.old → (first : ℕ) → CountsOn D.meter first self.old → CountsOn D.meter first self.new }
    {
        if self.refusal.is_some() || !self.journal.export().takes_ref(ask) {
            return Err(NoReply);
        }
        self.answer(ask)
    }

    // The reply to a call that the export takes.
    fn answer(&mut self, ask: CallRef<'_>) -> Result<Reply, NoReply>
        requires { IsTrue (is_proper self.old.journal.export (call_of ask)) }
        ensures reply { IfOk result (λ r. r ≡ export_reply self.old.journal.export (call_of ask.entry)) }
        ensures after { OnOk result (self.new.journal.export ≡ export_after self.old.journal.export (call_of ask.entry)) }
        ensures kept { IfOk result (λ r. (first : ℕ) (calls : List ACall) → IsJournalKept D.tells D.meter D.image first self.old calls → IsJournalKept D.tells D.meter D.image first self.new (calls_after r (call_of ask.entry) calls)) }
        ensures left { OnErr result ((first : ℕ) (calls : List ACall) → IsJournalKept D.tells D.meter D.image first self.old calls → IsCallLeft D.tells D.meter D.image first self.new calls (call_of ask.entry)) }
        ensures volume { self.new.journal.export.volume ≡ self.old.journal.export.volume }
        ensures open { OnOk result (IsUnrefused self.old → IsUnrefused self.new) }
        ensures refused { OnErr result (IsUnrefused self.old → MayRefuse self.new.refusal (call_of ask.entry) (IsUnrefused self.new)) }
        ensures unkept { OnErr result (self.new.refusal ≡ None → self.new.journal.export ≡ self.old.journal.export) }
        ensures wanting { OnErr result (self.new.refusal ≡ None → MayLackBehind self.old.journal.export (call_of ask.entry)) }
        ensures counted { IsUnrefused self.old → (first : ℕ) → CountsOn D.meter first self.old → CountsOn D.meter first self.new }
    {
        match self.journal.answer_ref(ask) {
            JournalReply::Reply(reply) => {
                if wants_memory(&reply) {
                    drop(reply);
                    return Err(NoReply);
                }
                Ok(reply)
            }
            JournalReply::Full { .. } => {
                self.refusal = Some(JournalRefusal::Full);
                Err(NoReply)
            }
            JournalReply::DiskFault | JournalReply::Closed => {
                self.refusal = Some(JournalRefusal::Failed);
                Err(NoReply)
            }
        }
    }
}
