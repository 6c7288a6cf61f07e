//! The export under its lock.
ghost use Rattle.std.specs.Prelude.{◌≡◌, ◌+◌, ◌<◌, ◌^◌, [], ◌∷◌, ◌++◌, IsTrue, IfOk, OnErr, None, is_some};
ghost use Rattle.std.specs.List.{All};
ghost use Rattle.rz_events.specs.declared.keys.Actor.{Actor as AnActor};
ghost use Rattle.rz_events.specs.declared.export.Call.{Call as ACall};
ghost use Rattle.rz_events.specs.declared.events.Word.TheVariants as w;
ghost use Rattle.rz_events.specs.Borrowed.{call_of};
ghost use Rattle.rz_events.specs.Events.{word_of, by_of};
ghost use Rattle.rz_export.specs.Calls.{IsAnswered};
ghost use Rattle.rz_export_model.specs.Export.{is_proper, published_after};
ghost use Rattle.rz_export_model.specs.ExportEvents.{export_event};
ghost use Rattle.rz_core.specs.History.{facts, of_actor, of_word};
ghost use Rattle.rz_core.specs.ExportWord.{export_of};
ghost use Rattle.rz_core.specs.Tied.{IsExport, IsProperCall};
ghost use Rattle.rz_metadata.specs.Stands.{export_in, is_journaled, CountsFaults, IsJournalOpen, Stands};
ghost use Rattle.rz_restart_laws.specs.Calls.{changing_calls};
ghost use Rattle.rz_chronicle.specs.Keys.{count_at, word_key, IsLater};
ghost use Rattle.rz_chronicle.specs.Kinds.{IsFit, IsFitAfter, keeps_legal, volume_in};
ghost use Rattle.rz_chronicle.specs.Holds.{Commits, Stays};
ghost use Rattle.rz_chronicle.specs.Dealing.{new_word_token};
ghost use Rattle.rz_shared_locked.specs.Adding.{AddsEvent, MayBeNext};
ghost use Rattle.rz_shared_locked.specs.LockedExports.{AreTextsOfBytes, AreTextsFrom, AreMetadataFrom, IsCallOfBytes, IsUnanswered, AnswersCall, event_given, faults_of};

use crate::counting::Metering;
use crate::waiting::{unanswered, without_reply};
use rz_chronicle::{Asks, Book, Pass, WordToken};
use rz_disk::Disk;
use rz_events::{Actor, Call, CallRef, Key, Listed, Reply};
use rz_export::Export;
use rz_metadata::{JournalRefusal, Metadata, NoReply};
use std::alloc::Global;
use std::marker::{Brand, Model, PhantomData};
use std::sync::Wait;

/// Gives an export a call that it takes: the reply of the model, with the model's next state, or that memory
/// is wanting, and then nothing changes. An export takes memory by the allocator that it was made with.
pub fn answer_export(_alloc: Global, export: &mut Export, call: &Call) -> Reply
    requires { IsTrue (is_proper export.old call.now) }
    ensures { IsAnswered export.old call.now result export.new }
{
    export.answer_ref(call.borrowed())
}

/// The export under its lock, in memory alone or behind a journal, with the token of its word.
#[derive(Drop)]
pub struct LockedExport<D: Disk, J: Metering> {
    metadata: Metadata<D>,
    word_token: WordToken<J>,
}

impl<D: Disk, J: Metering> Model for LockedExport<D, J> {
    ghost use Rattle.std.specs.Prelude.{◌≡◌, ◌++◌, List, IsTrue, is_some};
    ghost use Rattle.rz_events.specs.declared.events.Event.{Event as AnEvent};
    ghost use Rattle.rz_events.specs.declared.events.Word.TheVariants as w;
    ghost use Rattle.rz_metadata.specs.Stands.{export_in, is_journaled, refusal_of, CountsFaults};
    ghost use Rattle.rz_chronicle.specs.Kinds.{keeps_legal, volume_in};
    ghost use Rattle.rz_shared_locked.specs.LockedExports.{AreTextsOfBytes, AreMetadataOf, faults_of};

    ghost Value = { List AnEvent };

    ghost view = { λ o. o.word_token.log };

    ghost invariant = { λ o. (o.word_token.word ≡ w.Export) × ((export_in o.metadata).volume ≡ volume_in J.kind)
        × (is_journaled o.metadata ≡ is_some J.journal)
        × AreMetadataOf (refusal_of o.metadata) D.tells D.meter D.image (faults_of J.journal) J.kind (o.word_token.log ++ J.earlier) o.metadata
        × CountsFaults D.meter (faults_of J.journal) o.metadata
        × AreTextsOfBytes o.word_token.log
        × (IsTrue (keeps_legal J.kind) → AreTextsOfBytes J.earlier) };
}

/// An actor and its call, of which a reply is.
trait Asking {
    ghost by: { AnActor };

    ghost call: { ACall };
}

impl Asking for Brand {
    ghost use Rattle.rz_events.specs.declared.keys.Actor.TheVariants as a;
    ghost use Rattle.rz_events.specs.declared.export.Call.TheVariants as c;
    ghost use Rattle.std.specs.Prelude.{None};

    ghost by = { a.Admin };

    ghost call = { c.Next 0 None };
}

/// A reply stands for its event, so that no event is made and no text copied.
struct Given<C: Asking> {
    of: PhantomData<C>,
}

impl<C: Asking> Asks<Reply> for Given<C> {
    ghost event = { λ r. event_given C.by C.call r };
}

impl<D: Disk, J: Metering> LockedExport<D, J> {
    /// The locked export of metadata that were opened, or are new, and refused no call. Its word has no event
    /// yet in this run. In a book that keeps its log legal the export is the one that the earlier log gives,
    /// and the journal, if there is one, stands for the calls that changed it.
    pub fn opened(metadata: Metadata<D>, word_token: WordToken<J>) -> LockedExport<D, J>
        requires word_token { word_token ≡ new_word_token w.Export }
        requires volume { (export_in metadata).volume ≡ volume_in J.kind }
        requires journal { is_journaled metadata ≡ is_some J.journal }
        requires open { IsJournalOpen metadata }
        requires counted { CountsFaults D.meter (faults_of J.journal) metadata }
        requires tied { IsTrue (keeps_legal J.kind) → IsExport (volume_in J.kind) (facts J.earlier) (of_word w.Export J.earlier) (export_in metadata) }
        requires stands { IsTrue (keeps_legal J.kind) → Stands D.tells D.meter D.image (faults_of J.journal) metadata (changing_calls J.earlier) }
        requires bytes { IsTrue (keeps_legal J.kind) → AreTextsOfBytes J.earlier }
        ensures { result ≡ [] }
    {
        LockedExport {
            metadata,
            word_token,
        }
    }

    /// The metadata, and the token of the export's word. In each later log that has no further event of it they
    /// have what the log gives, or they refused a call, and each text of that log is one of bytes. The journal,
    /// if there is one, comes back in them.
    pub fn close(self) -> (Metadata<D>, WordToken<J>)
        ensures word_token { result.1 ≡ record { word = w.Export; log = self } }
        ensures volume { (export_in result.0).volume ≡ volume_in J.kind }
        ensures journal { is_journaled result.0 ≡ is_some J.journal }
        ensures texts { IsTrue (keeps_legal J.kind) → AreTextsFrom J.earlier self }
        ensures metadata { AreMetadataFrom D.tells D.meter D.image (faults_of J.journal) J.kind J.earlier self result.0 }
        ensures counted { CountsFaults D.meter (faults_of J.journal) result.0 }
    {
        crate::laws::locked_export_kept();
        crate::laws::calls_kept();
        rz_chronicle::one_rule();
        let _fit = self.word_token.room();
        let LockedExport {
            metadata,
            word_token,
        } = self;
        (metadata, word_token)
    }

    /// Why the journal did not keep a call, if there is a journal and it did not.
    pub fn refusal(&self) -> Option<JournalRefusal> {
        self.metadata.refusal()
    }

    /// How many bytes of a half of the journal its entries take, if there is a journal.
    pub fn journal_used(&self) -> Option<u64>
        ensures { is_some result ≡ is_some J.journal }
    {
        self.metadata.journal_used()
    }

    /// The least published block above `after` of the live files, if there is one. There is no reply where the
    /// journal refused a call. Nothing is added to the log. It does not return where the export's word cannot
    /// move.
    pub fn published<R: Wait>(
        &mut self,
        rt: &R,
        book: &Book<J>,
        pass: &mut Pass<J>,
        after: Option<Key>,
    ) -> Result<Option<Listed>, NoReply>
        ensures same { (pass.new.actor ≡ pass.old.actor) × (pass.new.keys ≡ pass.old.keys) }
        ensures nothing { AddsEvent pass.old.keys pass.old.log None pass.new.log }
        ensures listed { IfOk result (λ l. IsTrue (keeps_legal J.kind) → l ≡ published_after (export_of (volume_in J.kind) (facts (pass.new.log ++ J.earlier)) (of_word w.Export (pass.new.log ++ J.earlier))) after) }
        ensures refused { OnErr result (IsTrue (is_some J.journal)) }
        ensures fit { IsFit J.kind pass.new.log }
    {
        if !self.enter(book, pass) {
            unanswered(rt);
        }
        self.listed(after)
    }

    // The same by the log that the locked export has seen.
    fn listed(&self, after: Option<Key>) -> Result<Option<Listed>, NoReply>
        ensures listed { IfOk result (λ l. IsTrue (keeps_legal J.kind) → l ≡ published_after (export_of (volume_in J.kind) (facts (self.now ++ J.earlier)) (of_word w.Export (self.now ++ J.earlier))) after) }
        ensures refused { OnErr result (IsTrue (is_some J.journal)) }
    {
        match self.metadata.refusal() {
            Some(_) => Err(NoReply),
            None => Ok(self.metadata.published(after)),
        }
    }

    /// Calls the export, and adds the event of its reply to the log. There is no reply where memory is
    /// wanting or the journal does not keep the call, and after that none to any call. It does not return
    /// where the export does not take the call, which it does in a book that keeps its log legal, or where its
    /// word cannot move.
    pub fn call<R: Wait>(
        &mut self,
        rt: &R,
        book: &Book<J>,
        pass: &mut Pass<J>,
        call: CallRef<'_>,
    ) -> Result<Reply, NoReply>
        requires actor { ¬ (pass.old.actor ≡ Actor.Admin) }
        requires may { IsTrue (keeps_legal J.kind) → IsProperCall (volume_in J.kind) (facts (pass.old.log ++ J.earlier)) (of_actor pass.old.actor (pass.old.log ++ J.earlier)) pass.old.actor (call_of call) }
        ensures same { (pass.new.actor ≡ pass.old.actor) × (pass.new.keys ≡ pass.old.keys) }
        ensures replied { IfOk result (λ r. AnswersCall J.kind J.earlier (call_of call.entry) r (export_event pass.old.actor (call_of call.entry) r) pass.old.keys pass.old.log pass.new.log) }
        ensures unanswered { OnErr result (IsUnanswered J.kind J.earlier J.journal (call_of call.entry) pass.old.keys pass.old.log pass.new.log) }

        // Each text of the log is one of bytes.
        ensures bytes { AreTextsOfBytes pass.new.log }
        ensures texts { IsTrue (keeps_legal J.kind) → AreTextsOfBytes (pass.new.log ++ J.earlier) }

        ensures fit { IsFit J.kind pass.new.log }
    {
        crate::laws::caller_kept();
        rz_chronicle::one_rule();
        let _by = pass.actor();
        if !self.enter(book, pass) {
            return without_reply(rt);
        }
        self.replied(rt, book, pass, call)
    }

    // Lets the pass and the locked export see one log. It answers whether the export's word can move.
    fn enter(&mut self, book: &Book<J>, pass: &mut Pass<J>) -> bool
        ensures same { (pass.new.actor ≡ pass.old.actor) × (pass.new.keys ≡ pass.old.keys) }
        ensures one { self.new ≡ pass.new.log }
        ensures later { IsLater pass.old.log pass.new.log }
        ensures stays { Stays pass.old.keys pass.old.log pass.new.log }
        ensures room { IsTrue result → count_at (word_key w.Export) self.new + 1 < 2 ^ 62 }
        ensures enters { count_at (word_key w.Export) self.new + 1 < 2 ^ 62 → IsTrue result }
        ensures fit { IsFit J.kind pass.new.log }
    {
        crate::laws::locked_export_kept();
        crate::laws::calls_kept();
        rz_chronicle::one_rule();
        let _fit = self.word_token.room();
        book.enter(pass, &mut self.word_token);
        self.word_token.has_room_after()
    }

    // The call where its pass and the locked export have entered, and the word can move.
    fn replied<R: Wait>(
        &mut self,
        rt: &R,
        book: &Book<J>,
        pass: &mut Pass<J>,
        call: CallRef<'_>,
    ) -> Result<Reply, NoReply>
        requires one { self.old ≡ pass.old.log }
        requires room { count_at (word_key w.Export) self.old + 1 < 2 ^ 62 }
        requires may { IsTrue (keeps_legal J.kind) → IsProperCall (volume_in J.kind) (facts (pass.old.log ++ J.earlier)) (of_actor pass.old.actor (pass.old.log ++ J.earlier)) pass.old.actor (call_of call) }
        ensures same { (pass.new.actor ≡ pass.old.actor) × (pass.new.keys ≡ pass.old.keys) }
        ensures replied { IfOk result (λ r. AnswersCall J.kind J.earlier (call_of call.entry) r (export_event pass.old.actor (call_of call.entry) r) pass.old.keys pass.old.log pass.new.log) }
        ensures unanswered { OnErr result (IsUnanswered J.kind J.earlier J.journal (call_of call.entry) pass.old.keys pass.old.log pass.new.log) }
        ensures bytes { AreTextsOfBytes pass.new.log }
        ensures texts { IsTrue (keeps_legal J.kind) → AreTextsOfBytes (pass.new.log ++ J.earlier) }
        ensures fit { IsFit J.kind pass.new.log }
    {
        crate::laws::locked_export_kept();
        crate::laws::replies();
        crate::laws::calls_added();
        rz_chronicle::one_rule();
        rz_chronicle::roomy();
        let by = pass.actor();
        if self.metadata.refusal().is_some() {
            return Err(NoReply);
        }
        if !self.metadata.takes(call) {
            return without_reply(rt);
        }
        look_into(call);
        match self.metadata.reply(call) {
            Ok(reply) => {
                add_reply::<J, Brand>(book, pass, &mut self.word_token, by, call, &reply);
                Ok(reply)
            }
            Err(none) => Err(none),
        }
    }
}

/// The text of a write that begins is one of bytes, as each text is.
fn look_into(call: CallRef<'_>)
    ensures { IsCallOfBytes (call_of call.entry) }
{
    if let CallRef::Begin { text, .. } = call {
        are_bytes(text);
    }
}

fn are_bytes(text: &[u8])
    ensures { All (λ x. x < 256) text.now }
{
    let _count = text.len();
}

/// Adds the event of a reply that has one. The pass and the word_token have entered.
fn add_reply<J: Metering, C: Asking>(
    book: &Book<J>,
    pass: &mut Pass<J>,
    word_token: &mut WordToken<J>,
    by: Actor,
    call: CallRef<'_>,
    reply: &Reply,
)
    requires of { (by ≡ C.by) × ((call_of call) ≡ C.call) }
    requires one { word_token.old.log ≡ pass.old.log }
    requires its { (word_of (event_given by (call_of call) reply.now) ≡ word_token.old.word) × (by_of (event_given by (call_of call) reply.now) ≡ pass.old.actor) }
    requires legal { MayBeNext J.kind J.earlier pass.old.log (event_given by (call_of call) reply.now) }
    requires room { count_at (word_key word_token.old.word) word_token.old.log + 1 < 2 ^ 64 }
    ensures same { (pass.new.actor ≡ pass.old.actor) × (pass.new.keys ≡ pass.old.keys) × (word_token.new.word ≡ word_token.old.word) }
    ensures one { word_token.new.log ≡ pass.new.log }
    ensures commits { Commits (word_key word_token.old.word ∷ pass.old.keys) pass.old.log (event_given by (call_of call.entry) reply.now) pass.new.log }
    ensures fit { IsFit J.kind pass.new.log }
    ensures after { IsFitAfter J.kind pass.new.log }
{
    let _ = by;
    let _ = call;
    rz_chronicle::one_rule();
    let _by = pass.actor();
    book.commit::<Reply, Given<C>>(pass, word_token, reply);
    let _seen = pass.actor();
}
