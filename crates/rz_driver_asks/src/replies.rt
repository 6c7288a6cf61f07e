//! Calls of the export.
ghost use Rattle.std.specs.Prelude.{◌≡◌, ◌+◌, ◌<◌, ◌≤◌, ℕ, None, Some, IfOk, OnOk, OnErr};
ghost use Rattle.std.specs.List.{All};
ghost use Rattle.rz_events.specs.declared.export.Reply.TheVariants as model;
ghost use Rattle.rz_export_model.specs.ExportEvents.{export_event};
ghost use Rattle.rz_metadata.specs.Stands.{CountsFaults, IsJournalOpen, export_in, is_journaled};
ghost use Rattle.rz_events.specs.Borrowed.{call_of};
ghost use Rattle.rz_events.specs.declared.tree.TreeReply.{TreeReply as ATreeReply};
ghost use Rattle.rz_metadata.specs.Journals.{WritesBytes};
ghost use Rattle.rz_operation_model.specs.Ask.{ask_of};
ghost use Rattle.rz_driver_asks.specs.Asked.{KeepsAsked, LeavesAsked};
ghost use Rattle.rz_driver_asks.specs.Parts.{AreCallTexts, IsNotable, IsNoted, IsExportPart, IsUncopied};

use rz_disk::Disk;
use rz_events::{
    Actor, Asked, Call, CallRef, Denial, Event, Key, Published, Reply, Text, TreeCall, TreeReply,
};
use rz_log::{Halted, Log};
use rz_metadata::Metadata;
use rz_operation::{Ask, Machine};
use std::alloc::{AllocError, Global};

/// The texts of a call, for the log.
#[derive(Drop)]
pub(crate) enum CallTexts {
    Call(TreeCall),
    Text(Text),
    Nothing,
}

/// Asks the export what a machine asks of it, tells the machine the reply, and notes it.
///
/// The log's texts of the call are copied before the export is asked. A reply on names is copied after it.
pub fn ask_export<D: Disk>(
    alloc: Global,
    by: Actor,
    machine: &mut Machine,
    export: &mut Metadata<D>,
    log: &mut Log,
) -> Result<(), Halted>
    requires room { 0 < log.old.room }
    ensures ok { OnOk result (IsExportPart by machine.old machine.new (export_in export.old) (export_in export.new) log.old.events log.new.events) }
    ensures err { OnErr result (log.new.events ≡ log.old.events) }
    ensures kept { OnOk result (KeepsAsked D.tells D.meter D.image machine.old export.old export.new) }

    // Otherwise the journal refused this very call, or stands for those from before: no memory is wanted, and nothing
    // tested, once a call has changed the export.
    ensures left { OnErr result (IsJournalOpen export.old → LeavesAsked D.tells D.meter D.image (ask_of machine.old.layout machine.old.work) export.old export.new) }

    // On every exit.
    ensures counted { IsJournalOpen export.old → (first : ℕ) → CountsFaults D.meter first export.old → CountsFaults D.meter first export.new }
    ensures journal { is_journaled export.new ≡ is_journaled export.old }
    ensures volume { (export_in export.new).volume ≡ (export_in export.old).volume }
{
    let Ask::Export(ask) = machine.next() else {
        return Err(Halted);
    };
    look_into(ask);
    let words = words_of(alloc, ask)?;
    let Ok(reply) = export.reply(ask) else {
        drop(words);
        return Err(Halted);
    };
    if !machine.takes_reply(&reply) {
        drop(words);
        drop(reply);
        return Err(Halted);
    }
    match note_reply(alloc, by, ask, words, &reply, log) {
        Ok(()) => {
            machine.tell_reply(reply);
            Ok(())
        }
        Err(fault) => {
            drop(reply);
            Err(fault)
        }
    }
}

/// The text of a write that begins is one of bytes, as each text is.
fn look_into(ask: CallRef<'_>)
    ensures { WritesBytes (call_of ask.entry) }
{
    if let CallRef::Begin { text, .. } = ask {
        are_bytes(text);
    }
}

fn are_bytes(text: &[u8])
    ensures { All (λ x. x < 256) text.now }
{
    let _count = text.len();
}

/// The texts of a call, in new memory.
fn words_of(alloc: Global, ask: CallRef<'_>) -> Result<CallTexts, AllocError>
    ensures { IfOk result (λ w. AreCallTexts ask.entry w) }
{
    match ask {
        CallRef::Tree(call) => Ok(CallTexts::Call(call.copy(alloc)?)),
        CallRef::Begin { text, .. } => Ok(CallTexts::Text(Text::from_bytes(alloc, text)?)),
        CallRef::Publish { .. }
        | CallRef::Look { .. }
        | CallRef::Recheck { .. }
        | CallRef::Enroll { .. }
        | CallRef::Next { .. } => Ok(CallTexts::Nothing),
    }
}

/// Notes the event of a reply.
fn note_reply(
    alloc: Global,
    by: Actor,
    ask: CallRef<'_>,
    words: CallTexts,
    reply: &Reply,
    log: &mut Log,
) -> Result<(), Halted>
    requires words { AreCallTexts ask words }
    requires room { 0 < log.old.room }
    ensures ok { OnOk result (IsNoted (export_event by (call_of ask.entry) reply.now) log.old.events log.new.events) }
    ensures err { OnErr result (log.new.events ≡ log.old.events) }
    ensures unnoted { OnErr result (¬ IsNotable by (call_of ask.entry) reply.now) }
{
    match words {
        CallTexts::Call(call) => note_names(alloc, by, call, reply, log),
        CallTexts::Text(text) => note(begin_event(by, ask, text, reply), log),
        CallTexts::Nothing => note(plain_event(by, ask, reply), log),
    }
}

/// Notes an event, where there is one.
fn note(event: Option<Event>, log: &mut Log) -> Result<(), Halted>
    requires room { 0 < log.old.room }
    ensures ok { OnOk result (IsNoted event log.old.events log.new.events) }
    ensures err { OnErr result (log.new.events ≡ log.old.events) }
    ensures none { OnErr result (event ≡ None) }
    ensures room { log.old.room ≤ log.new.room + 1 }
{
    match event {
        Some(event) => {
            log.note(event);
            Ok(())
        }
        None => Err(Halted),
    }
}

/// Notes a call on names, with a copy of its reply. Only names and a target want memory for it.
pub(crate) fn note_names(
    alloc: Global,
    by: Actor,
    call: TreeCall,
    reply: &Reply,
    log: &mut Log,
) -> Result<(), Halted>
    requires room { 0 < log.old.room }
    ensures ok { OnOk result (IsNoted (export_event by (Call.Tree call) reply.now) log.old.events log.new.events) }
    ensures err { OnErr result (log.new.events ≡ log.old.events) }
    ensures wanted { OnErr result ((answer : ATreeReply) → reply.now ≡ model.Tree answer → ¬ IsUncopied answer) }
{
    match reply_on_names(alloc, reply) {
        Ok(reply) => {
            log.note(Event::Meta { by, call, reply });
            Ok(())
        }
        Err(fault) => {
            drop(call);
            Err(fault)
        }
    }
}

/// A copy of the reply to a call on names.
fn reply_on_names(alloc: Global, reply: &Reply) -> Result<TreeReply, Halted>
    ensures copied { IfOk result (λ r. reply.now ≡ model.Tree r) }
    ensures wanted { OnErr result ((answer : ATreeReply) → reply.now ≡ model.Tree answer → ¬ IsUncopied answer) }
{
    match reply {
        Reply::Tree(answer) => Ok(answer_copy(alloc, answer)?),
        _ => Err(Halted),
    }
}

/// An equal answer. Only names and a target want memory, which no call tells that changed the export.
fn answer_copy(alloc: Global, answer: &TreeReply) -> Result<TreeReply, AllocError>
    ensures equal { IfOk result (λ r. r ≡ answer.now) }
    ensures wanted { OnErr result (¬ IsUncopied answer.now) }
{
    match answer {
        TreeReply::Names(_) | TreeReply::Target(_) => answer.copy(alloc),
        TreeReply::Made { fid } => Ok(TreeReply::Made { fid: *fid }),
        TreeReply::MadeFile(info) => Ok(TreeReply::MadeFile(*info)),
        TreeReply::Found { fid, kind } => Ok(TreeReply::Found {
            fid: *fid,
            kind: *kind,
        }),
        TreeReply::Attr(attr) => Ok(TreeReply::Attr(*attr)),
        TreeReply::Plain => Ok(TreeReply::Plain),
        TreeReply::Gone(file) => Ok(TreeReply::Gone(*file)),
        TreeReply::File(info) => Ok(TreeReply::File(*info)),
        TreeReply::Refused(fault) => Ok(TreeReply::Refused(*fault)),
    }
}

/// The event of the reply to a begin.
fn begin_event(by: Actor, ask: CallRef<'_>, text: Text, reply: &Reply) -> Option<Event>
    requires { AreCallTexts ask (CallTexts.Text text) }
    ensures { result ≡ export_event by (call_of ask.entry) reply.now }
{
    let CallRef::Begin { key, .. } = ask else {
        return None;
    };
    match reply {
        Reply::Begun { stamp, base } => Some(Event::Begin {
            by,
            key,
            stamp: *stamp,
            base: *base,
            text,
        }),
        Reply::Denied(why) => denied(by, Asked::Begin { key }, *why),
        _ => None,
    }
}

/// The event of a reply that has no texts.
fn plain_event(by: Actor, ask: CallRef<'_>, reply: &Reply) -> Option<Event>
    requires { AreCallTexts ask CallTexts.Nothing }
    ensures { result ≡ export_event by (call_of ask.entry) reply.now }
{
    match ask {
        CallRef::Publish { key, published } => publish_event(by, key, published, reply),
        CallRef::Look { key } => look_event(by, key, reply),
        CallRef::Recheck { key } => recheck_event(by, key, reply),
        CallRef::Enroll { node, loss } => enroll_event(by, node, loss, reply),
        CallRef::Next { node, after } => next_event(by, node, after, reply),
        CallRef::Tree(_) | CallRef::Begin { .. } => None,
    }
}

fn publish_event(by: Actor, key: Key, published: Published, reply: &Reply) -> Option<Event>
    ensures { result ≡ export_event by (Call.Publish key published.stamp published.mask published.length) reply.now }
{
    let stamp = published.stamp;
    let mask = published.mask;
    match reply {
        Reply::Accepted => Some(Event::Publish {
            by,
            key,
            stamp,
            mask,
            refused: None,
        }),
        Reply::Enrolled { position, fence } => Some(Event::Publish {
            by,
            key,
            stamp,
            mask,
            refused: Some((*position, *fence)),
        }),
        Reply::Revoked { later } => Some(Event::Revoked {
            by,
            key,
            stamp,
            later: *later,
        }),
        Reply::Denied(why) => denied(by, Asked::Publish { key }, *why),
        _ => None,
    }
}

fn look_event(by: Actor, key: Key, reply: &Reply) -> Option<Event>
    ensures { result ≡ export_event by (Call.Look key) reply.now }
{
    match reply {
        Reply::Looked(answer) => Some(Event::Look {
            by,
            key,
            answer: *answer,
        }),
        Reply::Denied(why) => denied(by, Asked::Look { key }, *why),
        _ => None,
    }
}

fn recheck_event(by: Actor, key: Key, reply: &Reply) -> Option<Event>
    ensures { result ≡ export_event by (Call.Recheck key) reply.now }
{
    match reply {
        Reply::Looked(answer) => Some(Event::Recheck {
            by,
            key,
            answer: *answer,
        }),
        Reply::Denied(why) => denied(by, Asked::Recheck { key }, *why),
        _ => None,
    }
}

fn enroll_event(by: Actor, node: u16, loss: u64, reply: &Reply) -> Option<Event>
    ensures { result ≡ export_event by (Call.Enroll node loss) reply.now }
{
    match reply {
        Reply::Fence { fence } => Some(Event::Enroll {
            by,
            node,
            loss,
            fence: *fence,
        }),
        Reply::Denied(why) => denied(by, Asked::Enroll { node, loss }, *why),
        _ => None,
    }
}

fn next_event(by: Actor, node: u16, after: Option<Key>, reply: &Reply) -> Option<Event>
    ensures { result ≡ export_event by (Call.Next node after) reply.now }
{
    match reply {
        Reply::Listed(answer) => Some(Event::Next {
            by,
            node,
            after,
            answer: *answer,
        }),
        _ => None,
    }
}

fn denied(by: Actor, asked: Asked, why: Denial) -> Option<Event>
    ensures { result ≡ Some (Event.Denied by asked why) }
{
    Some(Event::Denied { by, asked, why })
}
