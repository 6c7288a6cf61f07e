//! What a journal keeps of a call.

ghost use Rattle.std.specs.Prelude.{◌≡◌, IfOk, IfSome, IsSome, OnErr, is_some};
ghost use Rattle.rz_events.specs.Borrowed.{call_of};
ghost use Rattle.rz_events.specs.declared.export.Call.{Call};
ghost use Rattle.rz_journal_text.specs.Spelling.{MayStand};
ghost use Rattle.rz_journal.specs.Said.{only_looks, is_long, has_long_text, entry_of, accepts, HasShortText};

use rz_events::{CallRef, Reply, Text, TreeCall, TreeReply};
use rz_journal_text::JournalEntry;
use std::alloc::{AllocError, Global};

/// The entry of a call that may change the export. Of the text of a begin it has the length alone.
pub fn entry_of(alloc: Global, call: CallRef<'_>) -> Result<Option<JournalEntry>, AllocError>
    requires { HasShortText (call_of call) }
    ensures entry { IfOk result (λ entry. entry ≡ entry_of (call_of call.entry)) }
    ensures stands { IfOk result (λ entry. IfSome entry MayStand) }
    ensures wanted { OnErr result (IsSome (entry_of (call_of call.entry))) }
{
    Ok(match call {
        CallRef::Tree(names) => return tree_entry(alloc, names),
        CallRef::Begin { key, text } => Some(JournalEntry::Begin {
            key,
            bytes: text.len() as u32,
        }),
        CallRef::Publish { key, published } => Some(JournalEntry::Publish {
            key,
            stamp: published.stamp,
            mask: published.mask,
            bytes: published.length,
        }),
        CallRef::Enroll { node, loss } => Some(JournalEntry::Enroll { node, loss }),
        CallRef::Look { .. } | CallRef::Next { .. } | CallRef::Recheck { .. } => None,
    })
}

/// Whether a call has an entry.
pub fn is_kept(call: CallRef<'_>) -> bool
    ensures { result ≡ is_some (entry_of (call_of call.entry)) }
{
    match call {
        CallRef::Tree(names) => !only_looks(names) && !has_long_text(names),
        CallRef::Begin { .. } | CallRef::Publish { .. } | CallRef::Enroll { .. } => true,
        CallRef::Look { .. } | CallRef::Next { .. } | CallRef::Recheck { .. } => false,
    }
}

// The entry of a call on names.
fn tree_entry(alloc: Global, call: &TreeCall) -> Result<Option<JournalEntry>, AllocError>
    ensures entry { IfOk result (λ entry. entry ≡ entry_of (Call.Tree call.now)) }
    ensures stands { IfOk result (λ entry. IfSome entry MayStand) }
    ensures wanted { OnErr result (IsSome (entry_of (Call.Tree call.now))) }
{
    if only_looks(call) {
        return Ok(None);
    }
    if has_long_text(call) {
        return Ok(None);
    }
    Ok(Some(JournalEntry::Tree(call.copy(alloc)?)))
}

// Whether a call on names only looks.
fn only_looks(call: &TreeCall) -> bool
    ensures { result ≡ only_looks call.now }
{
    match call {
        TreeCall::Lookup { .. }
        | TreeCall::Getattr { .. }
        | TreeCall::Readlink { .. }
        | TreeCall::Readdir { .. }
        | TreeCall::OpenFile { .. } => true,
        TreeCall::Rmdir { .. }
        | TreeCall::Mkdir { .. }
        | TreeCall::Create { .. }
        | TreeCall::Unlink { .. }
        | TreeCall::Setattr { .. }
        | TreeCall::Rename { .. }
        | TreeCall::Link { .. }
        | TreeCall::Symlink { .. } => false,
    }
}

// Whether a call on names has a text for whose length an entry has no room.
fn has_long_text(call: &TreeCall) -> bool
    ensures { result ≡ has_long_text call.now }
{
    match call {
        TreeCall::Lookup { path }
        | TreeCall::Getattr { path }
        | TreeCall::Rmdir { path }
        | TreeCall::Mkdir { path }
        | TreeCall::Create { path }
        | TreeCall::Unlink { path }
        | TreeCall::Readlink { path }
        | TreeCall::Readdir { path }
        | TreeCall::OpenFile { path }
        | TreeCall::Setattr { path, .. } => is_long(path),
        TreeCall::Rename { path, to } | TreeCall::Link { path, to } => is_long(path) || is_long(to),
        TreeCall::Symlink { target, path } => is_long(target) || is_long(path),
    }
}

// Whether an entry has no room for the length of a text.
fn is_long(text: &Text) -> bool
    ensures { result ≡ is_long text.now }
{
    65535 < text.bytes().len()
}

/// Whether a reply accepts what was asked.
pub fn accepts(reply: &Reply) -> bool
    ensures { result ≡ accepts reply.now }
{
    match reply {
        Reply::Tree(TreeReply::Refused(_))
        | Reply::Enrolled { .. }
        | Reply::Denied(_)
        | Reply::Revoked { .. }
        | Reply::NoMemory => false,
        _ => true,
    }
}
