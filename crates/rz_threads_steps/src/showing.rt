//! Events of an actor that are shown.
ghost use Rattle.std.specs.Prelude.{◌≡◌, ◌++◌, List};
ghost use Rattle.rz_events.specs.declared.events.Event.{Event as AnEvent};
ghost use Rattle.rz_events.specs.Borrowed.{call_of};
ghost use Rattle.rz_export_model.specs.ExportEvents.{export_event};
ghost use Rattle.rz_show.specs.Shown as model;
ghost use Rattle.rz_threads_steps.specs.Opening.{IsOpenCall};

use rz_events::{Actor, CallRef, Event, FileInfo, Reply, TreeCall, TreeReply};
use std::alloc::AllocError;

/// Where the events of an actor that are shown go.
pub trait Shows {
    ghost use Rattle.std.specs.Prelude.{List, [], ◌∷◌, ◌++◌, IfOk};
    ghost use Rattle.rz_events.specs.declared.events.Event.{Event as AnEvent};

    /// It has what it keeps of these events, the oldest first.
    ghost has: { Self → List AnEvent → Type 0 };

    /// It has room for one more.
    ghost has_room: { Self → Type 0 };

    /// Takes the memory for one more.
    fn make_room(&mut self) -> Result<(), AllocError>
        ensures kept { (shown : List AnEvent) → has self.old shown → has self.new shown }
        ensures room { IfOk result (λ done. has_room self.new) };

    /// Shows an event.
    fn show(&mut self, event: Event)
        requires { has_room self.old }
        ensures { (shown : List AnEvent) → has self.old shown → has self.new (shown ++ event ∷ []) };
}

/// Each event is kept.
impl Shows for Vec<Event> {
    ghost use Rattle.std.specs.Prelude.{◌≡◌, ◌+◌, ◌≤◌};
    ghost use Rattle.std.specs.Vec.{vec_len, vec_capacity};

    ghost has = { λ kept shown. kept.items ≡ shown };

    ghost has_room = { λ kept. vec_len kept + 1 ≤ vec_capacity kept };

    fn make_room(&mut self) -> Result<(), AllocError> {
        self.reserve(1)
    }

    fn show(&mut self, event: Event) {
        self.push_reserved(event);
    }
}

/// No event is kept.
#[derive(Clone, Copy, Drop)]
pub struct Unshown;

impl Shows for Unshown {
    ghost has = { λ kept shown. Unit {0} };

    ghost has_room = { λ kept. Unit {0} };

    fn make_room(&mut self) -> Result<(), AllocError> {
        Ok(())
    }

    fn show(&mut self, event: Event) {
        drop(event);
    }
}

/// The file that a reply tells.
fn file_in(reply: &Reply) -> Option<FileInfo>
    ensures { result ≡ model.file_in reply.now }
{
    match reply {
        Reply::Tree(TreeReply::File(info)) => Some(*info),
        _ => None,
    }
}

/// Shows the event of a reply, if it is that of an open, of which `opening` is the call.
pub(crate) fn show_opening<S: Shows>(
    by: Actor,
    call: CallRef<'_>,
    opening: Option<TreeCall>,
    reply: &Reply,
    shown: &mut S,
)
    requires opening { IsOpenCall (call_of call) opening }
    requires room { S.has_room shown.old }
    ensures { (before : List AnEvent) → S.has shown.old before → S.has shown.new (before ++ model.shown_in (export_event by (call_of call.entry) reply.now)) }
{
    let _ = call;
    let Some(opening) = opening else {
        return;
    };
    match file_in(reply) {
        Some(info) => shown.show(Event::Meta {
            by,
            call: opening,
            reply: TreeReply::File(info),
        }),
        None => drop(opening),
    }
}

/// Whether an event is shown.
fn is_shown(event: &Event) -> bool
    ensures { result ≡ model.is_shown event.now }
{
    match event {
        Event::Got { part, .. } | Event::Gave { part, .. } => !*part,
        Event::Done { .. } => true,
        Event::Meta { call, reply, .. } => matches!(
            (call, reply),
            (TreeCall::OpenFile { .. }, TreeReply::File(_))
        ),
        _ => false,
    }
}

/// Shows an event, if it is one that is shown.
pub(crate) fn show<S: Shows>(event: Event, shown: &mut S)
    requires room { S.has_room shown.old }
    ensures { (before : List AnEvent) → S.has shown.old before → S.has shown.new (before ++ model.if_shown event) }
{
    if is_shown(&event) {
        shown.show(event);
    } else {
        drop(event);
    }
}
