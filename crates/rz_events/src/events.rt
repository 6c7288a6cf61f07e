//! The events of the log: one event is one call on one node, one call on the export, or one act of
//! a client or rebuilder on its own state.

ghost use Rattle.std.specs.Prelude.{◌≡◌};
ghost use Rattle.rz_events.specs.Events.{by_of, word_of};

use crate::{
    Actor, Asked, Attr, Change, Denial, Held, Key, Kind, LeftWhy, Listed, Listing, Published,
    ReadEnd, RebuildEnd, Text, TreeCall, TreeFault, TreeReply, Why, WriteEnd,
};

/// The answer of an operation.
#[derive(Drop)]
pub enum Answer {
    Created { fid: u128 },
    Plain,
    Found { kind: Kind, fid: u128 },
    Attr(Attr),
    Names(Listing),
    Target(Text),
    Wrote { bytes: u64 },
    Read(Text),
    ShortWrite { bytes: u64, end: WriteEnd },
    ShortRead { bytes: u64, end: ReadEnd },
    Rebuild(RebuildEnd),
    Refused(TreeFault),
}

/// One atomic step of the store.
#[derive(Drop)]
pub enum Event {
    Meta {
        by: Actor,
        call: TreeCall,
        reply: TreeReply,
    },
    Begin {
        by: Actor,
        key: Key,
        stamp: u64,
        base: u64,
        text: Text,
    },
    Denied {
        by: Actor,
        asked: Asked,
        why: Denial,
    },
    /// A publish: accepted, or refused with the least position that was enrolled and its fence.
    Publish {
        by: Actor,
        key: Key,
        stamp: u64,
        mask: u16,
        refused: Option<(u8, u64)>,
    },
    Revoked {
        by: Actor,
        key: Key,
        stamp: u64,
        later: u64,
    },
    Look {
        by: Actor,
        key: Key,
        answer: Option<Published>,
    },
    Recheck {
        by: Actor,
        key: Key,
        answer: Option<Published>,
    },
    Enroll {
        by: Actor,
        node: u16,
        loss: u64,
        fence: u64,
    },
    Next {
        by: Actor,
        node: u16,
        after: Option<Key>,
        answer: Option<Listed>,
    },
    Did {
        by: Actor,
        node: u16,
        change: Change,
    },
    /// A keep or refill that the node's held records passed over.
    Passed {
        by: Actor,
        node: u16,
        key: Key,
        stamp: u64,
        held: u64,
    },
    Refused {
        by: Actor,
        node: u16,
        why: Why,
        told: u64,
    },
    Fetch {
        by: Actor,
        node: u16,
        key: Key,
        position: u8,
        stamp: u64,
        answer: Option<Held>,
    },
    /// A drop that found nothing.
    Void {
        by: Actor,
        node: u16,
        fid: u128,
    },
    /// A disk fault that made the node down, with the change that was tried.
    Broke {
        by: Actor,
        node: u16,
        change: Option<Change>,
    },
    Probe {
        by: Actor,
        node: u16,
        loss: Option<u64>,
    },
    /// The node's fuse lets `k` device calls pass; the next crash picks by `pick`.
    Armed {
        node: u16,
        k: u64,
        pick: u64,
    },
    Stop {
        node: u16,
    },
    Start {
        node: u16,
        took: bool,
    },
    /// The disk was not opened, with the number of the fault.
    Unopened {
        node: u16,
        cause: u8,
    },
    Lose {
        node: u16,
        loss: u64,
    },
    Replace {
        by: Actor,
        node: u16,
        loss: u64,
        fence: u64,
    },
    /// A message to a node was lost, on the way there or on the way back.
    Missed {
        by: Actor,
        node: u16,
        reply: bool,
    },
    Left {
        by: Actor,
        key: Key,
        why: LeftWhy,
    },
    Got {
        by: Actor,
        number: u32,
        key: Key,
        part: bool,
        end: ReadEnd,
    },
    Gave {
        by: Actor,
        number: u32,
        key: Key,
        part: bool,
        end: WriteEnd,
    },
    Done {
        by: Actor,
        number: u32,
        answer: Answer,
    },
}

/// Which stream of the log an event belongs to: the export's, a node's, or an actor's own. An event moves
/// its stream's word by one.
#[derive(Clone, Copy, Drop)]
pub enum Word {
    Export,
    Node(u16),
    Own(Actor),
}

/// Who did it: the administrator, where the event names no actor.
pub fn actor_of(event: &Event) -> Actor
    ensures { result ≡ by_of event.now }
{
    match event {
        Event::Meta { by, .. } => *by,
        Event::Begin { by, .. } => *by,
        Event::Denied { by, .. } => *by,
        Event::Publish { by, .. } => *by,
        Event::Revoked { by, .. } => *by,
        Event::Look { by, .. } => *by,
        Event::Recheck { by, .. } => *by,
        Event::Enroll { by, .. } => *by,
        Event::Next { by, .. } => *by,
        Event::Did { by, .. } => *by,
        Event::Passed { by, .. } => *by,
        Event::Refused { by, .. } => *by,
        Event::Fetch { by, .. } => *by,
        Event::Void { by, .. } => *by,
        Event::Broke { by, .. } => *by,
        Event::Probe { by, .. } => *by,
        Event::Armed { .. } => Actor::Admin,
        Event::Stop { .. } => Actor::Admin,
        Event::Start { .. } => Actor::Admin,
        Event::Unopened { .. } => Actor::Admin,
        Event::Lose { .. } => Actor::Admin,
        Event::Replace { by, .. } => *by,
        Event::Missed { by, .. } => *by,
        Event::Left { by, .. } => *by,
        Event::Got { by, .. } => *by,
        Event::Gave { by, .. } => *by,
        Event::Done { by, .. } => *by,
    }
}

/// Whose word it moves: the export's, a node's, or the actor's own.
pub fn word_of(event: &Event) -> Word
    ensures { result ≡ word_of event.now }
{
    match event {
        Event::Meta { .. } => Word::Export,
        Event::Begin { .. } => Word::Export,
        Event::Denied { .. } => Word::Export,
        Event::Publish { .. } => Word::Export,
        Event::Revoked { .. } => Word::Export,
        Event::Look { .. } => Word::Export,
        Event::Recheck { .. } => Word::Export,
        Event::Enroll { .. } => Word::Export,
        Event::Next { .. } => Word::Export,
        Event::Did { node, .. } => Word::Node(*node),
        Event::Passed { node, .. } => Word::Node(*node),
        Event::Refused { node, .. } => Word::Node(*node),
        Event::Fetch { node, .. } => Word::Node(*node),
        Event::Void { node, .. } => Word::Node(*node),
        Event::Broke { node, .. } => Word::Node(*node),
        Event::Probe { node, .. } => Word::Node(*node),
        Event::Armed { node, .. } => Word::Node(*node),
        Event::Stop { node } => Word::Node(*node),
        Event::Start { node, .. } => Word::Node(*node),
        Event::Unopened { node, .. } => Word::Node(*node),
        Event::Lose { node, .. } => Word::Node(*node),
        Event::Replace { node, .. } => Word::Node(*node),
        Event::Missed { by, .. } => Word::Own(*by),
        Event::Left { by, .. } => Word::Own(*by),
        Event::Got { by, .. } => Word::Own(*by),
        Event::Gave { by, .. } => Word::Own(*by),
        Event::Done { by, .. } => Word::Own(*by),
    }
}
