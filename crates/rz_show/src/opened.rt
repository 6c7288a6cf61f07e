//! How many positions the file has that each actor opened last.

ghost use Rattle.std.specs.Prelude.{◌≡◌, ◌≤◌, EachIndex, IfSome, slice_index};
ghost use Rattle.rz_show.specs.Opened.{places_in, places_opened};

use rz_events::{Actor, Event, TreeCall, TreeReply};

/// The positions of each actor's file, of which there are at most 16; none before it opened one.
#[derive(Drop)]
pub struct Opened {
    clients: [u8; 256],
    rebuilders: [u8; 256],
    admin: u8,
    ghost clients_few: { EachIndex clients (λ k. slice_index clients k ≤ 16) },
    ghost rebuilders_few: { EachIndex rebuilders (λ k. slice_index rebuilders k ≤ 16) },
    ghost admin_few: { admin ≤ 16 },
}

impl Opened {
    ghost use Rattle.rz_show.specs.Known.{known, KnowsNone, NotesPositions, Sets};

    /// No actor opened a file.
    pub fn none() -> Opened
        ensures { KnowsNone result }
    {
        Opened {
            clients: [0; 256],
            rebuilders: [0; 256],
            admin: 0,
        }
    }

    /// The positions of an actor's file.
    pub fn positions(&self, by: Actor) -> u8
        ensures value { result ≡ known self.now by }
        ensures few { result ≤ 16 }
    {
        match by {
            Actor::Client(number) => self.clients[usize::from(number)],
            Actor::Rebuilder(number) => self.rebuilders[usize::from(number)],
            Actor::Admin => self.admin,
        }
    }

    /// An actor opened a file with so many positions.
    fn set(&mut self, by: Actor, count: u8)
        requires { count ≤ 16 }
        ensures { Sets self.old self.new by count }
    {
        match by {
            Actor::Client(number) => self.clients[usize::from(number)] = count,
            Actor::Rebuilder(number) => self.rebuilders[usize::from(number)] = count,
            Actor::Admin => self.admin = count,
        }
    }

    /// Takes up what an event tells.
    pub fn note(&mut self, event: &Event)
        ensures { NotesPositions self.old self.new event.now }
    {
        if let Event::Meta { by, call, reply } = event {
            if let Some(count) = places_opened(call, reply) {
                self.set(*by, count);
            }
        }
    }
}

/// The places of the file that a call opened, where it did.
fn places_opened(call: &TreeCall, reply: &TreeReply) -> Option<u8>
    ensures value { result ≡ places_opened call.now reply.now }
    ensures few { IfSome result (λ n. n ≤ 16) }
{
    match call {
        TreeCall::OpenFile { .. } => places_in(reply),
        _ => None,
    }
}

/// The places of the file in a reply, where there is one.
fn places_in(reply: &TreeReply) -> Option<u8>
    ensures value { result ≡ places_in reply.now }
    ensures few { IfSome result (λ n. n ≤ 16) }
{
    match reply {
        TreeReply::File(info) => Some(info.places.list().len() as u8),
        _ => None,
    }
}
