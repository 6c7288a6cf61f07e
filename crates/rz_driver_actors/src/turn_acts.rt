//! What an actor does in its turn.
ghost use Rattle.std.specs.Prelude.{◌≡◌, ◌+◌, ◌<◌, ◌≤◌, ◌^◌, ℕ, length, SomeIff, IsTrue, OnOk, OnErr, List, Some};
ghost use Rattle.std.specs.FinMap as map;
ghost use Rattle.std.specs.Vec.{vec_len};
ghost use Rattle.mj_angles.specs.Layout.{max_bins_of};
ghost use Rattle.rz_events.specs.declared.keys.Actor.TheVariants as actor;
ghost use Rattle.rz_play.specs.Turns as model;
ghost use Rattle.rz_driver_asks.specs.Locking.{lock_of};
ghost use Rattle.rz_driver_nodes.specs.Nodes.{IsAsked};
ghost use Rattle.rz_operation.specs.Machine.{work_in, HasLayout};
ghost use Rattle.rz_player.specs.Messages.{IsAskSent, IsSent};
ghost use Rattle.rz_driver_nodes.specs.Meters.{AreMetered, AreCounted, CarriesCounts};
ghost use Rattle.rz_metadata.specs.Stands.{IsJournalOpen};
ghost use Rattle.rz_driver_asks.specs.Asked.{LeavesAsked};
ghost use Rattle.rz_operation_model.specs.Ask.{ask_of};
ghost use Rattle.rz_driver_actors.specs.Stores.{TurnsExport, IsSameStore};
ghost use Rattle.rz_driver_actors.specs.Hands.{StaysCoherent, LeavesUnchanged};
ghost use Rattle.rz_driver_actors.specs.Acts.{IsActorMessage, IsLockReleased, IsSameActor, IsAct, HasLayouts};

use crate::actor_agenda::Agenda;
use crate::shared::Shared;
use mj_angles::Layout;
use rz_disk::Disk;
use rz_driver_asks::{ask_export, open, say};
use rz_driver_nodes::{find, through, without_reply, without_request};
use rz_events::{Actor, NodeAsk};
use rz_link::{Link, Sent, fate};
use rz_locks::{LockKind, Locks, Range};
use rz_operation::{AskKind, Machine, goes_by_link};
use rz_player::Halted;
use std::alloc::Global;

/// The actor does what its operation asks next.
pub fn act<D: Disk, J: Disk, L: Link>(
    alloc: Global,
    layout: Layout,
    by: Actor,
    agenda: &mut Agenda,
    shared: &mut Shared<D, J>,
    link: &mut L,
) -> Result<(), Halted>
    requires machine { HasLayout layout agenda.old.machine }
    requires servers { HasLayouts layout shared.old.servers.items }
    requires bins { max_bins_of layout ≤ length shared.old.bins.items }
    requires tied { (n : ℕ) → by ≡ actor.Client n → map.get shared.old.locks n ≡ lock_of agenda.old.lock }
    requires room { 2 ≤ shared.old.log.room }
    ensures ok { OnOk result (IsAct layout by agenda.old agenda.new shared.old shared.new) }
    ensures actor { IsSameActor agenda.old agenda.new }
    ensures miss { OnErr result (agenda.new.miss ≡ agenda.old.miss) }
    ensures err { OnErr result (shared.new.log.events ≡ shared.old.log.events) }
    ensures lost { OnErr result (shared.new.lost ≡ shared.old.lost) }
    ensures link { shared.new.lost + L.lost link.old ≤ shared.old.lost + L.lost link.new }
    ensures sent { OnOk result (IsAskSent L.says (ask_of layout (work_in agenda.old.machine)) agenda.old.miss by link.old link.new shared.old.log.events shared.new.log.events) }
    ensures bins { length shared.new.bins.items ≡ length shared.old.bins.items }
    ensures count { vec_len shared.new.servers ≡ vec_len shared.old.servers }
    ensures held { OnOk result ((numbers : List ℕ) → CarriesCounts (AreMetered D.meter numbers shared.old.servers.items shared.old.log.events) (AreMetered D.meter numbers shared.new.servers.items shared.new.log.events)) }
    ensures left { OnErr result ((numbers : List ℕ) → CarriesCounts (AreMetered D.meter numbers shared.old.servers.items shared.old.log.events) (AreCounted D.meter numbers shared.new.servers.items shared.new.log.events)) }
    ensures store { IsSameStore J.meter shared.old.export shared.new.export }
    ensures kept { OnOk result (TurnsExport J.tells J.meter J.image by agenda.old.machine shared.old.export shared.new.export shared.old.log.events shared.new.log.events) }
    ensures ended { OnErr result (IsJournalOpen shared.old.export → LeavesAsked J.tells J.meter J.image (ask_of layout (work_in agenda.old.machine)) shared.old.export shared.new.export) }
    ensures coherent { OnOk result (IsTrue D.tells → StaysCoherent D.image by agenda.old.machine agenda.new.machine shared.old.servers.items shared.old.log.events shared.new.servers.items shared.new.log.events) }
    ensures unchanged { OnErr result (IsTrue D.tells → LeavesUnchanged D.image by agenda.old.machine shared.old.servers.items shared.old.log.events shared.new.servers.items) }
{
    rz_block_laws::told();
    rz_node_laws::longer::<D>();
    let Some(machine) = &mut agenda.machine else {
        return Ok(());
    };
    match machine.ask_kind() {
        AskKind::Rest => Ok(()),
        AskKind::Export => ask_export(alloc, by, machine, &mut shared.export, &mut shared.log),
        AskKind::Lock => open(
            alloc,
            by,
            machine,
            &mut agenda.lock,
            &mut shared.locks,
            &mut shared.export,
            &mut shared.log,
        ),
        AskKind::Node { node, ask } => message(
            alloc,
            layout,
            by,
            node,
            ask,
            machine,
            &mut agenda.miss,
            shared,
            link,
        ),
        AskKind::Say => {
            let done = say(alloc, by, agenda.number, machine, &mut shared.log)?;
            release_if(done, by, &mut agenda.lock, &mut shared.locks);
            Ok(())
        }
    }
}

/// Releases the lock of an actor whose operation is done.
fn release_if(done: bool, by: Actor, lock: &mut Option<(Range, LockKind)>, locks: &mut Locks)
    ensures { IsLockReleased done by lock.old lock.new locks.old locks.new }
{
    if done {
        *lock = None;
        if let Actor::Client(owner) = by {
            locks.release(owner);
        }
    }
}

/// A message goes to a node.
fn message<D: Disk, J: Disk, L: Link>(
    alloc: Global,
    layout: Layout,
    by: Actor,
    number: u16,
    ask: NodeAsk,
    machine: &mut Machine,
    miss: &mut Option<bool>,
    shared: &mut Shared<D, J>,
    link: &mut L,
) -> Result<(), Halted>
    requires machine { machine.old.layout ≡ layout }
    requires asked { IsAsked machine.old number ask }
    requires servers { HasLayouts layout shared.old.servers.items }
    requires bins { max_bins_of layout ≤ length shared.old.bins.items }
    requires room { 2 ≤ shared.old.log.room }
    ensures ok { OnOk result (IsActorMessage by number ask machine.old machine.new miss.old miss.new shared.old shared.new) }
    ensures sent { OnOk result (IsSent L.says miss.old by number ask link.old link.new shared.old.log.events shared.new.log.events) }
    ensures miss { OnErr result (miss.new ≡ miss.old) }
    ensures locks { shared.new.locks ≡ shared.old.locks }
    ensures err { OnErr result (shared.new.log.events ≡ shared.old.log.events) }
    ensures lost { OnErr result (shared.new.lost ≡ shared.old.lost) }
    ensures export { shared.new.export ≡ shared.old.export }
    ensures link { shared.new.lost + L.lost link.old ≤ shared.old.lost + L.lost link.new }
    ensures bins { length shared.new.bins.items ≡ length shared.old.bins.items }
    ensures count { vec_len shared.new.servers ≡ vec_len shared.old.servers }
    ensures held { OnOk result ((numbers : List ℕ) → CarriesCounts (AreMetered D.meter numbers shared.old.servers.items shared.old.log.events) (AreMetered D.meter numbers shared.new.servers.items shared.new.log.events)) }
    ensures left { OnErr result ((numbers : List ℕ) → CarriesCounts (AreMetered D.meter numbers shared.old.servers.items shared.old.log.events) (AreCounted D.meter numbers shared.new.servers.items shared.new.log.events)) }
    ensures coherent { OnOk result (IsTrue D.tells → StaysCoherent D.image by (Some machine.old) (Some machine.new) shared.old.servers.items shared.old.log.events shared.new.servers.items shared.new.log.events) }
    ensures unchanged { OnErr result (IsTrue D.tells → LeavesUnchanged D.image by (Some machine.old) shared.old.servers.items shared.old.log.events shared.new.servers.items) }
{
    rz_block_laws::told();
    rz_node_laws::longer::<D>();
    let Some(place) = find(shared.servers.as_slice(), number) else {
        return Err(Halted);
    };
    let Some(lost) = lost_after(*miss, shared.lost) else {
        return Err(Halted);
    };
    let node = &mut shared.servers[place].node;
    let bins = &mut shared.bins;
    let log = &mut shared.log;
    match fate(goes_by_link(&ask), *miss, number, link) {
        Sent::Through => through(alloc, layout, by, number, machine, ask, node, bins, log),
        Sent::ReplyLost => {
            without_reply(alloc, layout, by, number, machine, ask, node, bins, log)?;
            *miss = None;
            shared.lost = lost;
            Ok(())
        }
        Sent::RequestLost => {
            without_request(by, number, machine, ask, log);
            *miss = None;
            shared.lost = lost;
            Ok(())
        }
    }
}

/// How many messages the link has then lost of itself.
fn lost_after(miss: Option<bool>, lost: u64) -> Option<u64>
    ensures { SomeIff result (model.lost_after miss lost < 2 ^ 64) (model.lost_after miss lost) }
{
    match miss {
        None => lost.checked_add(1),
        Some(_) => Some(lost),
    }
}
