//! The administrator's lines: a node stops, starts or loses its disk, or its disk is armed.
ghost use Rattle.std.specs.Prelude.{◌≡◌, ◌⊎◌, ◌<◌, ◌≤◌, ℕ, List, Some, IfOk, OnOk, OnErr, IsTrue};
ghost use Rattle.rz_events.specs.declared.nodes.NodeAsk.TheVariants as ask;
ghost use Rattle.rz_events.specs.declared.events.Event.TheVariants as e;
ghost use Rattle.rz_play.specs.Lines.{noted};
ghost use Rattle.rz_driver_nodes.specs.Images.{KeepsImages, NodesStayCoherent, NodesUnchanged};
ghost use Rattle.rz_driver_nodes.specs.Meters.{AreMetered, AreCounted, CarriesCounts, GoesAsServer};
ghost use Rattle.rz_driver_nodes.specs.Servers.{IsCalled};
ghost use Rattle.rz_driver_nodes.specs.Administration.{StopsOrLoses, IsOrderNoted, IsOrderAnswered, IsFreeOrder, IsStarted, IsDiskArmed, IsArming, IsCalledAt, IsCrashedAt};

use crate::server::find;
use rz_disk::Disk;
use rz_events::{Actor, Event, NodeAnswer, NodeAsk, Phase, StartAnswer};
use rz_log::Log;
use rz_node::node_event;
use rz_nodes::Server;
use rz_player::Halted;
use std::alloc::Global;

/// The node of this number stops, or loses its disk.
pub fn order_node<D: Disk>(
    servers: &mut [Server<D>],
    log: &mut Log,
    sid: u16,
    ask: &NodeAsk,
) -> Result<(), Halted>
    requires ask { StopsOrLoses ask.now }
    ensures ok { OnOk result (IsOrderNoted ask.now sid servers.old servers.new log.old.events log.new.events) }
    ensures err { OnErr result (log.new.events ≡ log.old.events) }
    ensures held { OnOk result ((numbers : List ℕ) → CarriesCounts (AreMetered D.meter numbers servers.old log.old.events) (AreMetered D.meter numbers servers.new log.new.events)) }
    ensures left { OnErr result ((numbers : List ℕ) → CarriesCounts (AreMetered D.meter numbers servers.old log.old.events) (AreCounted D.meter numbers servers.new log.new.events)) }
    ensures coherent { OnOk result (IsTrue D.tells → NodesStayCoherent D.image servers.old log.old.events servers.new log.new.events) }
    ensures unchanged { OnErr result (IsTrue D.tells → NodesUnchanged D.image servers.old log.old.events servers.new) }
{
    rz_node_laws::longer::<D>();
    let Some(place) = find(servers, sid) else {
        return Err(Halted);
    };
    log.make_room()?;
    let event = order(&mut servers[place], ask);
    note(log, event);
    Ok(())
}

/// The node of this number starts again. What it finds is said of a disk that tells its text.
pub fn start_node<D: Disk>(
    alloc: Global,
    servers: &mut [Server<D>],
    log: &mut Log,
    sid: u16,
) -> Result<(), Halted>
    requires fuse { IsTrue D.has_fuse }
    ensures called { OnOk result (IsCalledAt sid servers.old servers.new) }

    // A node that is down crashes by its own pick before it starts, which the last arming left there.
    ensures crashed { OnOk result (IsCrashedAt D.picks D.text sid servers.old servers.new) }
    ensures stayed { OnErr result ((servers.new ≡ servers.old) ⊎ IsCrashedAt D.picks D.text sid servers.old servers.new) }

    ensures ok { OnOk result (IsTrue D.tells → IsOrderNoted ask.Start sid servers.old servers.new log.old.events log.new.events) }
    ensures started { OnOk result (IsStarted sid servers.old servers.new log.old.events log.new.events) }
    ensures err { OnErr result (log.new.events ≡ log.old.events) }
    ensures held { OnOk result ((numbers : List ℕ) → CarriesCounts (AreMetered D.meter numbers servers.old log.old.events) (AreMetered D.meter numbers servers.new log.new.events)) }
    ensures left { OnErr result ((numbers : List ℕ) → CarriesCounts (AreMetered D.meter numbers servers.old log.old.events) (AreCounted D.meter numbers servers.new log.new.events)) }
    ensures coherent { OnOk result (IsTrue D.tells → NodesStayCoherent D.image servers.old log.old.events servers.new log.new.events) }
    ensures unchanged { OnErr result (IsTrue D.tells → NodesUnchanged D.image servers.old log.old.events servers.new) }
{
    rz_node_laws::longer::<D>();
    let Some(place) = find(servers, sid) else {
        return Err(Halted);
    };
    log.make_room()?;
    let event = start(alloc, &mut servers[place])?;
    note(log, event);
    Ok(())
}

/// The disk of the node of this number lets so many device calls pass, and its next crash picks by
/// `pick`.
pub fn arm_node<D: Disk>(
    servers: &mut [Server<D>],
    log: &mut Log,
    sid: u16,
    passes: u64,
    pick: u64,
) -> Result<(), Halted>
    requires fuse { IsTrue D.has_fuse }
    ensures ok { OnOk result (IsArming passes pick sid servers.old servers.new log.old.events log.new.events) }
    ensures err { OnErr result (log.new.events ≡ log.old.events) }
    ensures held { OnOk result ((numbers : List ℕ) → CarriesCounts (AreMetered D.meter numbers servers.old log.old.events) (AreMetered D.meter numbers servers.new log.new.events)) }
    ensures left { OnErr result ((numbers : List ℕ) → CarriesCounts (AreMetered D.meter numbers servers.old log.old.events) (AreCounted D.meter numbers servers.new log.new.events)) }
    ensures coherent { OnOk result (IsTrue D.tells → NodesStayCoherent D.image servers.old log.old.events servers.new log.new.events) }
    ensures unchanged { OnErr result (IsTrue D.tells → NodesUnchanged D.image servers.old log.old.events servers.new) }
{
    rz_node_laws::longer::<D>();
    let Some(place) = find(servers, sid) else {
        return Err(Halted);
    };
    log.make_room()?;
    arm(&mut servers[place], passes, pick);
    log.note(Event::Armed {
        node: sid,
        k: passes,
        pick,
    });
    Ok(())
}

/// Notes the event of a line that applies.
fn note(log: &mut Log, event: Option<Event>)
    requires room { 0 < log.old.room }
    ensures { log.new.events ≡ noted event log.old.events }
{
    if let Some(event) = event {
        log.note(event);
    }
}

/// A node stops, or loses its disk.
fn order<D: Disk>(server: &mut Server<D>, ask: &NodeAsk) -> Option<Event>
    requires ask { StopsOrLoses ask.now }
    ensures order { IsOrderAnswered ask.now server.old server.new result }
    ensures metered { GoesAsServer D.meter server.old server.new result }
    ensures counted { (D.meter server.old.node.disk).own ≤ (D.meter server.new.node.disk).own }
    ensures images { IsTrue D.tells → KeepsImages D.image server.old server.new }
{
    match ask {
        NodeAsk::Lose => lose(server),
        _ => stop(server),
    }
}

fn stop<D: Disk>(server: &mut Server<D>) -> Option<Event>
    ensures order { IsOrderAnswered ask.Stop server.old server.new result }
    ensures metered { GoesAsServer D.meter server.old server.new result }
    ensures counted { (D.meter server.old.node.disk).own ≤ (D.meter server.new.node.disk).own }
    ensures images { IsTrue D.tells → KeepsImages D.image server.old server.new }
{
    rz_node_laws::called::<D>();
    rz_node_laws::faults();
    let answer = NodeAnswer::Stop(server.node.stop());
    node_event(Actor::Admin, server.sid, &NodeAsk::Stop, &answer)
}

fn lose<D: Disk>(server: &mut Server<D>) -> Option<Event>
    ensures order { IsOrderAnswered ask.Lose server.old server.new result }
    ensures metered { GoesAsServer D.meter server.old server.new result }
    ensures counted { (D.meter server.old.node.disk).own ≤ (D.meter server.new.node.disk).own }
    ensures images { IsTrue D.tells → KeepsImages D.image server.old server.new }
{
    rz_node_laws::called::<D>();
    rz_node_laws::faults();
    let answer = NodeAnswer::Lose(server.node.lose());
    node_event(Actor::Admin, server.sid, &NodeAsk::Lose, &answer)
}

/// A node that is down first loses what a loss of power may lose of its disk, which is then disarmed.
fn start<D: Disk>(alloc: Global, server: &mut Server<D>) -> Result<Option<Event>, Halted>
    requires fuse { IsTrue D.has_fuse }
    ensures called { IsCalled server.old server.new }
    ensures ok { IfOk result (λ event. IsTrue D.tells → IsOrderAnswered ask.Start server.old server.new event) }
    ensures started { IfOk result (λ event. IsFreeOrder server.old server.new event) }
    ensures crashed { server.old.node.state.phase ≡ Phase.Down → D.picks server.old.node.disk server.old.pick (D.text server.new.node.disk) }
    ensures metered { IfOk result (λ event. GoesAsServer D.meter server.old server.new event) }
    ensures counted { (D.meter server.old.node.disk).own ≤ (D.meter server.new.node.disk).own }
    ensures images { IsTrue D.tells → KeepsImages D.image server.old server.new }
    ensures same { OnErr result (server.new.node.state ≡ server.old.node.state) }
{
    rz_node_laws::called::<D>();
    rz_node_laws::crashed::<D>();
    rz_node_laws::fewer::<D>();
    rz_node_laws::started();
    if server.node.phase() == Phase::Down {
        server.node.crash(server.pick);
        server.node.arm(None);
    }
    match server.node.start(alloc) {
        StartAnswer::NoMemory => Err(Halted),
        given => {
            let answer = NodeAnswer::Start(given);
            Ok(node_event(Actor::Admin, server.sid, &NodeAsk::Start, &answer))
        }
    }
}

fn arm<D: Disk>(server: &mut Server<D>, passes: u64, pick: u64)
    requires fuse { IsTrue D.has_fuse }
    ensures armed { IsDiskArmed pick server.old server.new }
    ensures metered { GoesAsServer D.meter server.old server.new (Some (e.Armed server.old.sid passes pick)) }
    ensures counted { (D.meter server.old.node.disk).own ≤ (D.meter server.new.node.disk).own }
    ensures images { IsTrue D.tells → KeepsImages D.image server.old server.new }
{
    rz_node_laws::fewer::<D>();
    rz_node_laws::armed();
    server.node.arm(Some(passes));
    server.pick = pick;
}
