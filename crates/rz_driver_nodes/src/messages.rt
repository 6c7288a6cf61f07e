//! Messages to nodes.
ghost use Rattle.std.specs.Prelude.{◌≡◌, ◌<◌, ◌≤◌, ℕ, List, true, IsTrue, OnOk, OnErr, IfOk, length};
ghost use Rattle.rz_cells_slots.specs.Opening.{opening_calls};
ghost use Rattle.mj_angles.specs.Layout.{max_bins_of};
ghost use Rattle.rz_block_laws.specs.Laws as laws;
ghost use Rattle.rz_node.specs.Calls.{CountsCall, IsNoStart};
ghost use Rattle.rz_node.specs.Fetched.{IsFetchOf};
ghost use Rattle.rz_operation.specs.Answers.{FitsIfEnough, IsAnswerTo, IsPlaced};
ghost use Rattle.rz_operation_model.specs.Turns.{goes_by_link};
ghost use Rattle.rz_play_laws.specs.Own.{IsOfActor};
ghost use Rattle.rz_driver_nodes.specs.Nodes.{IsNodeServed, IsAsked, IsThroughPart, IsReplyLostPart, IsRequestLostPart};
ghost use Rattle.rz_driver_nodes.specs.Meters.{OneNodeGoesOn};
ghost use Rattle.rz_driver_nodes.specs.Images.{NodeStaysCoherent, NodeUnchanged};

use mj_angles::Layout;
use rz_disk::Disk;
use rz_events::{Actor, Event, NodeAnswer, NodeAsk};
use rz_log::Log;
use rz_node::{Node, answer_node, is_record, node_event};
use rz_operation::{Machine, is_placed};
use rz_player::Halted;
use std::alloc::Global;

/// Gives a call to a node, with the bins of what it is to keep, or with room for those that it reads.
fn serve<D: Disk>(
    alloc: Global,
    layout: Layout,
    machine: &Machine,
    ask: &NodeAsk,
    node: &mut Node<D>,
    bins: &mut [u64],
) -> Result<NodeAnswer, Halted>
    requires layout { node.old.geometry.layout ≡ layout }
    requires asked { (n : ℕ) × IsAsked machine.now n ask.now }
    requires room { max_bins_of layout ≤ length bins.old }
    ensures served { IfOk result (λ a. IsNodeServed node.old.geometry.cells ask.now a node.old.state node.new.state) }
    ensures geometry { node.new.geometry ≡ node.old.geometry }
    ensures fetched { IfOk result (λ a. IsFetchOf layout a) }
    ensures no_start { OnOk result (IsNoStart ask.now) }
    ensures actor { OnOk result (IsOfActor ask.now) }
    ensures message { IfOk result (λ a. IsTrue D.tells → (n : ℕ) → IsAsked machine.now n ask.now → (handed : List ℕ) × laws.IsMessage D.text D.image machine.now n node.old.geometry.cells node.old.geometry node.old.state ask.now a handed bins.new node.old.disk node.new.disk) }
    ensures room { length bins.new ≡ length bins.old }
    ensures counts { IfOk result (λ a. CountsCall (opening_calls node.old.geometry) a (D.meter node.old.disk) (D.meter node.new.disk)) }
    ensures same { OnErr result (node.new ≡ node.old) }
{
    match ask {
        NodeAsk::Keep(head) | NodeAsk::Refill { head, .. } => {
            let given = machine.bins();
            if !is_record(layout, head, given) || bins.len() < given.len() {
                return Err(Halted);
            }
            let own = &mut bins[..given.len()];
            own.copy_from_slice(given);
            Ok(answer_node(alloc, node, ask, own))
        }
        NodeAsk::Fetch { .. } | NodeAsk::Drop { .. } | NodeAsk::Probe | NodeAsk::Replace { .. } =>
            Ok(answer_node(alloc, node, ask, bins)),
        NodeAsk::Stop | NodeAsk::Start | NodeAsk::Lose => Err(Halted),
    }
}

/// Tells a machine an answer, with the bins that came.
fn tell(layout: Layout, machine: &mut Machine, ask: &NodeAsk, answer: NodeAnswer, bins: &[u64])
    requires machine { machine.old.layout ≡ layout }
    requires asked { (n : ℕ) × IsAsked machine.old n ask.now }
    requires placed { IsPlaced layout ask.now }
    requires answers { IsAnswerTo layout ask.now answer }
    requires bins { max_bins_of layout ≤ length bins.now }
    ensures { FitsIfEnough machine.old answer bins.now machine.new }
{
    machine.tell_answer(answer, bins);
}

/// The message comes through. Where the disk does not tell its text, the records that came may fit no block:
/// the machine is told so, and goes on.
pub fn through<D: Disk>(
    alloc: Global,
    layout: Layout,
    by: Actor,
    number: u16,
    machine: &mut Machine,
    ask: NodeAsk,
    node: &mut Node<D>,
    bins: &mut [u64],
    log: &mut Log,
) -> Result<(), Halted>
    requires layout { node.old.geometry.layout ≡ layout }
    requires machine { machine.old.layout ≡ layout }
    requires asked { IsAsked machine.old number ask }
    requires bins { max_bins_of layout ≤ length bins.old }
    requires room { 0 < log.old.room }
    ensures ok { OnOk result (IsThroughPart by number node.old.geometry.cells ask node.old.state node.new.state machine.old machine.new log.old.events log.new.events) }
    ensures err { OnErr result (log.new.events ≡ log.old.events) }
    ensures geometry { node.new.geometry ≡ node.old.geometry }
    ensures metered { OnOk result (OneNodeGoesOn D.meter number node.old node.new log.old.events log.new.events) }
    ensures counted { (D.meter node.old.disk).own ≤ (D.meter node.new.disk).own }
    ensures coherent { OnOk result (IsTrue D.tells → NodeStaysCoherent D.image by number machine.old machine.new node.old node.new log.old.events log.new.events) }
    ensures unchanged { OnErr result (IsTrue D.tells → NodeUnchanged D.image by number machine.old node.old node.new log.old.events) }
{
    rz_node_laws::faults();
    rz_block_laws::heard::<D>();
    if !is_placed(layout, &ask) {
        return Err(Halted);
    }
    let answer = serve(alloc, layout, machine, &ask, node, bins)?;
    let Some(event) = node_event(by, number, &ask, &answer) else {
        return Err(Halted);
    };
    tell(layout, machine, &ask, answer, bins);
    log.note(event);
    Ok(())
}

/// The node is given the call, and its answer is lost.
pub fn without_reply<D: Disk>(
    alloc: Global,
    layout: Layout,
    by: Actor,
    number: u16,
    machine: &mut Machine,
    ask: NodeAsk,
    node: &mut Node<D>,
    bins: &mut [u64],
    log: &mut Log,
) -> Result<(), Halted>
    requires layout { node.old.geometry.layout ≡ layout }
    requires asked { IsAsked machine.old number ask }
    requires lossy { goes_by_link ask ≡ true }
    requires bins { max_bins_of layout ≤ length bins.old }
    requires room { 2 ≤ log.old.room }
    ensures ok { OnOk result (IsReplyLostPart by number node.old.geometry.cells ask node.old.state node.new.state machine.old machine.new log.old.events log.new.events) }
    ensures err { OnErr result (log.new.events ≡ log.old.events) }
    ensures geometry { node.new.geometry ≡ node.old.geometry }
    ensures metered { OnOk result (OneNodeGoesOn D.meter number node.old node.new log.old.events log.new.events) }
    ensures counted { (D.meter node.old.disk).own ≤ (D.meter node.new.disk).own }
    ensures coherent { OnOk result (IsTrue D.tells → NodeStaysCoherent D.image by number machine.old machine.new node.old node.new log.old.events log.new.events) }
    ensures unchanged { OnErr result (IsTrue D.tells → NodeUnchanged D.image by number machine.old node.old node.new log.old.events) }
{
    rz_node_laws::faults();
    rz_block_laws::heard::<D>();
    rz_block_laws::told();
    let answer = serve(alloc, layout, machine, &ask, node, bins)?;
    let Some(event) = node_event(by, number, &ask, &answer) else {
        return Err(Halted);
    };
    machine.tell_missed();
    log.note(event);
    log.note(Event::Missed {
        by,
        node: number,
        reply: true,
    });
    Ok(())
}

/// The message is lost.
pub fn without_request(by: Actor, number: u16, machine: &mut Machine, ask: NodeAsk, log: &mut Log)
    requires asked { IsAsked machine.old number ask }
    requires lossy { goes_by_link ask ≡ true }
    requires room { 0 < log.old.room }
    ensures { IsRequestLostPart by number machine.old machine.new log.old.events log.new.events }
{
    machine.tell_missed();
    log.note(Event::Missed {
        by,
        node: number,
        reply: false,
    });
}
