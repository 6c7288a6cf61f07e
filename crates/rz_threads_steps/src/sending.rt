//! Messages to nodes.
ghost use Rattle.std.specs.Prelude.{◌≡◌, ◌≢◌, ◌⊎◌, ◌↔◌, ◌+◌, ◌<◌, ◌≤◌, ◌^◌, ℕ, true, false, Some, None, IfOk, OnOk, OnErr, IsTrue, length};
ghost use Rattle.mj_angles.specs.Layout.{max_bins_of};
ghost use Rattle.rz_events.specs.declared.nodes.NodeAnswer.TheVariants as answer;
ghost use Rattle.rz_events.specs.declared.nodes.ReplaceAnswer.TheVariants as replace;
ghost use Rattle.rz_events.specs.declared.events.Event.TheVariants as e;
ghost use Rattle.rz_config.specs.Described.{has_sid};
ghost use Rattle.rz_script_words.specs.Limits.{has_node};
ghost use Rattle.rz_operation.specs.Answers.{IsAnswer};
ghost use Rattle.rz_operation_model.specs.Ask.{ask_of, AskNode};
ghost use Rattle.rz_operation_model.specs.Turns.{goes_by_link};
ghost use Rattle.rz_core.specs.History.{of_actor};
ghost use Rattle.rz_core.specs.NodeRows.{IsNodeOf};
ghost use Rattle.rz_core.specs.Own.{IsOpen};
ghost use Rattle.rz_play.specs.Faults.{missed};
ghost use Rattle.rz_player.specs.Messages.{IsSent, IsNotedAs};
ghost use Rattle.rz_chronicle.specs.Keys.{count_at, word_key};
ghost use Rattle.rz_chronicle.specs.Kinds.{keeps_legal, volume_in};
ghost use Rattle.rz_events.specs.declared.events.Word.TheVariants as w;
ghost use Rattle.rz_show.specs.Shown.{shown_of};
ghost use Rattle.rz_threads_steps.specs.Acted.{IsWorkRight, HasActed, IsCallServed, IsStopped};
ghost use Rattle.rz_threads_steps.specs.Adding.{AddsOwn, PassLasts};
ghost use Rattle.rz_threads_steps.specs.Turned.{AreLost};

use crate::adding::{add_own, call_node};
use crate::store::SharedStore;
use mj_angles::Layout;
use rz_chronicle::Pass;
use rz_config::Volume;
use rz_disk::Disk;
use rz_events::{Actor, Event, NodeAnswer, NodeAsk, NodeSpec, ReplaceAnswer};
use rz_link::{Link, Sent, fate};
use rz_node::is_record;
use rz_operation::{Machine, goes_by_link, is_placed};
use rz_player::Halted;
use rz_shared::Metering;
use std::sync::Wait;

/// Whether one of these nodes has this number.
fn is_among(nodes: &[NodeSpec], number: u16) -> bool
    ensures { result ≡ has_sid number nodes.now }
{
    nodes.iter().any(|node| node.sid == number)
}

/// Whether a node of the volume has this number.
fn is_in(volume: &Volume, number: u16) -> bool
    ensures { result ≡ has_node volume.now number }
{
    let clusters = volume.clusters.as_slice();
    clusters
        .iter()
        .any(|cluster| is_among(cluster.nodes.as_slice(), number))
}

/// Whether a node says that memory is wanting. Such an answer has no event.
fn wants_memory(given: &NodeAnswer) -> bool
    ensures { IsTrue result ↔ (given.now ≡ answer.Replace replace.NoMemory) }
{
    matches!(given, NodeAnswer::Replace(ReplaceAnswer::NoMemory))
}

/// Whether a machine may be told this answer: it is one to what was asked, and has an event.
fn tells(machine: &Machine, given: &NodeAnswer) -> bool
    ensures takes { IsTrue result → IsAnswer machine.now.layout (ask_of machine.now.layout machine.now.work) given.now }
    ensures some { IsTrue result → given.now ≢ answer.Replace replace.NoMemory }
    ensures not { result ≡ false → (given.now ≡ answer.Replace replace.NoMemory) ⊎ (¬ IsAnswer machine.now.layout (ask_of machine.now.layout machine.now.work) given.now) }
{
    !wants_memory(given) && machine.takes_answer(given)
}

/// Gives a call to a node, with the bins of what it is to keep, or with room for those that it reads.
fn serve<R: Wait, D: Disk, J: Metering>(
    rt: &R,
    store: &SharedStore<D, J>,
    pass: &mut Pass<J>,
    node: u16,
    machine: &Machine,
    ask: &NodeAsk,
    bins: &mut [u64],
) -> Result<NodeAnswer, Halted>
    requires volume { store.now.volume ≡ volume_in J.kind }
    requires node { IsNodeOf (volume_in J.kind) node }
    requires actor { ¬ (pass.old.actor ≡ Actor.Admin) }
    requires asked { ask_of machine.now.layout machine.now.work ≡ AskNode node ask.now }
    requires right { (number : ℕ) × IsWorkRight J.kind J.earlier pass.old number machine.now }
    requires room { max_bins_of (volume_in J.kind).layout ≤ length bins.old }
    ensures served { IfOk result (λ a. IsCallServed J.kind J.earlier node ask.now a pass.old pass.new bins.old bins.new) }
    ensures still { OnErr result (pass.new ≡ pass.old) }
{
    rz_block_laws::acting::asks();
    rz_block_laws::handing();
    let layout = store.volume.layout;
    match ask {
        NodeAsk::Keep(head) | NodeAsk::Refill { head, .. } => {
            let given = machine.bins();
            if !is_record(layout, head, given) || bins.len() < given.len() {
                return Err(Halted);
            }
            let own = &mut bins[..given.len()];
            own.copy_from_slice(given);
            Ok(call_node(rt, store, pass, node, ask, own))
        }
        NodeAsk::Fetch { .. } | NodeAsk::Drop { .. } | NodeAsk::Probe | NodeAsk::Replace { .. } =>
            Ok(call_node(rt, store, pass, node, ask, bins)),
        NodeAsk::Stop | NodeAsk::Start | NodeAsk::Lose => Err(Halted),
    }
}

/// The message comes through.
fn through<R: Wait, D: Disk, J: Metering>(
    rt: &R,
    store: &SharedStore<D, J>,
    pass: &mut Pass<J>,
    node: u16,
    machine: &mut Machine,
    ask: &NodeAsk,
    bins: &mut [u64],
) -> Result<(), Halted>
    requires volume { store.now.volume ≡ volume_in J.kind }
    requires node { IsNodeOf (volume_in J.kind) node }
    requires actor { ¬ (pass.old.actor ≡ Actor.Admin) }
    requires layout { machine.old.layout ≡ (volume_in J.kind).layout }
    requires asked { ask_of machine.old.layout machine.old.work ≡ AskNode node ask.now }
    requires right { (number : ℕ) × IsWorkRight J.kind J.earlier pass.old number machine.old }
    requires room { max_bins_of (volume_in J.kind).layout ≤ length bins.old }
    ensures lasts { PassLasts pass.old pass.new }
    ensures quiet { missed (of_actor pass.old.actor pass.new.log) ≡ missed (of_actor pass.old.actor pass.old.log) }
    ensures unshown { shown_of (of_actor pass.old.actor pass.new.log) ≡ shown_of (of_actor pass.old.actor pass.old.log) }
    ensures noted { OnOk result (IsNotedAs pass.old.actor node ask.now Sent.Through (of_actor pass.old.actor pass.old.log) (of_actor pass.old.actor pass.new.log)) }
    ensures acted { OnOk result ((number : ℕ) → IsWorkRight J.kind J.earlier pass.old number machine.old → HasActed J.kind J.earlier number pass.old pass.new machine.old machine.new) }
    ensures stopped { OnErr result ((number : ℕ) → IsStopped J.kind number pass.old pass.new machine.old) }
    ensures kept { OnErr result (machine.new ≡ machine.old) }
{
    rz_block_laws::acting::hears();
    rz_block_laws::taken();
    let layout = store.layout();
    if !is_placed(layout, ask) {
        return Err(Halted);
    }
    let answer = serve(rt, store, pass, node, machine, ask, bins)?;
    if !tells(machine, &answer) {
        return Err(Halted);
    }
    machine.tell_answer(answer, bins);
    Ok(())
}

/// Adds that the message to a node, or its answer, was lost.
fn add_missed<D: Disk, J: Metering>(
    store: &SharedStore<D, J>,
    pass: &mut Pass<J>,
    node: u16,
    reply: bool,
)
    requires volume { store.now.volume ≡ volume_in J.kind }
    requires actor { ¬ (pass.old.actor ≡ Actor.Admin) }
    requires going { IsTrue (keeps_legal J.kind) → IsOpen (of_actor pass.old.actor pass.old.log) }
    requires room { count_at (word_key (w.Own pass.old.actor)) pass.old.log + 1 < 2 ^ 62 }
    ensures { AddsOwn J.kind J.earlier pass.old (Some (e.Missed pass.old.actor node reply)) pass.new }
{
    rz_chronicle::roomy();
    let by = pass.actor();
    let event = Event::Missed { by, node, reply };
    add_own(store, pass, &event);
    drop(event);
}

/// The node is given the call, and its answer is lost.
fn without_reply<R: Wait, D: Disk, J: Metering>(
    rt: &R,
    store: &SharedStore<D, J>,
    pass: &mut Pass<J>,
    node: u16,
    machine: &mut Machine,
    ask: &NodeAsk,
    bins: &mut [u64],
) -> Result<(), Halted>
    requires volume { store.now.volume ≡ volume_in J.kind }
    requires node { IsNodeOf (volume_in J.kind) node }
    requires actor { ¬ (pass.old.actor ≡ Actor.Admin) }
    requires asked { ask_of machine.old.layout machine.old.work ≡ AskNode node ask.now }
    requires right { (number : ℕ) × IsWorkRight J.kind J.earlier pass.old number machine.old }
    requires lossy { goes_by_link ask.now ≡ true }
    requires room { max_bins_of (volume_in J.kind).layout ≤ length bins.old }
    ensures lasts { PassLasts pass.old pass.new }
    ensures one { missed (of_actor pass.old.actor pass.new.log) ≤ missed (of_actor pass.old.actor pass.old.log) + 1 }
    ensures unshown { shown_of (of_actor pass.old.actor pass.new.log) ≡ shown_of (of_actor pass.old.actor pass.old.log) }
    ensures noted { OnOk result (IsNotedAs pass.old.actor node ask.now Sent.ReplyLost (of_actor pass.old.actor pass.old.log) (of_actor pass.old.actor pass.new.log)) }
    ensures acted { OnOk result ((number : ℕ) → IsWorkRight J.kind J.earlier pass.old number machine.old → HasActed J.kind J.earlier number pass.old pass.new machine.old machine.new) }
    ensures stopped { OnErr result ((number : ℕ) → IsStopped J.kind number pass.old pass.new machine.old) }
    ensures kept { OnErr result (machine.new ≡ machine.old) }
{
    rz_block_laws::acting::goes();
    rz_block_laws::taken();
    if !pass.has_room_after() {
        return Err(Halted);
    }
    let answer = serve(rt, store, pass, node, machine, ask, bins)?;
    if !tells(machine, &answer) {
        return Err(Halted);
    }
    add_missed(store, pass, node, true);
    machine.tell_missed();
    Ok(())
}

/// The message is lost.
fn without_request<D: Disk, J: Metering>(
    store: &SharedStore<D, J>,
    pass: &mut Pass<J>,
    node: u16,
    machine: &mut Machine,
    ask: &NodeAsk,
) -> Result<(), Halted>
    requires volume { store.now.volume ≡ volume_in J.kind }
    requires actor { ¬ (pass.old.actor ≡ Actor.Admin) }
    requires asked { ask_of machine.old.layout machine.old.work ≡ AskNode node ask.now }
    requires right { (number : ℕ) × IsWorkRight J.kind J.earlier pass.old number machine.old }
    requires lossy { goes_by_link ask.now ≡ true }
    ensures lasts { PassLasts pass.old pass.new }
    ensures one { missed (of_actor pass.old.actor pass.new.log) ≤ missed (of_actor pass.old.actor pass.old.log) + 1 }
    ensures unshown { shown_of (of_actor pass.old.actor pass.new.log) ≡ shown_of (of_actor pass.old.actor pass.old.log) }
    ensures noted { OnOk result (IsNotedAs pass.old.actor node ask.now Sent.RequestLost (of_actor pass.old.actor pass.old.log) (of_actor pass.old.actor pass.new.log)) }
    ensures acted { OnOk result ((number : ℕ) → IsWorkRight J.kind J.earlier pass.old number machine.old → HasActed J.kind J.earlier number pass.old pass.new machine.old machine.new) }
    ensures stopped { OnErr result ((number : ℕ) → IsStopped J.kind number pass.old pass.new machine.old) }
    ensures kept { OnErr result (machine.new ≡ machine.old) }
{
    rz_block_laws::acting::asks();
    rz_block_laws::acting::goes();
    let _ = ask;
    if !pass.has_room_after() {
        return Err(Halted);
    }
    add_missed(store, pass, node, false);
    machine.tell_missed();
    Ok(())
}

/// Sends a node of the volume what a machine asks of it, and tells the machine the answer, or that the message
/// or its answer was lost. A record that is fetched comes into `bins`.
pub(crate) fn message<R: Wait, D: Disk, J: Metering, L: Link>(
    rt: &R,
    store: &SharedStore<D, J>,
    pass: &mut Pass<J>,
    link: &mut L,
    node: u16,
    machine: &mut Machine,
    ask: NodeAsk,
    bins: &mut [u64],
) -> Result<(), Halted>
    requires volume { store.now.volume ≡ volume_in J.kind }
    requires actor { ¬ (pass.old.actor ≡ Actor.Admin) }
    requires layout { machine.old.layout ≡ (volume_in J.kind).layout }
    requires asked { ask_of machine.old.layout machine.old.work ≡ AskNode node ask }
    requires right { (number : ℕ) × IsWorkRight J.kind J.earlier pass.old number machine.old }
    requires room { max_bins_of (volume_in J.kind).layout ≤ length bins.old }
    ensures lasts { PassLasts pass.old pass.new }
    ensures lost { AreLost pass.old.actor pass.old.log pass.new.log (L.lost link.old) (L.lost link.new) }
    ensures sent { OnOk result (IsSent L.says None pass.old.actor node ask link.old link.new (of_actor pass.old.actor pass.old.log) (of_actor pass.old.actor pass.new.log)) }
    ensures unshown { shown_of (of_actor pass.old.actor pass.new.log) ≡ shown_of (of_actor pass.old.actor pass.old.log) }
    ensures acted { OnOk result ((number : ℕ) → IsWorkRight J.kind J.earlier pass.old number machine.old → HasActed J.kind J.earlier number pass.old pass.new machine.old machine.new) }
    ensures stopped { OnErr result ((number : ℕ) → IsStopped J.kind number pass.old pass.new machine.old) }
    ensures kept { OnErr result (machine.new ≡ machine.old) }
{
    if node == 0 || !is_in(&store.volume, node) {
        return Err(Halted);
    }
    match fate(goes_by_link(&ask), None, node, link) {
        Sent::Through => through(rt, store, pass, node, machine, &ask, bins),
        Sent::ReplyLost => without_reply(rt, store, pass, node, machine, &ask, bins),
        Sent::RequestLost => without_request(store, pass, node, machine, &ask),
    }
}
