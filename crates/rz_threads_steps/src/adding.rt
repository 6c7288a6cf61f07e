//! Calls and acts of an actor, each with what it adds to the actor's own events.
ghost use Rattle.std.specs.Prelude.{◌≡◌, ◌+◌, ◌<◌, ◌^◌, ◌++◌, IsTrue, IfOk, IfSome, OnErr, Some, None, drop};
ghost use Rattle.mj_angles.specs.Layout.{max_bins_of};
ghost use Rattle.rz_events.specs.declared.events.Word.TheVariants as w;
ghost use Rattle.rz_events.specs.Events.{word_of, by_of};
ghost use Rattle.rz_events.specs.Borrowed.{call_of};
ghost use Rattle.rz_export_model.specs.ExportEvents.{export_event};
ghost use Rattle.rz_node.specs.Calls.{Takes, IsUnread};
ghost use Rattle.rz_operation.specs.Answers.{IsReplyTo};
ghost use Rattle.rz_core.specs.History.{facts, of_actor};
ghost use Rattle.rz_core.specs.NodeRows.{IsNodeOf};
ghost use Rattle.rz_core.specs.Tied.{IsProperCall};
ghost use Rattle.rz_play_laws.specs.Own.{IsOfActor};
ghost use Rattle.rz_block_laws.specs.Acting.{AreBytes};
ghost use Rattle.rz_chronicle.specs.Keys.{count_at, word_key};
ghost use Rattle.rz_chronicle.specs.Kinds.{keeps_legal, volume_in};
ghost use Rattle.rz_shared_locked.specs.Adding.{MayBeNext};
ghost use Rattle.rz_shared_locked.specs.LockedNodes.{MayAsk};
ghost use Rattle.rz_threads_steps.specs.Acted.{IsCallServed};
ghost use Rattle.rz_threads_steps.specs.Adding.{AddsOwn};

use crate::store::SharedStore;
use rz_chronicle::Pass;
use rz_disk::Disk;
use rz_events::{Actor, CallRef, Event, NodeAnswer, NodeAsk, Reply};
use rz_player::Halted;
use rz_shared::Metering;
use std::sync::Wait;

/// Calls the export for an actor. Where the export gives no reply, nothing is added.
pub(crate) fn call_export<R: Wait, D: Disk, J: Metering>(
    rt: &R,
    store: &SharedStore<D, J>,
    pass: &mut Pass<J>,
    call: CallRef<'_>,
) -> Result<Reply, Halted>
    requires volume { store.now.volume ≡ volume_in J.kind }
    requires actor { ¬ (pass.old.actor ≡ Actor.Admin) }
    requires may { IsTrue (keeps_legal J.kind) → IsProperCall (volume_in J.kind) (facts (pass.old.log ++ J.earlier)) (of_actor pass.old.actor (pass.old.log ++ J.earlier)) pass.old.actor (call_of call) }
    ensures adds { IfOk result (λ reply. AddsOwn J.kind J.earlier pass.old (export_event pass.old.actor (call_of call.entry) reply) pass.new) }
    ensures none { OnErr result (AddsOwn J.kind J.earlier pass.old None pass.new) }
    ensures answers { IfOk result (λ reply. IsTrue (keeps_legal J.kind) → IfSome (export_event pass.old.actor (call_of call.entry) reply) (λ x. IsReplyTo (volume_in J.kind).layout (call_of call.entry) reply)) }
    ensures bytes { IsTrue (keeps_legal J.kind) → AreBytes (facts (pass.new.log ++ J.earlier)) }
{
    rz_chronicle::actors_kept();
    rz_chronicle::added_alone();
    rz_chronicle::one_rule();
    rz_core::next_run();
    rz_play_laws::facts_told();
    rz_block_laws::replied();
    let _rules = store.volume.node_count();
    let _own = pass.actor();
    let reply = store.cluster.export_call(rt, &store.book, pass, call);
    let _seen = pass.actor();
    match reply {
        Ok(reply) => Ok(reply),
        Err(_) => Err(Halted),
    }
}

/// Calls a node of the volume for an actor.
pub(crate) fn call_node<R: Wait, D: Disk, J: Metering>(
    rt: &R,
    store: &SharedStore<D, J>,
    pass: &mut Pass<J>,
    node: u16,
    ask: &NodeAsk,
    bins: &mut [u64],
) -> NodeAnswer
    requires volume { store.now.volume ≡ volume_in J.kind }
    requires node { IsNodeOf (volume_in J.kind) node }
    requires takes { Takes (volume_in J.kind).layout ask.now bins.old }
    requires actor { ¬ (pass.old.actor ≡ Actor.Admin) }
    requires of_actor { IsOfActor ask.now }
    requires may { IsTrue (keeps_legal J.kind) → MayAsk (volume_in J.kind) (pass.old.log ++ J.earlier) pass.old.actor node ask.now bins.old }
    ensures served { IsCallServed J.kind J.earlier node ask.now result pass.old pass.new bins.old bins.new }

    // The caller's bins are written where a record was read, and not behind the most bins that one has.
    ensures unread { IsUnread result → bins.new ≡ bins.old }
    ensures rest { drop (max_bins_of (volume_in J.kind).layout) bins.new ≡ drop (max_bins_of (volume_in J.kind).layout) bins.old }
{
    rz_chronicle::actors_kept();
    rz_chronicle::added_alone();
    rz_chronicle::one_rule();
    rz_core::next_run();
    rz_play_laws::facts_told();
    let _rules = store.volume.node_count();
    let _own = pass.actor();
    let answer = store
        .cluster
        .node_call(rt, &store.book, pass, node, ask, bins);
    let _seen = pass.actor();
    answer
}

/// Adds an event of the actor's own word.
pub(crate) fn add_own<D: Disk, J: Metering>(
    store: &SharedStore<D, J>,
    pass: &mut Pass<J>,
    event: &Event,
)
    requires volume { store.now.volume ≡ volume_in J.kind }
    requires actor { ¬ (pass.old.actor ≡ Actor.Admin) }
    requires word { word_of event.now ≡ w.Own pass.old.actor }
    requires by { by_of event.now ≡ pass.old.actor }
    requires legal { MayBeNext J.kind J.earlier pass.old.log event.now }
    requires room { count_at (word_key (w.Own pass.old.actor)) pass.old.log + 1 < 2 ^ 62 }
    ensures { AddsOwn J.kind J.earlier pass.old (Some event.now) pass.new }
{
    rz_chronicle::actors_kept();
    rz_chronicle::added_alone();
    rz_chronicle::one_rule();
    rz_core::next_run();
    rz_play_laws::facts_told();
    let _rules = store.volume.node_count();
    let _own = pass.actor();
    store.cluster.finish(&store.book, pass, event);
    let _seen = pass.actor();
}
