//! The cluster and its calls.
ghost use Rattle.std.specs.Option.{option_map};
ghost use Rattle.std.specs.Prelude.{◌≡◌, ◌+◌, ◌<◌, ◌^◌, ◌++◌, false, IsTrue, IfOk, IfErr, OnErr, drop, length, map, slice_index_or};
ghost use Rattle.mj_angles.specs.Layout.{max_bins_of};
ghost use Rattle.rz_events.specs.declared.files.NodeSpec.{NodeSpec as ANodeSpec};
ghost use Rattle.rz_events.specs.declared.events.Word.TheVariants as w;
ghost use Rattle.rz_events.specs.declared.events.Event.TheVariants as e;
ghost use Rattle.rz_events.specs.Events.{word_of, by_of};
ghost use Rattle.rz_events.specs.Borrowed.{call_of};
ghost use Rattle.rz_export_model.specs.ExportEvents.{export_event};
ghost use Rattle.rz_events.specs.declared.nodes.NodeAsk.TheVariants as ask;
ghost use Rattle.rz_events.specs.declared.nodes.NodeAnswer.TheVariants as answer;
ghost use Rattle.rz_cells_slots.specs.Shape.{IsGeometry};
ghost use Rattle.rz_node_model.specs.NodeEvents.{node_event, lose_event};
ghost use Rattle.rz_node_model.specs.Versions.{Stands};
ghost use Rattle.rz_node.specs.Calls.{Takes, IsUnread};
ghost use Rattle.rz_core.specs.History.{facts, of_actor};
ghost use Rattle.rz_core.specs.NodeRows.{IsNodeOf};
ghost use Rattle.rz_core.specs.Tied.{IsProperCall};
ghost use Rattle.rz_node_laws.specs.Images.{geometry_in};
ghost use Rattle.rz_chronicle.specs.Keys.{count_at, word_key};
ghost use Rattle.rz_chronicle.specs.Kinds.{IsFit, keeps_legal, volume_in};
ghost use Rattle.rz_chronicle.specs.Holds.{Commits};
ghost use Rattle.rz_shared_locked.specs.Adding.{MayBeNext};
ghost use Rattle.rz_shared_locked.specs.LockedNodes.{MayAsk, IsAskerRight, Answered, IsTrueRecord};
ghost use Rattle.rz_shared_locked.specs.LockedExports.{AnswersCall, AreTextsOfBytes, IsUnanswered};
ghost use Rattle.rz_shared_locked.specs.Swaps.{IsUnswapped};

use crate::room::ClosingRoom;
use crate::{LockedExport, LockedNode, Metering, Swap, SwapFault};
use mj_angles::Layout;
use rz_chronicle::{Book, Pass};
use rz_disk::{Disk, Fused};
use rz_events::{Actor, CallRef, Event, NodeAnswer, NodeAsk, NodeSpec, Reply};
use rz_metadata::{JournalRefusal, NoReply};
use rz_node::Geometry;
use std::marker::Model;
use std::sync::{Mutex, Wait};

/// The nodes of a volume in the order of the description, each behind its lock, and the export behind its
/// own. Each disk of a node is in a fuse.
#[derive(Drop)]
pub struct Cluster<D: Disk, J: Metering> {
    pub(crate) layout: Layout,
    pub(crate) nodes: Vec<NodeSpec>,
    pub(crate) locked_nodes: Vec<Mutex<LockedNode<Fused<D>, J>>>,
    pub(crate) locked_export: Mutex<LockedExport<D, J>>,
    /// Room for the disks and the tokens, for when they are handed back.
    pub(crate) room: Mutex<ClosingRoom<D, J>>,
}

impl<D: Disk, J: Metering> Model for Cluster<D, J> {
    ghost use Rattle.std.specs.Prelude.{◌≡◌, length};
    ghost use Rattle.std.specs.List.{AllByRecursion};
    ghost use Rattle.std.specs.Vec.{vec_len};
    ghost use Rattle.rz_events.specs.Volume.{Volume, IsVolume, IsNode, nodes_of};
    ghost use Rattle.rz_chronicle.specs.Kinds.{volume_in};

    ghost Value = { Volume };

    ghost view = { λ c. volume_in J.kind };

    ghost invariant = { λ c. (c.nodes.items ≡ nodes_of (volume_in J.kind).clusters) × (vec_len c.locked_nodes ≡ vec_len c.nodes)
        × (vec_len c.locked_nodes ≡ length (nodes_of (volume_in J.kind).clusters))
        × IsVolume (volume_in J.kind)
        × AllByRecursion IsNode (nodes_of (volume_in J.kind).clusters)
        × (c.layout ≡ (volume_in J.kind).layout) };
}

/// Where the node of a number stands.
fn place_of(nodes: &[NodeSpec], number: u16) -> usize
    requires { Stands number (map (λ (n : ANodeSpec). n.sid) nodes.now) }
    ensures within { result < length nodes.now }
    ensures there { (d : ANodeSpec) → (slice_index_or nodes.now result d).sid ≡ number }
{
    let mut place = 0;
    while nodes[place].sid != number {
        place += 1;
    }
    place
}

impl<D: Disk, J: Metering> Cluster<D, J> {
    // The lock at the place of a node.
    pub(crate) fn locked_node(&self, node: u16) -> &Mutex<LockedNode<Fused<D>, J>>
        requires { IsNodeOf (volume_in J.kind) node }
    {
        &self.locked_nodes[place_of(self.nodes.as_slice(), node)]
    }

    /// Takes the lock of a node, calls it, and adds the event of its answer to the log. It does not return
    /// where the node's word cannot move.
    pub fn node_call<R: Wait>(
        &self,
        rt: &R,
        book: &Book<J>,
        pass: &mut Pass<J>,
        node: u16,
        ask: &NodeAsk,
        bins: &mut [u64],
    ) -> NodeAnswer
        requires node { IsNodeOf (volume_in J.kind) node }
        requires takes { Takes (volume_in J.kind).layout ask.now bins.old }
        requires actor { IsAskerRight pass.old.actor ask.now }
        requires may { IsTrue (keeps_legal J.kind) → MayAsk (volume_in J.kind) (pass.old.log ++ J.earlier) pass.old.actor node ask.now bins.old }
        ensures same { (pass.new.actor ≡ pass.old.actor) × (pass.new.keys ≡ pass.old.keys) }
        ensures answered { Answered J.kind J.earlier node ask.now result (node_event pass.old.actor node ask.now result) pass.old.keys pass.old.log pass.new.log }
        ensures read { IsTrue (keeps_legal J.kind) → IsTrueRecord (volume_in J.kind) (facts (pass.new.log ++ J.earlier)) node ask.now result bins.old bins.new }

        // The caller's bins are written where a record was read, and not behind the most bins that one has.
        ensures unread { IsUnread result → bins.new ≡ bins.old }
        ensures rest { drop (max_bins_of (volume_in J.kind).layout) bins.new ≡ drop (max_bins_of (volume_in J.kind).layout) bins.old }

        ensures fit { IsFit J.kind pass.new.log }
    {
        let locked_node = self.locked_node(node);
        locked_node.lock(rt).call(rt, book, pass, node, ask, bins)
    }

    /// Takes the export's lock, calls it by a borrowed call, and adds the event of its reply to the log. There
    /// is no reply where memory is wanting or the journal does not keep the call, and after that none to any
    /// call. It does not return where the export does not take the call, which it does in a book that keeps its
    /// log legal, or where its word cannot move.
    pub fn export_call<R: Wait>(
        &self,
        rt: &R,
        book: &Book<J>,
        pass: &mut Pass<J>,
        call: CallRef<'_>,
    ) -> Result<Reply, NoReply>
        requires actor { ¬ (pass.old.actor ≡ Actor.Admin) }
        requires may { IsTrue (keeps_legal J.kind) → IsProperCall (volume_in J.kind) (facts (pass.old.log ++ J.earlier)) (of_actor pass.old.actor (pass.old.log ++ J.earlier)) pass.old.actor (call_of call) }
        ensures same { (pass.new.actor ≡ pass.old.actor) × (pass.new.keys ≡ pass.old.keys) }
        ensures replied { IfOk result (λ r. AnswersCall J.kind J.earlier (call_of call.entry) r (export_event pass.old.actor (call_of call.entry) r) pass.old.keys pass.old.log pass.new.log) }
        ensures unanswered { OnErr result (IsUnanswered J.kind J.earlier J.journal (call_of call.entry) pass.old.keys pass.old.log pass.new.log) }

        // Each text of the log is one of bytes.
        ensures bytes { AreTextsOfBytes pass.new.log }
        ensures texts { IsTrue (keeps_legal J.kind) → AreTextsOfBytes (pass.new.log ++ J.earlier) }

        ensures fit { IsFit J.kind pass.new.log }
    {
        self.locked_export.lock(rt).call(rt, book, pass, call)
    }

    /// Takes the export's lock, and tells why the journal did not keep a call, if there is a journal and it did
    /// not.
    pub fn refusal<R: Wait>(&self, rt: &R) -> Option<JournalRefusal> {
        self.locked_export.lock(rt).refusal()
    }

    /// Adds an event of the caller's own word. It waits for nobody.
    pub fn finish(&self, book: &Book<J>, pass: &mut Pass<J>, event: &Event)
        requires member { ¬ (pass.old.actor ≡ Actor.Admin) }
        requires word { word_of event.now ≡ w.Own pass.old.actor }
        requires actor { by_of event.now ≡ pass.old.actor }
        requires legal { MayBeNext J.kind J.earlier pass.old.log event.now }
        requires room { count_at (word_key (w.Own pass.old.actor)) pass.old.log + 1 < 2 ^ 64 }
        ensures same { (pass.new.actor ≡ pass.old.actor) × (pass.new.keys ≡ pass.old.keys) }
        ensures commits { Commits pass.old.keys pass.old.log event.now pass.new.log }
        ensures fit { IsFit J.kind pass.new.log }
    {
        rz_chronicle::one_rule();
        let _by = pass.actor();
        book.finish(pass, event);
    }

    /// Takes the lock of a node, arms the fuse of its disk with `passes`, keeps how its next crash picks,
    /// and adds that to the log. It does not return where the node's word cannot move.
    pub fn arm<R: Wait>(
        &self,
        rt: &R,
        book: &Book<J>,
        pass: &mut Pass<J>,
        node: u16,
        passes: u64,
        pick: u64,
    )
        requires node { IsNodeOf (volume_in J.kind) node }
        requires actor { pass.old.actor ≡ Actor.Admin }
        ensures same { (pass.new.actor ≡ pass.old.actor) × (pass.new.keys ≡ pass.old.keys) }
        ensures commits { Commits pass.old.keys pass.old.log (e.Armed node passes pick) pass.new.log }
        ensures fit { IsFit J.kind pass.new.log }
    {
        let locked_node = self.locked_node(node);
        locked_node.lock(rt).arm(rt, book, pass, node, passes, pick);
    }

    /// Takes the lock of a node, loses its disk as the administrator where that is not lost yet, and puts a
    /// new disk in its place, which the node's next replacement makes anew. Otherwise the new disk comes back,
    /// and nothing happened. It does not return where the node's word cannot move.
    pub fn swap<R: Wait>(
        &self,
        rt: &R,
        book: &Book<J>,
        pass: &mut Pass<J>,
        node: u16,
        disk: D,
    ) -> Result<Swap<D>, (D, SwapFault)>
        requires node { IsNodeOf (volume_in J.kind) node }
        requires free { J.fixed ≡ false }
        requires actor { pass.old.actor ≡ Actor.Admin }
        ensures same { (pass.new.actor ≡ pass.old.actor) × (pass.new.keys ≡ pass.old.keys) }
        ensures swapped { IfOk result (λ s. Answered J.kind J.earlier node ask.Lose (answer.Lose s.loss) (lose_event node s.loss) pass.old.keys pass.old.log pass.new.log) }
        ensures unswapped { IfErr result (λ e. (e.0 ≡ disk) × IsUnswapped J.kind J.earlier node e.1 pass.old.keys pass.old.log pass.new.log) }
        ensures fit { IsFit J.kind pass.new.log }
    {
        let geometry = self.geometry(node);
        let locked_node = self.locked_node(node);
        let swapped = locked_node
            .lock(rt)
            .swap(rt, book, pass, geometry, Fused::new(disk));
        match swapped {
            Ok(swap) => Ok(Swap {
                loss: swap.loss,
                disk: unfused(swap.disk),
            }),
            Err((disk, fault)) => Err((disk.into_inner(), fault)),
        }
    }

    // How the disk of a node is laid out.
    fn geometry(&self, node: u16) -> Geometry
        requires { IsNodeOf (volume_in J.kind) node }
        ensures of_node { result ≡ geometry_in (volume_in J.kind) node }
        ensures proper { IsGeometry result }
    {
        let spec = self.nodes[place_of(self.nodes.as_slice(), node)];
        Geometry {
            layout: self.layout,
            bsize: self.layout.bsize(),
            node,
            cells: spec.cells,
        }
    }
}

/// A disk out of its fuse, if there is one.
pub(crate) fn unfused<D: Disk>(disk: Option<Fused<D>>) -> Option<D>
    ensures { result ≡ option_map (λ f. f.disk) disk }
{
    match disk {
        Some(disk) => Some(disk.into_inner()),
        None => None,
    }
}
