//! The end of a cluster: the disks and the tokens go back.
ghost use Rattle.std.specs.Prelude.{◌≡◌, ◌≤◌, ◌++◌, IsTrue, IsSome, is_some, List, Some, length, map, nat_eq};
ghost use Rattle.std.specs.List.{AllZip, IsDistinct, AllByRecursion};
ghost use Rattle.std.specs.Vec.{vec_len, vec_capacity};
ghost use Rattle.rz_events.specs.declared.events.Event.{Event as AnEvent};
ghost use Rattle.rz_events.specs.declared.events.Word.TheVariants as w;
ghost use Rattle.rz_events.specs.Volume.{nodes_of};
ghost use Rattle.rz_metadata.specs.Stands.{export_in, is_journaled, CountsFaults};
ghost use Rattle.rz_chronicle.specs.Keys.{sids_of, word_key};
ghost use Rattle.rz_chronicle.specs.Kinds.{keeps_legal, volume_in};
ghost use Rattle.rz_shared_locked.specs.LockedExports.{AreMetadataFrom, AreTextsFrom, faults_of};
ghost use Rattle.rz_shared_locked.specs.LockedNodes.{LockedNodeView};
ghost use Rattle.rz_shared.specs.Returned.{IsReturned, IsReturnedIf};

use crate::arranging::arrange;
use crate::cluster::{Cluster, unfused};
use crate::{Counting, LockedNode, Metering};
use rz_chronicle::{Desk, WordToken};
use rz_disk::{Disk, Fused};
use rz_metadata::Metadata;
use std::sync::Mutex;

/// What comes out of the locks: the disks of the nodes, in the order of the description, each where it is
/// here; the metadata; and the tokens of all words.
#[derive(Drop)]
pub struct Closed<D: Disk, J: Metering> {
    pub disks: Vec<Option<D>>,
    pub metadata: Metadata<D>,
    pub desk: Desk<J>,
}

/// Takes each locked node out of its lock.
fn unlock_all<D: Disk, J: Metering>(
    locks: Vec<Mutex<LockedNode<Fused<D>, J>>>,
    room: Vec<LockedNode<Fused<D>, J>>,
) -> Vec<LockedNode<Fused<D>, J>>
    requires room { (vec_len room ≡ 0) × (vec_len locks ≤ vec_capacity room) }
    ensures count { vec_len result ≡ vec_len locks }
{
    let mut locks = locks;
    let mut locked_nodes = room;
    while let Some(lock) = locks.pop() {
        locked_nodes.push_reserved(lock.into_inner());
    }
    locked_nodes
}

/// Takes each disk that is here out of its fuse, and each token of a node's word out of its locked node, in
/// their order.
fn empty_all<D: Disk, J: Metering>(
    locked_nodes: Vec<LockedNode<Fused<D>, J>>,
    disks: Vec<Option<D>>,
    word_tokens: Vec<WordToken<J>>,
) -> (Vec<Option<D>>, Vec<WordToken<J>>)
    requires disks { (vec_len disks ≡ 0) × (vec_len locked_nodes ≤ vec_capacity disks) }
    requires word_tokens { (vec_len word_tokens ≡ 0) × (vec_len locked_nodes ≤ vec_capacity word_tokens) }
    ensures count { length result.0.items ≡ vec_len locked_nodes }
    ensures words { map (λ p. p.word) result.1.items ≡ map (λ (s : LockedNodeView). w.Node s.node) locked_nodes.items }
    ensures returned { AllZip (IsReturnedIf D.meter D.image J.fixed J.kind J.earlier J.first) result.0.items result.1.items }
{
    let mut locked_nodes = locked_nodes;
    let mut disks = disks;
    let mut word_tokens = word_tokens;
    locked_nodes.reverse();
    while let Some(locked_node) = locked_nodes.pop() {
        let (disk, word_token) = locked_node.close_after();
        disks.push_reserved(unfused(disk));
        word_tokens.push_reserved(word_token);
    }
    (disks, word_tokens)
}

/// The disks, all of which are here.
fn unwrap_all<D: Disk>(disks: Vec<Option<D>>, home: Vec<D>) -> Vec<D>
    requires here { AllByRecursion IsSome disks.items }
    requires home { (vec_len home ≡ 0) × (vec_len disks ≤ vec_capacity home) }
    ensures { map Some result.items ≡ disks.items }
{
    let mut disks = disks;
    let mut home = home;
    disks.reverse();
    while let Some(disk) = disks.pop() {
        let Some(disk) = disk else { unreachable!() };
        home.push_reserved(disk);
    }
    home
}

impl<D: Disk, J: Metering> Cluster<D, J> {
    // What comes out of the locks, and an empty vector with room for the disks alone, where all are here.
    fn taken_apart(self) -> (Closed<D, J>, Vec<D>)
        ensures count { length result.0.disks.items ≡ length (nodes_of self.clusters) }
        ensures export { result.0.desk.export.word ≡ w.Export }
        ensures metadata { AreMetadataFrom D.tells D.meter D.image (faults_of J.journal) J.kind J.earlier result.0.desk.export.log result.0.metadata }
        ensures volume { (export_in result.0.metadata).volume ≡ volume_in J.kind }
        ensures journal { is_journaled result.0.metadata ≡ is_some J.journal }
        ensures texts { IsTrue (keeps_legal J.kind) → AreTextsFrom J.earlier result.0.desk.export.log }
        ensures counted { CountsFaults D.meter (faults_of J.journal) result.0.metadata }
        ensures returned { AllZip (IsReturnedIf D.meter D.image J.fixed J.kind J.earlier J.first) result.0.disks.items result.0.desk.nodes.items }
        ensures order { IsDistinct nat_eq (map (λ p. word_key p.word) result.0.desk.nodes.items) → map (λ p. p.word) result.0.desk.nodes.items ≡ map w.Node (sids_of self) }
        ensures home { (vec_len result.1 ≡ 0) × (IsTrue J.fixed → vec_len result.0.disks ≤ vec_capacity result.1) }
    {
        let Cluster {
            nodes,
            locked_nodes,
            locked_export,
            room,
            ..
        } = self;
        let (metadata, export) = locked_export.into_inner().close();
        let room = room.into_inner();
        let mut locked_nodes = unlock_all(locked_nodes, room.locked_nodes);
        let _all = arrange(&mut locked_nodes, nodes.as_slice());
        let (disks, nodes) = empty_all(locked_nodes, room.disks, room.word_tokens);
        let closed = Closed {
            disks,
            metadata,
            desk: Desk { export, nodes },
        };
        (closed, room.home)
    }

    /// The disks, each where it is here, as that of a node that is up is, beside the token of its node's word,
    /// and the token of the export's with the metadata, in which the journal is, if there is one. They stand in
    /// the order of the description, since no two tokens are of one word.
    pub fn close_after(self) -> Closed<D, J>
        ensures count { length result.disks.items ≡ length (nodes_of self.clusters) }
        ensures export { result.desk.export.word ≡ w.Export }
        ensures metadata { AreMetadataFrom D.tells D.meter D.image (faults_of J.journal) J.kind J.earlier result.desk.export.log result.metadata }
        ensures volume { (export_in result.metadata).volume ≡ volume_in J.kind }
        ensures journal { is_journaled result.metadata ≡ is_some J.journal }
        ensures texts { IsTrue (keeps_legal J.kind) → AreTextsFrom J.earlier result.desk.export.log }
        ensures counted { CountsFaults D.meter (faults_of J.journal) result.metadata }
        ensures returned { AllZip (IsReturnedIf D.meter D.image J.fixed J.kind J.earlier J.first) result.disks.items result.desk.nodes.items }
        ensures order { IsDistinct nat_eq (map (λ p. word_key p.word) result.desk.nodes.items) → map (λ p. p.word) result.desk.nodes.items ≡ map w.Node (sids_of self) }
    {
        let (closed, home) = self.taken_apart();
        drop(home);
        closed
    }
}

impl<D: Disk, J: Counting> Cluster<D, J> {
    /// The disks, each beside the token of its node's word, and the token of the export's. Both stand in
    /// the order of the description, since no two tokens are of one word. The faults of a word are those
    /// that its disk counted since the cluster was made.
    pub fn close(self) -> (Vec<D>, Desk<J>)
        ensures count { length result.0.items ≡ length (nodes_of self.clusters) }
        ensures export { result.1.export.word ≡ w.Export }
        ensures returned { AllZip (IsReturned D.meter D.image J.kind J.earlier J.first) result.0.items result.1.nodes.items }
        ensures order { IsDistinct nat_eq (map (λ p. word_key p.word) result.1.nodes.items) → map (λ p. p.word) result.1.nodes.items ≡ map w.Node (sids_of self) }
    {
        let (closed, home) = self.taken_apart();
        let Closed {
            disks,
            metadata,
            desk,
        } = closed;
        drop(metadata);
        (unwrap_all(disks, home), desk)
    }
}
