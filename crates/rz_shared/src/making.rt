//! A new cluster: each disk is formatted for its node.
ghost use Rattle.std.specs.Prelude.{◌≡◌, ◌≤◌, ℕ, false, [], IfOk, IfErr, IsTrue, length, map};
ghost use Rattle.std.specs.Vec.{vec_len, vec_capacity};
ghost use Rattle.rz_disk.specs.Meter.{faults};
ghost use Rattle.rz_events.specs.declared.events.Word.TheVariants as w;
ghost use Rattle.std.specs.List.{AllByRecursion};
ghost use Rattle.rz_events.specs.Volume.{IsVolume, IsNode, nodes_of};
ghost use Rattle.rz_export_model.specs.Export.{new_export};
ghost use Rattle.rz_metadata.specs.Stands.{export_in, is_journaled, CountsFaults, IsJournalOpen, Stands};
ghost use Rattle.rz_chronicle.specs.Dealing.{new_word_token};
ghost use Rattle.rz_chronicle.specs.Keys.{sids_of};
ghost use Rattle.rz_chronicle.specs.Kinds.{is_honest, volume_in};
ghost use Rattle.rz_nodes.specs.Formatted.{AreBack, IsCause};

use crate::cluster::Cluster;
use crate::room::ClosingRoom;
use crate::seating::locked_node_all;
use crate::{Counting, LockedExport, LockedNode, Metering};
use mj_angles::Layout;
use rz_chronicle::{Book, Desk};
use rz_config::Volume;
use rz_disk::{Disk, Fused};
use rz_events::NodeSpec;
use rz_metadata::Metadata;
use rz_nodes::{DriverFault, all_nodes, format_all};
use std::alloc::{AllocError, Global};
use std::sync::Mutex;

/// The layout of a volume, its nodes in order, metadata of it in memory, and room for the locks and for what
/// they hold.
#[derive(Drop)]
struct ClusterParts<D: Disk, J: Metering> {
    layout: Layout,
    nodes: Vec<NodeSpec>,
    metadata: Metadata<D>,
    locked_nodes: Vec<Mutex<LockedNode<Fused<D>, J>>>,
    unlocked: Vec<LockedNode<Fused<D>, J>>,
    disks: Vec<Option<D>>,
}

/// What a new cluster has beside its disks.
fn new_parts<D: Disk, J: Metering>(
    alloc: Global,
    volume: Volume,
) -> Result<ClusterParts<D, J>, AllocError>
    ensures layout { IfOk result (λ p. p.layout ≡ volume.layout) }
    ensures nodes { IfOk result (λ p. p.nodes.items ≡ nodes_of volume.clusters) }
    ensures export { IfOk result (λ p. export_in p.metadata ≡ new_export volume 0) }
    ensures stands { IfOk result (λ p. (first : ℕ) → Stands D.tells D.meter D.image first p.metadata []) }
    ensures counted { IfOk result (λ p. (first : ℕ) → CountsFaults D.meter first p.metadata) }
    ensures journal { IfOk result (λ p. is_journaled p.metadata ≡ false) }
    ensures open { IfOk result (λ p. IsJournalOpen p.metadata) }
    ensures room { IfOk result (λ p. (vec_len p.locked_nodes ≡ 0) × (vec_len p.nodes ≤ vec_capacity p.locked_nodes)) }
    ensures unlocked { IfOk result (λ p. (vec_len p.unlocked ≡ 0) × (vec_len p.nodes ≤ vec_capacity p.unlocked)) }
    ensures disks { IfOk result (λ p. (vec_len p.disks ≡ 0) × (vec_len p.nodes ≤ vec_capacity p.disks)) }
    ensures rules { IsVolume volume }
    ensures proper { AllByRecursion IsNode (nodes_of volume.clusters) }
{
    let layout = volume.layout;
    let Ok(nodes) = all_nodes(alloc, &volume) else {
        drop(volume);
        return Err(AllocError);
    };
    let Ok(metadata) = Metadata::in_memory(alloc, volume) else {
        drop(nodes);
        return Err(AllocError);
    };
    let Ok((locked_nodes, unlocked)) = empty_rows(alloc, nodes.len()) else {
        drop(nodes);
        drop(metadata);
        return Err(AllocError);
    };
    let Ok(disks) = Vec::with_capacity(alloc, nodes.len()) else {
        drop(nodes);
        drop(metadata);
        drop(locked_nodes);
        drop(unlocked);
        return Err(AllocError);
    };
    Ok(ClusterParts {
        layout,
        nodes,
        metadata,
        locked_nodes,
        unlocked,
        disks,
    })
}

/// Empty rows with room for so many locks, and for what they hold.
pub(crate) fn empty_rows<D: Disk, J: Metering>(
    alloc: Global,
    count: usize,
) -> Result<
    (
        Vec<Mutex<LockedNode<Fused<D>, J>>>,
        Vec<LockedNode<Fused<D>, J>>,
    ),
    AllocError,
>
    ensures room { IfOk result (λ r. (vec_len r.0 ≡ 0) × (count ≤ vec_capacity r.0)) }
    ensures unlocked { IfOk result (λ r. (vec_len r.1 ≡ 0) × (count ≤ vec_capacity r.1)) }
{
    let locked_nodes = Vec::with_capacity(alloc, count)?;
    let Ok(unlocked) = Vec::with_capacity(alloc, count) else {
        drop(locked_nodes);
        return Err(AllocError);
    };
    Ok((locked_nodes, unlocked))
}

impl<D: Disk, J: Counting> Cluster<D, J> {
    /// Formats each disk of the book's volume for its node. Where one fails, or memory is wanting, all of
    /// them come back in their order. Over an honest book the disks tell what they hold. The book's name says
    /// how many faults each disk has counted.
    pub fn new(
        alloc: Global,
        volume: Volume,
        disks: Vec<D>,
        book: &Book<J>,
        desk: Desk<J>,
    ) -> Result<Cluster<D, J>, (Vec<D>, DriverFault)>
        requires volume { volume ≡ volume_in J.kind }
        requires count { length disks.items ≡ length (nodes_of volume.clusters) }
        requires export { desk.export ≡ new_word_token w.Export }
        requires nodes { desk.nodes.items ≡ map (λ n. new_word_token (w.Node n)) (sids_of volume) }
        requires tells { IsTrue (is_honest J.kind) → IsTrue D.tells }
        requires counts { map J.first (sids_of volume) ≡ map (λ d. faults (D.meter d)) disks.items }
        ensures volume { IfOk result (λ c. c ≡ volume_in J.kind) }
        ensures back { IfErr result (λ r. AreBack D.tells D.meter D.image volume.layout (nodes_of volume.clusters) disks.items r.0.items) }
        ensures cause { IfErr result (λ r. IsCause D.meter disks.items r.0.items r.1) }
    {
        rz_log_laws::beginning();
        rz_node_laws::fresh::<Fused<D>>();
        let _ = book;
        let _fit = desk.export.room();
        let Ok(parts) = new_parts::<D, J>(alloc, volume) else {
            drop(desk);
            return Err((disks, DriverFault::NoMemory));
        };
        match format_all(alloc, parts.layout, parts.nodes.as_slice(), disks) {
            Ok((servers, home)) => {
                let Desk { export, nodes } = desk;
                let (locked_nodes, word_tokens) = locked_node_all(
                    alloc,
                    servers,
                    nodes,
                    parts.locked_nodes,
                );
                let room = ClosingRoom::of(parts.unlocked, parts.disks, home, word_tokens);
                Ok(Cluster {
                    layout: parts.layout,
                    nodes: parts.nodes,
                    locked_nodes,
                    locked_export: Mutex::new(LockedExport::opened(parts.metadata, export)),
                    room: Mutex::new(room),
                })
            }
            Err(back) => {
                drop(parts);
                drop(desk);
                Err(back)
            }
        }
    }
}
