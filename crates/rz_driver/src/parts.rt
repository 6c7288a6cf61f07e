//! What a new driver has beside its nodes and their disks.
ghost use Rattle.std.specs.Prelude.{◌≡◌, ◌+◌, ◌≤◌, ℕ, [], false, IfOk, length};
ghost use Rattle.std.specs.List.{AllByRecursion};
ghost use Rattle.std.specs.Vec.{vec_len, vec_capacity};
ghost use Rattle.mj_angles.specs.Layout.{max_bins_of};
ghost use Rattle.rz_events.specs.Volume.{IsNode, IsVolume, nodes_of};
ghost use Rattle.rz_export_model.specs.Export.{new_export};
ghost use Rattle.rz_metadata.specs.Stands.{IsJournalOpen, Stands, export_in, is_journaled};
ghost use Rattle.rz_driver_actors.specs.Agendas.{IsEmptyAgenda};

use rz_config::Volume;
use rz_disk::Disk;
use rz_driver_actors::Agenda;
use rz_events::NodeSpec;
use rz_metadata::Metadata;
use rz_nodes::all_nodes;
use std::alloc::{AllocError, Global};

/// 64 clients and 16 rebuilders.
const SEATS: usize = 80;

/// The volume and its nodes in order, the actors, room for the bins of a record, and room for a disk of
/// each node and one more.
#[derive(Drop)]
pub(crate) struct DriverParts<D: Disk> {
    pub(crate) volume: Volume,
    pub(crate) nodes: Vec<NodeSpec>,
    pub(crate) agendas: Vec<Agenda>,
    pub(crate) bins: Vec<u64>,
    pub(crate) home: Vec<D>,
}

/// The parts of a driver that has played nothing.
pub(crate) fn new_parts<D: Disk>(
    alloc: Global,
    volume: &Volume,
) -> Result<DriverParts<D>, AllocError>
    ensures volume { IfOk result (λ p. p.volume ≡ volume.now) }
    ensures rules { IsVolume volume.now }
    ensures proper { AllByRecursion IsNode (nodes_of volume.now.clusters) }
    ensures nodes { IfOk result (λ p. p.nodes.items ≡ nodes_of volume.now.clusters) }
    ensures agendas { IfOk result (λ p. AllByRecursion IsEmptyAgenda p.agendas.items) }
    ensures count { IfOk result (λ p. length p.agendas.items ≡ 80) }
    ensures bins { IfOk result (λ p. length p.bins.items ≡ max_bins_of volume.now.layout) }
    ensures empty { IfOk result (λ p. vec_len p.home ≡ 0) }
    ensures room { IfOk result (λ p. length (nodes_of volume.now.clusters) + 1 ≤ vec_capacity p.home) }
{
    let nodes = all_nodes(alloc, volume)?;
    let layout = volume.layout;
    let bins = Vec::from_elem(alloc, 0, layout.max_bins())?;
    let home = Vec::with_capacity(alloc, nodes.len() + 1)?;
    let volume = volume.copy(alloc)?;
    let Ok(agendas) = empty_agendas(alloc) else {
        drop(volume);
        return Err(AllocError);
    };
    Ok(DriverParts {
        volume,
        nodes,
        agendas,
        bins,
        home,
    })
}

/// The export of a driver that has played nothing, in memory.
pub(crate) fn new_export<D: Disk>(alloc: Global, volume: &Volume) -> Result<Metadata<D>, AllocError>
    ensures export { IfOk result (λ m. export_in m ≡ new_export volume.now 0) }
    ensures journal { IfOk result (λ m. is_journaled m ≡ false) }
    ensures open { IfOk result (λ m. IsJournalOpen m) }
    ensures stands { IfOk result (λ m. (first : ℕ) → Stands D.tells D.meter D.image first m []) }
{
    let volume = volume.copy(alloc)?;
    Metadata::in_memory(alloc, volume)
}

/// The actors of a play, with nothing to do.
fn empty_agendas(alloc: Global) -> Result<Vec<Agenda>, AllocError>
    ensures all { IfOk result (λ v. AllByRecursion IsEmptyAgenda v.items) }
    ensures count { IfOk result (λ v. length v.items ≡ 80) }
{
    let mut agendas = Vec::with_capacity(alloc, SEATS)?;
    for _ in 0..SEATS {
        agendas.push_reserved(Agenda::new(alloc));
    }
    Ok(agendas)
}
