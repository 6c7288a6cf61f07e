//! What the metadata know of the nodes of a volume.
ghost use Rattle.std.specs.Prelude.{◌≡◌, ℕ, map, length, IfOk, OnOk};
ghost use Rattle.std.specs.List.{AllByRecursion};
ghost use Rattle.rz_events.specs.Volume.{IsVolume, nodes_of};
ghost use Rattle.rz_events.specs.declared.files.NodeSpec.{NodeSpec as ANode};
ghost use Rattle.rz_metadata.specs.Stands.{export_in};
ghost use Rattle.rz_nodes.specs.Arrived.{IsKnown};
ghost use Rattle.rz_store_opening.specs.Opening.{known_of};

use rz_config::Volume;
use rz_disk::Disk;
use rz_events::NodeSpec;
use rz_metadata::Metadata;
use rz_nodes::{KnownNode, all_nodes};
use std::alloc::{AllocError, Global};

/// The nodes of a volume, in the order of the description, each with what the metadata know of it.
pub(crate) fn known_nodes<D: Disk>(
    alloc: Global,
    volume: &Volume,
    metadata: &Metadata<D>,
) -> Result<Vec<KnownNode>, AllocError>
    ensures known { IfOk result (λ v. v.items ≡ known_of (export_in metadata.now) (nodes_of volume.now.clusters)) }
    ensures rules { OnOk result (IsVolume volume.now) }
    ensures proper { IfOk result (λ v. AllByRecursion IsKnown v.items) }
{
    let nodes = all_nodes(alloc, volume)?;
    let losses = metadata.losses(alloc, nodes.as_slice())?;
    let fences = metadata.fences(alloc, nodes.as_slice())?;
    let known = joined(
        alloc,
        nodes.as_slice(),
        losses.as_slice(),
        fences.as_slice(),
    )?;
    Ok(known)
}

/// Each node with what stands at its place.
fn joined(
    alloc: Global,
    nodes: &[NodeSpec],
    losses: &[u64],
    fences: &[u64],
) -> Result<Vec<KnownNode>, AllocError>
    requires losses { length losses.now ≡ length nodes.now }
    requires fences { length fences.now ≡ length nodes.now }
    ensures { (f g : ANode → ℕ) → losses.now ≡ map f nodes.now → fences.now ≡ map g nodes.now → IfOk result (λ v. v.items ≡ map (λ n. record { node = n; losses = f n; fence = g n }) nodes.now) }
{
    let mut known = Vec::with_capacity(alloc, nodes.len())?;
    for (index, node) in nodes.iter().enumerate() {
        known.push(KnownNode {
            node: *node,
            losses: losses[index],
            fence: fences[index],
        })?;
    }
    Ok(known)
}
