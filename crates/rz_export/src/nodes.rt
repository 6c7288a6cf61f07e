//! What the export keeps of each node: how many of its cells are used, and its last enrolment.

ghost use Rattle.std.specs.Prelude.{◌≡◌, ◌<◌, ◌≤◌, ◌-◌, ◌++◌, ◌==◌, map, length, IfOk, OnOk};
ghost use Rattle.std.specs.List.{list_any};
ghost use Rattle.std.specs.Option.{option_map};
ghost use Rattle.std.specs.FinMap as maps;
ghost use Rattle.rz_events.specs.Volume.{nodes_of};
ghost use Rattle.rz_export_model.specs.Export.{names_node};
ghost use Rattle.rz_events.specs.Masks.{has_bit};
ghost use Rattle.rz_export.specs.Nodes.{enrolled_of, enrolments_of, is_named, moved, recounted, with_enrolment, new_node};

use rz_config::ClusterSpec;
use rz_events::{NodeSpec, Published};
use std::alloc::{AllocError, Global};

/// An enrolment of a node: the loss, and the fence that it got.
#[derive(Clone, Copy, Drop)]
pub struct Enrolment {
    pub loss: u64,
    pub fence: u64,
}

/// A node of the volume, with the number of its cells that published blocks use, and its last
/// enrolment.
#[derive(Clone, Copy, Drop)]
pub struct KeptNode {
    pub spec: NodeSpec,
    pub used: u64,
    pub enrolled: Option<Enrolment>,
}

/// The nodes of these clusters: no cell is used, and no loss is enrolled.
pub fn kept_nodes(alloc: Global, clusters: &[ClusterSpec]) -> Result<Vec<KeptNode>, AllocError>
    ensures { IfOk result (λ v. v.items ≡ map new_node (nodes_of clusters.now)) }
{
    let mut kept = Vec::new(alloc);
    for cluster in clusters {
        add_nodes(&mut kept, nodes_in(cluster))?;
    }
    Ok(kept)
}

/// The nodes of a cluster.
fn nodes_in(cluster: &ClusterSpec) -> &[NodeSpec]
    ensures { result.now ≡ cluster.now.nodes }
{
    cluster.nodes.as_slice()
}

/// Adds these nodes.
fn add_nodes(kept: &mut Vec<KeptNode>, nodes: &[NodeSpec]) -> Result<(), AllocError>
    ensures { OnOk result (kept.new.items ≡ kept.old.items ++ map new_node nodes.now) }
{
    for spec in nodes {
        kept.push(KeptNode {
            spec: *spec,
            used: 0,
            enrolled: None,
        })?;
    }
    Ok(())
}

/// Whether a mask names a position.
#[tactic(auto, using(std::proofs::lemmas::Nat::Bits::shr_and_one))]
pub fn has_bit(mask: u16, position: usize) -> bool
    requires { position < 16 }
    ensures { result ≡ has_bit mask position }
{
    (mask >> position) & 1 == 1
}

/// Whether the mask names the node among these places.
fn names_node(places: &[u16], mask: u16, node: u16) -> bool
    requires { length places.now ≤ 16 }
    ensures { result ≡ names_node node mask 0 places.now }
{
    for (i, place) in places.iter().enumerate() {
        if *place == node && has_bit(mask, i) {
            return true;
        }
    }
    false
}

/// Whether what is published names the node among these places.
pub fn is_named(places: &[u16], published: Option<Published>, node: u16) -> bool
    requires { length places.now ≤ 16 }
    ensures { result ≡ is_named node places.now published }
{
    match published {
        None => false,
        Some(published) => names_node(places, published.mask, node),
    }
}

/// A count that goes one down, one up, or stays.
fn moved(was: bool, is: bool, used: u64) -> u64
    ensures { result ≡ moved was is used }
{
    match (was, is) {
        (true, false) => used.saturating_sub(1),
        (false, true) => used.saturating_add(1),
        _ => used,
    }
}

/// A node, where `after` is published of a block and `before` was so.
fn recounted(
    places: &[u16],
    before: Option<Published>,
    after: Option<Published>,
    kept: KeptNode,
) -> KeptNode
    requires { length places.now ≤ 16 }
    ensures { result ≡ recounted places.now before after kept }
{
    let was = is_named(places, before, kept.spec.sid);
    let is = is_named(places, after, kept.spec.sid);
    KeptNode {
        spec: kept.spec,
        used: moved(was, is, kept.used),
        enrolled: kept.enrolled,
    }
}

/// Counts anew, where `after` is published of a block with these places, and `before` was so.
pub fn recount(
    nodes: &mut [KeptNode],
    places: &[u16],
    before: Option<Published>,
    after: Option<Published>,
)
    requires { length places.now ≤ 16 }
    ensures { nodes.new ≡ map (recounted places.now before after) nodes.old }
{
    for kept in nodes.iter_mut() {
        *kept = recounted(places, before, after, *kept);
    }
}

/// A node, where this enrolment is the last one of `node`.
fn with_enrolment(node: u16, enrolment: Enrolment, kept: KeptNode) -> KeptNode
    ensures { result ≡ with_enrolment node enrolment kept }
{
    if kept.spec.sid != node {
        return kept;
    }
    KeptNode {
        spec: kept.spec,
        used: kept.used,
        enrolled: Some(enrolment),
    }
}

/// Notes the last enrolment of a node.
pub fn enroll(nodes: &mut [KeptNode], node: u16, enrolment: Enrolment)
    ensures { nodes.new ≡ map (with_enrolment node enrolment) nodes.old }
{
    for kept in nodes.iter_mut() {
        *kept = with_enrolment(node, enrolment, *kept);
    }
}

/// The last enrolment of a node.
pub fn last_enrolment(nodes: &[KeptNode], node: u16) -> Option<Enrolment>
    ensures { option_map enrolled_of result ≡ maps.get (enrolments_of nodes.now) node }
{
    for kept in nodes {
        if kept.spec.sid == node && kept.enrolled.is_some() {
            return kept.enrolled;
        }
    }
    None
}

/// Whether a node is among these.
pub fn is_among(nodes: &[KeptNode], node: u16) -> bool
    ensures { result ≡ list_any (λ n. n.spec.sid == node) nodes.now }
{
    nodes.iter().any(|kept| kept.spec.sid == node)
}

/// The free cells of each node.
pub fn free_cells(alloc: Global, nodes: &[KeptNode]) -> Result<Vec<u64>, AllocError>
    ensures { IfOk result (λ v. v.items ≡ map (λ n. n.spec.cells - n.used) nodes.now) }
{
    nodes
        .iter()
        .map(|kept| u64::from(kept.spec.cells).saturating_sub(kept.used))
        .collect(alloc)
}
