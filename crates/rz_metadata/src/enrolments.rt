//! The losses of nodes that an export enrolled last, each with its fence, read off its parts.
ghost use Rattle.std.specs.Prelude.{◌≡◌, ◌++◌, ◌∷◌, [], map, IfOk, OnOk};
ghost use Rattle.rz_events.specs.declared.files.NodeSpec.{NodeSpec as ANode};
ghost use Rattle.rz_export_model.specs.Export.{fence_of};
ghost use Rattle.rz_metadata.specs.Enrolled.{among, loss_among, fence_among, loss_of, said_in, enrolments};

use rz_events::NodeSpec;
use rz_export::Export;
use rz_tree::Part;
use std::alloc::{AllocError, Global};

/// The last enrolment of a node: the greatest loss, and the fence that was drawn for it.
#[derive(Clone, Copy, PartialEq, Eq, Drop)]
pub(crate) struct NodeEnrolment {
    node: u16,
    loss: u64,
    fence: u64,
}

/// The loss that was enrolled last of each of these nodes, or 0.
pub(crate) fn losses_of(
    alloc: Global,
    export: &Export,
    nodes: &[NodeSpec],
) -> Result<Vec<u64>, AllocError>
    ensures { IfOk result (λ v. v.items ≡ map (λ (n : ANode). loss_of export.now n.sid) nodes.now) }
{
    let enrolled = enrolled(alloc, export)?;
    let losses = losses_among(alloc, enrolled.as_slice(), nodes)?;
    Ok(losses)
}

/// The fence of the last enrolment of each of these nodes, or 0.
pub(crate) fn fences_of(
    alloc: Global,
    export: &Export,
    nodes: &[NodeSpec],
) -> Result<Vec<u64>, AllocError>
    ensures { IfOk result (λ v. v.items ≡ map (λ (n : ANode). fence_of export.now n.sid) nodes.now) }
{
    let enrolled = enrolled(alloc, export)?;
    let fences = fences_among(alloc, enrolled.as_slice(), nodes)?;
    Ok(fences)
}

/// The last enrolment of each node of which a loss was enrolled, in the order of their numbers. Each part
/// is found from the one before it.
fn enrolled(alloc: Global, export: &Export) -> Result<Vec<NodeEnrolment>, AllocError>
    ensures { IfOk result (λ v. v.items ≡ enrolments export.now) }
{
    let mut said = Vec::new(alloc);
    let mut next = export.part_after(None)?;
    for _ in 0..usize::MAX {
        let Some(part) = next else {
            return Ok(said);
        };
        next = export.part_after(Some(&part))?;
        note_part(part, &mut said)?;
    }
    // Memory holds no export of so many parts.
    Err(AllocError)
}

/// Adds what a part says of an enrolment. The part goes then.
fn note_part(part: Part, said: &mut Vec<NodeEnrolment>) -> Result<(), AllocError>
    ensures { OnOk result (said.new.items ≡ said.old.items ++ said_in (part ∷ [])) }
{
    let noted = note(&part, said);
    drop(part);
    noted
}

/// Adds the enrolment, where a part is one.
fn note(part: &Part, said: &mut Vec<NodeEnrolment>) -> Result<(), AllocError>
    ensures { OnOk result (said.new.items ≡ said.old.items ++ said_in (part.now ∷ [])) }
{
    if let Part::Enrolled { node, loss, fence } = part {
        said.push(NodeEnrolment {
            node: *node,
            loss: *loss,
            fence: *fence,
        })?;
    }
    Ok(())
}

/// The loss of each of these nodes, or 0 where none is given.
fn losses_among(
    alloc: Global,
    enrolled: &[NodeEnrolment],
    nodes: &[NodeSpec],
) -> Result<Vec<u64>, AllocError>
    ensures { IfOk result (λ v. v.items ≡ map (λ (n : ANode). loss_among n.sid enrolled.now) nodes.now) }
{
    let mut losses = Vec::with_capacity(alloc, nodes.len())?;
    for node in nodes {
        let loss = match among(enrolled, node.sid) {
            Some(enrolment) => enrolment.loss,
            None => 0,
        };
        losses.push(loss)?;
    }
    Ok(losses)
}

/// The fence of each of these nodes, or 0 where none is given.
fn fences_among(
    alloc: Global,
    enrolled: &[NodeEnrolment],
    nodes: &[NodeSpec],
) -> Result<Vec<u64>, AllocError>
    ensures { IfOk result (λ v. v.items ≡ map (λ (n : ANode). fence_among n.sid enrolled.now) nodes.now) }
{
    let mut fences = Vec::with_capacity(alloc, nodes.len())?;
    for node in nodes {
        let fence = match among(enrolled, node.sid) {
            Some(enrolment) => enrolment.fence,
            None => 0,
        };
        fences.push(fence)?;
    }
    Ok(fences)
}

/// The first of these that is of a node.
fn among(enrolled: &[NodeEnrolment], node: u16) -> Option<NodeEnrolment>
    ensures { result ≡ among node enrolled.now }
{
    for enrolment in enrolled {
        if enrolment.node == node {
            return Some(*enrolment);
        }
    }
    None
}
