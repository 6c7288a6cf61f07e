//! What workers bring with them before they have a link.
ghost use Rattle.std.specs.Prelude.{◌≡◌, IfOk};
ghost use Rattle.std.specs.List.{AllByRecursion, AllZip};
ghost use Rattle.rz_chronicle.specs.Kinds.{volume_in};
ghost use Rattle.rz_script.specs.Lines.{AreLines};
ghost use Rattle.rz_threads_workers.specs.WorkerPool.{IsNewPass, AreWorkerParts};

use crate::operations_of;
use mj_angles::Layout;
use rz_chronicle::Pass;
use rz_script::{Line, Operation};
use rz_shared::Counting;
use std::alloc::{AllocError, Global};
use std::collections::VecDeque;

/// The pass of an actor, what it has to do, and room for the bins of a record.
#[derive(Drop)]
pub(crate) struct WorkerParts<J: Counting> {
    pub(crate) pass: Pass<J>,
    pub(crate) todo: VecDeque<Operation>,
    pub(crate) bins: Vec<u64>,
}

/// Gives an actor that has done nothing what the lines give it to do.
fn parts_of<J: Counting>(
    alloc: Global,
    layout: Layout,
    pass: Pass<J>,
    lines: &[Line],
) -> Result<WorkerParts<J>, AllocError>
    requires layout { layout ≡ (volume_in J.kind).layout }
    requires lines { AreLines (volume_in J.kind) lines.now }
    requires new { IsNewPass pass }
    ensures { IfOk result (λ r. AreWorkerParts J.kind lines.now pass r) }
{
    let todo = operations_of(alloc, pass.actor(), lines)?;
    let bins = Vec::from_elem(alloc, 0, layout.max_bins())?;
    Ok(WorkerParts { pass, todo, bins })
}

/// Gives each of these actors what the lines give it to do.
pub(crate) fn make_parts<J: Counting>(
    alloc: Global,
    layout: Layout,
    passes: Vec<Pass<J>>,
    lines: &[Line],
) -> Result<Vec<WorkerParts<J>>, AllocError>
    requires layout { layout ≡ (volume_in J.kind).layout }
    requires lines { AreLines (volume_in J.kind) lines.now }
    requires new { AllByRecursion IsNewPass passes.items }
    ensures { IfOk result (λ rs. AllZip (AreWorkerParts J.kind lines.now) passes.items rs.items) }
{
    let mut all_parts = Vec::with_capacity(alloc, passes.len())?;
    for pass in passes {
        let newest = parts_of(alloc, layout, pass, lines)?;
        all_parts.push(newest)?;
    }
    Ok(all_parts)
}
