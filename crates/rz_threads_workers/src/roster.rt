//! What a script gives each of its actors to do.
ghost use Rattle.std.specs.Prelude.{◌≡◌, IfOk, IfSome, IfNone, OnOk, [], ◌∷◌, ◌++◌};
ghost use Rattle.std.specs.List.{AllByRecursion};
ghost use Rattle.rz_events.specs.Events.{same_actor};
ghost use Rattle.rz_events.specs.Volume.{Volume};
ghost use Rattle.rz_script.specs.Lines.{AreLines, IsOperation};
ghost use Rattle.rz_play_locks.specs.Operations.{given};

use rz_script::{Actor, Line, Operation};
use std::alloc::{AllocError, Global};
use std::collections::VecDeque;

fn is_same(a: Actor, b: Actor) -> bool
    ensures { result ≡ same_actor a b }
{
    a == b
}

/// The operation of an actor in a line, if the line has one.
fn operation_in(by: Actor, line: &Line) -> Option<&Operation>
    ensures some { IfSome result (λ op. given by (line.now ∷ []) ≡ op.now ∷ []) }
    ensures none { IfNone result (given by (line.now ∷ []) ≡ []) }
{
    match line {
        Line::Op { by: actor, op } if is_same(by, *actor) => Some(op),
        _ => None,
    }
}

/// Adds the operation of an actor in a line, if the line has one.
fn add(
    alloc: Global,
    operations: &mut VecDeque<Operation>,
    by: Actor,
    line: &Line,
) -> Result<(), AllocError>
    ensures { OnOk result (operations.new.items ≡ operations.old.items ++ given by (line.now ∷ [])) }
{
    if let Some(op) = operation_in(by, line) {
        operations.reserve(1)?;
        operations.push_back_reserved(op.copy(alloc)?);
    }
    Ok(())
}

/// The operations of an actor, in the order of the script. They keep the limits that the lines keep.
pub fn operations_of(
    alloc: Global,
    by: Actor,
    lines: &[Line],
) -> Result<VecDeque<Operation>, AllocError>
    ensures given { IfOk result (λ ops. ops.items ≡ given by lines.now) }
    ensures limits { IfOk result (λ ops. (v : Volume) → AreLines v lines.now → AllByRecursion (IsOperation v by) ops.items) }
{
    let mut operations = VecDeque::new(alloc);
    for line in lines {
        add(alloc, &mut operations, by, line)?;
    }
    Ok(operations)
}
