//! What the script orders of an actor.
ghost use Rattle.std.specs.Prelude.{◌≡◌, OnOk, length};
ghost use Rattle.rz_play.specs.Lines.{with_miss, with_operation};
ghost use Rattle.rz_driver.specs.Orders.{IsActorOrdered};

use crate::Halted;
use crate::turns::place;
use rz_driver_actors::Agenda;
use rz_events::{Actor, Operation};
use std::alloc::Global;

/// The operation goes to the end of the actor's list.
pub(crate) fn add_operation(
    alloc: Global,
    agendas: &mut [Agenda],
    by: Actor,
    op: &Operation,
) -> Result<(), Halted>
    requires each { length agendas.old ≡ 80 }
    ensures { OnOk result (IsActorOrdered by (λ s. with_operation s op.now) agendas.old agendas.new) }
{
    let Some(place) = place(by) else {
        return Err(Halted);
    };
    let op = op.copy(alloc)?;
    agendas[place].add(op)?;
    Ok(())
}

/// The actor's next message is to be lost.
pub(crate) fn plan_miss(agendas: &mut [Agenda], by: Actor, reply: bool) -> Result<(), Halted>
    requires each { length agendas.old ≡ 80 }
    ensures { OnOk result (IsActorOrdered by (λ s. with_miss s reply) agendas.old agendas.new) }
{
    let Some(place) = place(by) else {
        return Err(Halted);
    };
    agendas[place].miss = Some(reply);
    Ok(())
}
