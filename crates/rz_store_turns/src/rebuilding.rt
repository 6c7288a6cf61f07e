//! The rebuild of a node on a new disk.
ghost use Rattle.std.specs.Prelude.{◌≡◌, IfOk, IfSome};
ghost use Rattle.rz_events.specs.declared.operations.Operation.TheVariants as operation;
ghost use Rattle.rz_operation_model.specs.Ask.{ask_of};
ghost use Rattle.rz_operation_model.specs.Steps.{begun};
ghost use Rattle.rz_core.specs.NodeRows.{IsNodeOf};
ghost use Rattle.rz_chronicle.specs.Kinds.{volume_in};
ghost use Rattle.rz_store_turns.specs.Sole.{IsInHand, IsSameTurn};
ghost use Rattle.rz_store_turns.specs.Performed.{IsQuiet};
ghost use Rattle.rz_store_turns.specs.Rebuilt.{rebuild_end, HasGone, HasEnded, HasRebuilt};

use crate::sole::{Sole, Stop};
use rz_disk::Disk;
use rz_events::{Actor, Answer, Operation, RebuildEnd};
use rz_operation::{Ask, Machine, Saying};
use rz_shared::Metering;
use std::sync::Wait;

/// How a rebuild ends that is about to say so.
fn rebuild_end(machine: &Machine) -> Option<RebuildEnd>
    ensures { result ≡ rebuild_end (ask_of machine.now.layout machine.now.work) }
{
    match machine.next() {
        Ask::Say(Saying::Done(answer)) => match answer {
            Answer::Rebuild(end) => Some(*end),
            _ => None,
        },
        _ => None,
    }
}

impl<D: Disk, J: Metering> Sole<D, J> {
    // Takes up the rebuild of a node, as the least rebuilder that has none open.
    fn begin_rebuild(&mut self, node: u16) -> Result<Machine, Stop>
        requires node { IsNodeOf (volume_in J.kind) node }
        ensures log { self.new.pass.log ≡ self.old.pass.log }
        ensures begun { IfOk result (λ m. m.work ≡ begun (operation.Rebuild node)) }
        ensures hand { IfOk result (λ m. IsInHand J.kind J.earlier self.new m) }
    {
        if self.rebuilder > 16 {
            return Err(Stop::Spent);
        }
        let by = Actor::Rebuilder(self.rebuilder);
        let machine = self.take_up(by, Operation::Rebuild { node })?;
        self.rebuilder += 1;
        Ok(machine)
    }

    // Takes turns until the rebuild has said a word, and tells how it ended if that was its last one.
    fn say_next<R: Wait>(
        &mut self,
        rt: &R,
        machine: &mut Machine,
    ) -> Result<Option<RebuildEnd>, Stop>
        requires hand { IsInHand J.kind J.earlier self.old machine.old }
        ensures same { IsSameTurn self.old self.new }
        ensures hand { IsInHand J.kind J.earlier self.new machine.new }
        ensures gone { HasGone J.kind self.old.number self.old.pass self.new.pass machine.old machine.new }
        ensures ended { IfOk result (λ said. IfSome said (λ end. HasEnded J.kind self.old.number self.old.pass self.new.pass machine.old end)) }
    {
        if let Some(stop) = self.go_on(rt, machine) {
            return Err(stop);
        }
        let end = rebuild_end(machine);
        self.turn(rt, machine)?;
        Ok(end)
    }

    // Takes turns until the rebuild has said its last word, and tells how it ended.
    fn mend<R: Wait>(&mut self, rt: &R, machine: &mut Machine) -> Result<RebuildEnd, Stop>
        requires hand { IsInHand J.kind J.earlier self.old machine.old }
        ensures same { IsSameTurn self.old self.new }
        ensures hand { IsInHand J.kind J.earlier self.new machine.new }
        ensures gone { HasGone J.kind self.old.number self.old.pass self.new.pass machine.old machine.new }
        ensures ended { IfOk result (λ end. HasEnded J.kind self.old.number self.old.pass self.new.pass machine.old end) }
    {
        for _ in rt.forever() {
            if let Some(end) = self.say_next(rt, machine)? {
                return Ok(end);
            }
        }
        unreachable!()
    }

    /// Rebuilds a node whose disk is lost on the new one that stands in its place, and tells how that ended: its
    /// loss is enrolled, the disk made anew, and each block that the node has to hold is read from the others and
    /// refilled. Users see nothing of it, however far it came.
    pub fn rebuild<R: Wait>(&mut self, rt: &R, node: u16) -> Result<RebuildEnd, Stop>
        requires node { IsNodeOf (volume_in J.kind) node }
        ensures quiet { IsQuiet J.kind J.earlier self.old self.new }
        ensures rebuilt { IfOk result (λ end. HasRebuilt J.kind J.earlier node self.old self.new end) }
    {
        rz_contents::rebuild_still();
        rz_contents::rebuild_whole();
        self.stands();
        let mut machine = self.begin_rebuild(node)?;
        let ended = self.mend(rt, &mut machine);
        self.end(machine);
        self.stands();
        ended
    }
}
