//! An actor of a play.
ghost use Rattle.std.specs.Prelude.{◌≡◌, ◌++◌, ◌∷◌, [], not, OnOk, OnErr};
ghost use Rattle.rz_core.specs.History.{Facts};
ghost use Rattle.rz_events.specs.Volume.{Volume};
ghost use Rattle.rz_play.specs.World.{at_work, has_work, is_over};
ghost use Rattle.rz_driver_actors.specs.Hands.{HasTrueHand};
ghost use Rattle.rz_driver_actors.specs.Agendas.{agenda_of, IsAgenda, IsEmptyAgenda, LosesNext};

use mj_angles::Layout;
use rz_events::Operation;
use rz_locks::{LockKind, Range};
use rz_operation::Machine;
use rz_player::Halted;
use std::alloc::{AllocError, Global};
use std::collections::VecDeque;

/// The operations that it has not begun, the number of the last one that it began, the one in hand, the
/// lock that it holds, and how its next message is to be lost.
#[derive(Drop)]
pub struct Agenda {
    pub(crate) todo: VecDeque<Operation>,
    pub(crate) number: u32,
    pub(crate) machine: Option<Machine>,
    pub(crate) lock: Option<(Range, LockKind)>,
    /// None: the link says of each message whether it comes through. Some(true): the next one does, and its
    /// reply is lost.
    pub miss: Option<bool>,
}

impl Agenda {
    /// An actor with nothing to do.
    pub fn new(alloc: Global) -> Agenda
        ensures { IsEmptyAgenda result }
    {
        Agenda {
            todo: VecDeque::new(alloc),
            number: 0,
            machine: None,
            lock: None,
            miss: None,
        }
    }

    /// Puts an operation at the end of what it has to do.
    pub fn add(&mut self, op: Operation) -> Result<(), AllocError>
        ensures todo { OnOk result (self.new.todo.items ≡ self.old.todo.items ++ op ∷ []) }
        ensures err { OnErr result (self.new.todo.items ≡ self.old.todo.items) }
        ensures number { self.new.number ≡ self.old.number }
        ensures machine { self.new.machine ≡ self.old.machine }
        ensures lock { self.new.lock ≡ self.old.lock }
        ensures miss { self.new.miss ≡ self.old.miss }
    {
        self.todo.push_back(op)?;
        Ok(())
    }

    /// Whether an operation is unfinished.
    pub fn has_work(&self) -> bool
        ensures { result ≡ has_work (agenda_of self.now) }
    {
        match &self.machine {
            Some(machine) if !machine.is_over() => true,
            _ => !self.todo.is_empty(),
        }
    }

    /// Takes up the next operation, where none is in hand. Where memory is wanting for it, it is gone.
    pub fn begin_next(&mut self, alloc: Global, layout: Layout) -> Result<(), Halted>
        requires { IsAgenda layout self.old }
        ensures ok { OnOk result (agenda_of self.new ≡ at_work (agenda_of self.old)) }
        ensures err { OnErr result (LosesNext self.old self.new) }
        ensures agenda { OnOk result (IsAgenda layout self.new) }
        ensures lock { self.new.lock ≡ self.old.lock }
        ensures miss { self.new.miss ≡ self.old.miss }

        // The machine is another one only where an operation begins.
        ensures stays { self.new.number ≡ self.old.number → self.new.machine ≡ self.old.machine }

        ensures hand { OnOk result ((v : Volume) (f : Facts) → HasTrueHand v f self.old.machine → HasTrueHand v f self.new.machine) }
    {
        rz_block_laws::beginning();
        if self.is_at_work() {
            return Ok(());
        }
        let Some(op) = self.todo.pop_front() else {
            return Ok(());
        };
        let Some(number) = self.number.checked_add(1) else {
            drop(op);
            return Err(Halted);
        };
        let machine = Machine::start(alloc, layout, op)?;
        drop(self.machine.replace(machine));
        self.number = number;
        Ok(())
    }

    /// Whether an operation is in hand.
    fn is_at_work(&self) -> bool
        ensures { result ≡ not (is_over (agenda_of self.now).work) }
    {
        match &self.machine {
            Some(machine) => !machine.is_over(),
            None => false,
        }
    }
}
