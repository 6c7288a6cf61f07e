//! What a worker has to do.
ghost use Rattle.std.specs.Prelude.{◌≡◌, not, OnOk};
ghost use Rattle.std.specs.List.{AllByRecursion};
ghost use Rattle.rz_operation.specs.Answers.{IsWithinLayout};
ghost use Rattle.rz_play.specs.World.{has_work, is_over};
ghost use Rattle.rz_threads_worker.specs.Workers.{agenda_of, BeginsNext};

use mj_angles::Layout;
use rz_events::Operation;
use rz_operation::Machine;
use rz_player::Halted;
use std::alloc::Global;
use std::collections::VecDeque;
use std::thread::Threads;

/// The operations that it has not begun, the number of the last one that it began, and the one in hand.
#[derive(Drop)]
pub struct Agenda {
    pub todo: VecDeque<Operation>,
    pub number: u32,
    pub machine: Option<Machine>,
}

impl Agenda {
    /// Whether an operation is unfinished.
    pub(crate) fn has_work(&self) -> bool
        ensures { result ≡ has_work (agenda_of self.now) }
    {
        match &self.machine {
            Some(machine) if !machine.is_over() => true,
            _ => !self.todo.is_empty(),
        }
    }

    /// Whether an operation is in hand.
    fn is_at_work(&self) -> bool
        ensures { result ≡ not (is_over (agenda_of self.now).work) }
    {
        match &self.machine {
            Some(machine) => !machine.is_over(),
            None => false,
        }
    }

    /// Takes up the next operation, where none is in hand. A long write makes its bins in many threads.
    pub(crate) fn begin_next<R: Threads + Sync>(
        &mut self,
        rt: &R,
        alloc: Global,
        layout: Layout,
    ) -> Result<(), Halted>
        requires { AllByRecursion (IsWithinLayout layout) self.old.todo.items }
        ensures { OnOk result (BeginsNext layout self.old self.new) }
    {
        if self.is_at_work() {
            return Ok(());
        }
        let Some(op) = self.todo.pop_front() else {
            return Ok(());
        };
        let Some(number) = self.number.checked_add(1) else {
            drop(op);
            return Err(Halted);
        };
        let machine = Machine::start_par(rt, alloc, layout, op)?;
        drop(self.machine.replace(machine));
        self.number = number;
        Ok(())
    }
}
