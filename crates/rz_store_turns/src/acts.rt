//! One operation after another.
ghost use Rattle.std.specs.Prelude.{◌≡◌, true, IfOk, OnOk, OnErr, IsTrue};
ghost use Rattle.rz_events.specs.declared.keys.Actor.TheVariants as a;
ghost use Rattle.rz_operation_model.specs.Ask.{ask_of, Say, Saying as ASaying};
ghost use Rattle.rz_operation_model.specs.Steps.{begun};
ghost use Rattle.rz_core.specs.History.{of_actor};
ghost use Rattle.rz_core.specs.Own.{IsBetween};
ghost use Rattle.rz_block_laws.specs.Acting.{IsActing};
ghost use Rattle.rz_block_laws.specs.ActingLaws.{MayDo};
ghost use Rattle.rz_chronicle.specs.Keys.{IsMember};
ghost use Rattle.rz_chronicle.specs.Kinds.{keeps_legal, volume_in};
ghost use Rattle.rz_contents.specs.Files.{is_word};
ghost use Rattle.rz_store_turns.specs.Sole.{IsInHand, IsSameTurn};
ghost use Rattle.rz_store_turns.specs.Runs.{HasRun, HasTurned};
ghost use Rattle.rz_store_turns.specs.Performed.{HasCome, HasSaid, IsAtWord, IsQuiet};

use crate::sole::{Sole, Stop};
use crate::turns::{take_turn, take_turns};
use rz_disk::Disk;
use rz_events::{Actor, Operation};
use rz_operation::Machine;
use rz_shared::Metering;
use std::sync::Wait;

/// An operation that has come to its last word, or was stopped before.
#[derive(Drop)]
pub struct Performed {
    pub machine: Machine,
    pub stopped: Option<Stop>,
}

impl<D: Disk, J: Metering> Sole<D, J> {
    // Takes up an operation as an actor that has none open.
    pub(crate) fn take_up(&mut self, by: Actor, op: Operation) -> Result<Machine, Stop>
        requires member { IsMember by }
        requires may { MayDo (volume_in J.kind) by op }
        requires idle { IsTrue (keeps_legal J.kind) → IsBetween (of_actor by self.old.pass.log) }
        ensures log { self.new.pass.log ≡ self.old.pass.log }
        ensures free { (self.new.client ≡ self.old.client) × (self.new.rebuilder ≡ self.old.rebuilder) }
        ensures actor { IfOk result (λ m. self.new.pass.actor ≡ by) }
        ensures begun { IfOk result (λ m. m.work ≡ begun op) }
        ensures layout { IfOk result (λ m. m.layout ≡ (volume_in J.kind).layout) }
        ensures right { IfOk result (λ m. IsTrue (keeps_legal J.kind) → IsActing (volume_in J.kind) J.earlier self.new.pass.log by self.new.number m) }
    {
        rz_block_laws::acting::begins();
        rz_chronicle::added_alone();
        let layout = self.shared.layout();
        let Ok(machine) = Machine::start(self.alloc, layout, op) else {
            return Err(Stop::NoMemory);
        };
        self.shared.book.turn_to(&mut self.pass, by);
        let _by = self.pass.actor();
        self.number = self.number.wrapping_add(1);
        Ok(machine)
    }

    // Takes up an operation of a client, as the least one that has none open.
    fn begin(&mut self, op: Operation) -> Result<Machine, Stop>
        requires may { MayDo (volume_in J.kind) (a.Client 1) op }
        ensures log { self.new.pass.log ≡ self.old.pass.log }
        ensures begun { IfOk result (λ m. m.work ≡ begun op) }
        ensures hand { IfOk result (λ m. IsInHand J.kind J.earlier self.new m) }
    {
        if self.client > 64 {
            drop(op);
            return Err(Stop::Spent);
        }
        let by = Actor::Client(self.client);
        let machine = self.take_up(by, op)?;
        self.client += 1;
        Ok(machine)
    }

    // Takes one turn. Where it is stopped nothing is added over a book that keeps its log legal.
    pub(crate) fn turn<R: Wait>(&mut self, rt: &R, machine: &mut Machine) -> Result<(), Stop>
        requires hand { IsInHand J.kind J.earlier self.old machine.old }
        ensures same { IsSameTurn self.old self.new }
        ensures turned { OnOk result (HasTurned J.kind self.old.number self.old.pass self.new.pass machine.old machine.new) }
        ensures stopped { OnErr result (HasRun J.kind self.old.number self.old.pass self.new.pass machine.old machine.new) }
        ensures hand { IsInHand J.kind J.earlier self.new machine.new }
        ensures still { OnErr result (IsTrue (keeps_legal J.kind) → self.new.pass.log ≡ self.old.pass.log) }
    {
        match take_turn(
            rt,
            self.alloc,
            &self.shared,
            &mut self.pass,
            self.number,
            machine,
            &mut self.bins,
        ) {
            Ok(()) => Ok(()),
            Err(_) => Err(self.stop(rt)),
        }
    }

    // Takes turns until the operation is about to say a word.
    pub(crate) fn go_on<R: Wait>(&mut self, rt: &R, machine: &mut Machine) -> Option<Stop>
        requires hand { IsInHand J.kind J.earlier self.old machine.old }
        ensures same { IsSameTurn self.old self.new }
        ensures ran { HasRun J.kind self.old.number self.old.pass self.new.pass machine.old machine.new }
        ensures hand { IsInHand J.kind J.earlier self.new machine.new }
        ensures word { IsAtWord result (ask_of machine.new.layout machine.new.work) }
    {
        match take_turns(
            rt,
            self.alloc,
            &self.shared,
            &mut self.pass,
            self.number,
            machine,
            &mut self.bins,
        ) {
            Ok(()) => None,
            Err(_) => Some(self.stop(rt)),
        }
    }

    /// Takes up an operation of a client, and takes turns until it is about to say a word or is stopped.
    pub fn perform<R: Wait>(&mut self, rt: &R, op: Operation) -> Result<Performed, Stop>
        requires may { MayDo (volume_in J.kind) (a.Client 1) op }
        ensures none { OnErr result (self.new.pass.log ≡ self.old.pass.log) }
        ensures came { IfOk result (λ p. HasCome J.kind J.earlier op self.old self.new p.machine.work) }
        ensures word { IfOk result (λ p. IsAtWord p.stopped (ask_of p.machine.layout p.machine.work)) }
        ensures hand { IfOk result (λ p. IsInHand J.kind J.earlier self.new p.machine) }
    {
        let mut machine = self.begin(op)?;
        let stopped = self.go_on(rt, &mut machine);
        self.stands();
        Ok(Performed { machine, stopped })
    }

    /// Says the last word of an operation, if it can, and lets it go. Users see nothing of it.
    pub fn conclude<R: Wait>(&mut self, rt: &R, machine: Machine) -> Result<(), Stop>
        requires hand { IsInHand J.kind J.earlier self.old machine }
        requires word { is_word (ask_of machine.layout machine.work) ≡ true }
        ensures quiet { IsQuiet J.kind J.earlier self.old self.new }
        ensures said { OnOk result ((saying : ASaying) → ask_of machine.layout machine.work ≡ Say saying → HasSaid J.kind J.earlier self.old self.new machine saying) }
        ensures still { OnErr result (IsTrue (keeps_legal J.kind) → self.new.pass.log ≡ self.old.pass.log) }
    {
        rz_block_laws::acting::says();
        self.stands();
        let mut machine = machine;
        let said = self.turn(rt, &mut machine);
        self.end(machine);
        self.stands();
        said
    }

    /// Lets an operation go. Its actor is free again where it is over.
    pub fn end(&mut self, machine: Machine)
        requires hand { IsInHand J.kind J.earlier self.old machine }
        ensures pass { self.new.pass ≡ self.old.pass }
    {
        if machine.is_over() {
            match self.pass.actor() {
                Actor::Client(client) => self.client = client,
                Actor::Rebuilder(rebuilder) => self.rebuilder = rebuilder,
                Actor::Admin => {}
            }
        }
        drop(machine);
    }
}
