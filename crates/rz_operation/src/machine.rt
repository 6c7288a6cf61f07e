//! An operation in hand.

ghost use Rattle.std.specs.Prelude.{◌≡◌, ◌↔◌, Bool, IfOk, IsTrue, length, []};
ghost use Rattle.rz_events.specs.declared.keys.Key.{Key as AKey};
ghost use Rattle.rz_operation_model.specs.Ask.{ask_of, Say, SayDone, SayGot};
ghost use Rattle.rz_operation_model.specs.Steps.{begun, read_end, Replied, Locked, Missed, Noted};
ghost use Rattle.rz_operation_states.specs.Meaning.{meaning_of};
ghost use Rattle.rz_operation_states.specs.Machine.{is_over, HasBins, AreBins, HasText, text_of};
ghost use Rattle.rz_operation_states.specs.Records.{HasHead, IsCount};
ghost use Rattle.rz_operation_states.specs.Answers.{IsWithinLayout, IsReply, IsLockReply, IsAnswer, ComeWith, MayMiss, IsPartSaid, IsDone, IsWorkAfter, FitsIfEnough};

use crate::begins::{begun, begun_par};
use crate::replies::{after_answer, after_lock, after_miss, after_reply, after_said, answer_in};
use crate::takes::{is_answer, is_lock_reply, is_reply};
use mj_angles::Layout;
use rz_events::{Answer, CallRef, NodeAnswer, Operation, ReadEnd, ReadMark, Reply, Text};
use rz_operation_states::blocks::{read_ask, write_ask};
use rz_operation_states::drops::drop_ask;
use rz_operation_states::locks::lock_ask;
use rz_operation_states::ranges::range_ask;
use rz_operation_states::rebuilds::rebuilder_ask;
use rz_operation_states::{Ask, OperationState, Saying};
use std::alloc::{AllocError, Global};
use std::marker::Model;
use std::mem::replace;
use std::thread::Threads;

/// An operation in hand.
///
/// Contracts see the layout and the work; the angles and bins of the records of the block that is read,
/// while they are fetched; and the block that fits them, once it is found.
#[derive(Drop)]
pub struct Machine {
    layout: Layout,
    stage: OperationState,
}

impl Model for Machine {
    ghost use Rattle.rz_operation_states.specs.Machine.{Machine as TheMachine};

    ghost Value = { TheMachine };

    ghost use Rattle.rz_operation_states.specs.Inside.{machine_of, IsOperationState};

    ghost view = { λ m. machine_of m.layout m.stage };

    ghost invariant = { λ m. IsOperationState m.layout m.stage };
}

impl Machine {
    /// The operation, with all the memory that it needs.
    pub fn start(alloc: Global, layout: Layout, op: Operation) -> Result<Machine, AllocError>
        requires { IsWithinLayout layout op }
        ensures layout { IfOk result (λ m. m.layout ≡ layout) }
        ensures work { IfOk result (λ m. m.work ≡ begun op) }
    {
        let stage = begun(alloc, layout, op)?;
        Ok(Machine { layout, stage })
    }

    /// The same, where the bins of a long write are made in as many threads as there are processors.
    pub fn start_par<R: Threads + Sync>(
        rt: &R,
        alloc: Global,
        layout: Layout,
        op: Operation,
    ) -> Result<Machine, AllocError>
        requires { IsWithinLayout layout op }
        ensures layout { IfOk result (λ m. m.layout ≡ layout) }
        ensures work { IfOk result (λ m. m.work ≡ begun op) }
    {
        let stage = begun_par(rt, alloc, layout, op)?;
        Ok(Machine { layout, stage })
    }

    /// What the operation asks next.
    pub fn next(&self) -> Ask<'_>
        ensures value { meaning_of result ≡ ask_of self.now.layout self.now.work }
        ensures head { HasHead self.now.layout (ask_of self.now.layout self.now.work) }
    {
        match &self.stage {
            OperationState::Calling(call) => Ask::Export(CallRef::Tree(call)),
            OperationState::Dropping { fid, places, done } => drop_ask(*fid, places, *done),
            OperationState::Opening { call, .. } => Ask::Export(CallRef::Tree(call)),
            OperationState::Writing { writer, text } => write_ask(writer, text.bytes()),
            OperationState::Locking { call, plan } => lock_ask(self.layout, call, plan),
            OperationState::Reading(reader) => read_ask(reader),
            OperationState::Ranging(file) => range_ask(self.layout, file),
            OperationState::Rebuilding { node, rebuilder } => {
                rebuilder_ask(self.layout, *node, rebuilder)
            }
            OperationState::Ending(answer) => Ask::Say(Saying::Done(answer)),
            OperationState::Over => Ask::Rest,
        }
    }

    /// Whether nothing is left to do.
    pub fn is_over(&self) -> bool
        ensures { result ≡ is_over self.now.work }
    {
        matches!(&self.stage, OperationState::Over)
    }

    /// Takes the reply of the export.
    pub fn tell_reply(&mut self, reply: Reply)
        requires { IsReply self.old.layout (ask_of self.old.layout self.old.work) reply }
        ensures { IsWorkAfter self.old self.old.pairs (Replied reply) self.new }
    {
        let stage = replace(&mut self.stage, OperationState::Over);
        let next = after_reply(self.layout, stage, reply);
        drop(replace(&mut self.stage, next));
    }

    /// Takes the reply of the export to an open with a lock, and whether the lock was granted.
    pub fn tell_locked(&mut self, granted: bool, reply: Reply)
        requires { IsLockReply self.old.layout (ask_of self.old.layout self.old.work) reply }
        ensures { IsWorkAfter self.old self.old.pairs (Locked granted reply) self.new }
    {
        let stage = replace(&mut self.stage, OperationState::Over);
        let next = after_lock(self.layout, stage, granted, reply);
        drop(replace(&mut self.stage, next));
    }

    /// Takes the answer of a node, and with a record the bins of its position.
    pub fn tell_answer(&mut self, answer: NodeAnswer, bins: &[u64])
        requires asked { IsAnswer self.old.layout (ask_of self.old.layout self.old.work) answer }
        requires bins { ComeWith self.old.layout (ask_of self.old.layout self.old.work) answer bins.now }
        ensures { FitsIfEnough self.old answer bins.now self.new }
    {
        let stage = replace(&mut self.stage, OperationState::Over);
        let next = after_answer(self.layout, stage, answer, bins);
        drop(replace(&mut self.stage, next));
    }

    /// Takes it that the message to the node, or its answer, was lost.
    pub fn tell_missed(&mut self)
        requires asked { MayMiss (ask_of self.old.layout self.old.work) }
        ensures { IsWorkAfter self.old self.old.pairs Missed self.new }
    {
        let stage = replace(&mut self.stage, OperationState::Over);
        let next = after_miss(self.layout, stage);
        drop(replace(&mut self.stage, next));
    }

    /// Takes it that the end of a block was said, or that a block was left.
    pub fn tell_said(&mut self)
        requires asked { IsPartSaid (ask_of self.old.layout self.old.work) }
        ensures { IsWorkAfter self.old self.old.pairs (Noted (text_of self.old)) self.new }
    {
        let stage = replace(&mut self.stage, OperationState::Over);
        let next = after_said(self.layout, stage);
        drop(replace(&mut self.stage, next));
    }

    /// Takes it that the answer is said, and gives it out.
    pub fn finish(&mut self) -> Answer
        requires { IsDone (ask_of self.old.layout self.old.work) }
        ensures answer { ask_of self.old.layout self.old.work ≡ Say (SayDone result) }
        ensures goes { IsWorkAfter self.old self.old.pairs (Noted []) self.new }
    {
        let stage = replace(&mut self.stage, OperationState::Over);
        answer_in(stage)
    }

    /// Whether this is a reply to what the operation asks of the export.
    pub fn takes_reply(&self, reply: &Reply) -> bool
        ensures { IsTrue result ↔ IsReply self.now.layout (ask_of self.now.layout self.now.work) reply.now }
    {
        is_reply(self.layout, &self.next(), reply)
    }

    /// Whether this is a reply to the open with a lock that the operation asks.
    pub fn takes_locked(&self, reply: &Reply) -> bool
        ensures { IsTrue result ↔ IsLockReply self.now.layout (ask_of self.now.layout self.now.work) reply.now }
    {
        is_lock_reply(self.layout, &self.next(), reply)
    }

    /// Whether this is an answer to what the operation asks of a node.
    pub fn takes_answer(&self, answer: &NodeAnswer) -> bool
        ensures { IsTrue result ↔ IsAnswer self.now.layout (ask_of self.now.layout self.now.work) answer.now }
    {
        is_answer(self.layout, &self.next(), answer)
    }

    /// The bins of what a node is to keep, or to have as a refill.
    pub fn bins(&self) -> &[u64]
        requires { HasBins (ask_of self.now.layout self.now.work) }
        ensures bins { AreBins self.now (ask_of self.now.layout self.now.work) result.now }
        ensures count { IsCount self.now.layout (ask_of self.now.layout self.now.work) result.now }
    {
        match &self.stage {
            OperationState::Writing { writer, .. } => writer.bins(),
            OperationState::Ranging(file) => file.bins(),
            OperationState::Rebuilding { rebuilder, .. } => rebuilder.bins(),
            _ => unreachable!(),
        }
    }

    /// Writes the text that was found, whose length `out` has.
    pub fn text_into(&self, out: &mut [u8])
        requires { HasText (ask_of self.now.layout self.now.work) (length out.old) }
        ensures { out.new ≡ text_of self.now }
    {
        match &self.stage {
            OperationState::Reading(reader) => reader.text_into(out),
            OperationState::Ranging(file) => out.copy_from_slice(file.text()),
            _ => unreachable!(),
        }
    }

    /// How a read ended, with the text that it found, in new memory.
    pub fn read_end(&self, alloc: Global, mark: ReadMark) -> Result<ReadEnd, AllocError>
        requires { (key : AKey) × (part : Bool) × (ask_of self.now.layout self.now.work ≡ Say (SayGot key part mark)) }
        ensures { IfOk result (λ end. end ≡ read_end (text_of self.now) mark) }
    {
        Ok(match mark {
            ReadMark::Found { stamp, length } => {
                let mut text = Vec::from_elem(alloc, 0, length as usize)?;
                self.text_into(&mut text);
                ReadEnd::Found {
                    stamp,
                    text: Text::from_vec(text),
                }
            }
            ReadMark::Hole => ReadEnd::Hole,
            ReadMark::TooFew { seen } => ReadEnd::TooFew { seen },
            ReadMark::Inconsistent => ReadEnd::Inconsistent,
            ReadMark::Denied(why) => ReadEnd::Denied(why),
            ReadMark::Moved { was, now } => ReadEnd::Moved { was, now },
        })
    }
}
