//! The calls on names, and the one call for all.

ghost use Rattle.std.specs.Prelude.{◌≡◌, IfOk, OnOk, OnErr, IsTrue};
ghost use Rattle.rz_events.specs.Borrowed.{call_of};
ghost use Rattle.rz_export_model.specs.TreeCalls.{reply_to};
ghost use Rattle.rz_export_model.specs.Export.{after_tree, new_places, is_proper};
ghost use Rattle.rz_export.specs.Calls.{placed_for, IsAnswered};

use crate::export::Export;
use crate::nodes::free_cells;
use crate::releases::settle;
use rz_events::{Call, CallRef, Places, Reply, TreeCall, TreeReply};
use rz_place::place;
use std::alloc::AllocError;

impl Export {
    /// Answers a call that the export takes: the reply of the model, with the model's next state, or
    /// that memory is wanting, and then nothing changes. Only calls on names and begins take memory, a
    /// begin only where it is not denied.
    pub fn answer(&mut self, call: &Call) -> Reply
        requires { IsTrue (is_proper self.old call.now) }
        ensures { IsAnswered self.old call.now result self.new }
    {
        self.answer_ref(call.borrowed())
    }

    /// Answers a borrowed call in the same way, so that none of its texts is copied to ask it.
    pub fn answer_ref(&mut self, call: CallRef<'_>) -> Reply
        requires { IsTrue (is_proper self.old (call_of call)) }
        ensures { IsAnswered self.old (call_of call.entry) result self.new }
    {
        match call {
            CallRef::Tree(call) => match self.name(call) {
                Ok(reply) => Reply::Tree(reply),
                Err(_) => Reply::NoMemory,
            },
            CallRef::Begin { key, .. } => match self.begin(key) {
                Ok(reply) => reply,
                Err(_) => Reply::NoMemory,
            },
            CallRef::Publish { key, published } => self.publish(key, published),
            CallRef::Look { key } => self.look(key),
            CallRef::Enroll { node, loss } => self.enroll(node, loss),
            CallRef::Next { node, after } => self.next(node, after),
            CallRef::Recheck { key } => self.recheck(key),
        }
    }

    /// Answers a call on names. A new file gets the places with the most free cells, and with a file
    /// its blocks go.
    pub fn name(&mut self, call: &TreeCall) -> Result<TreeReply, AllocError>
        ensures reply { IfOk result (λ r. r ≡ reply_to self.old.tree (new_places self.old).cid (new_places self.old).places call.now) }
        ensures ok { OnOk result (self.new ≡ after_tree self.old call.now) }
        ensures err { OnErr result (self.new ≡ self.old) }
    {
        let (cid, places) = self.places_for(call)?;
        let reply = self.tree.answer(call, cid, &places)?;
        settle(
            self.nodes.as_mut_slice(),
            &mut self.blocks,
            &mut self.listed,
            &reply,
        );
        Ok(reply)
    }

    // The cluster and the places that a call to make a file needs; any other call needs none.
    fn places_for(&self, call: &TreeCall) -> Result<(u16, Places), AllocError>
        ensures cid { IfOk result (λ p. p.0 ≡ (placed_for self.now call.now).cid) }
        ensures places { IfOk result (λ p. p.1 ≡ (placed_for self.now call.now).places) }
    {
        match call {
            TreeCall::Create { .. } => self.new_places(),
            _ => Ok((0, Places::none())),
        }
    }

    // The cluster and the places with the most free cells.
    fn new_places(&self) -> Result<(u16, Places), AllocError>
        ensures cid { IfOk result (λ p. p.0 ≡ (new_places self.now).cid) }
        ensures places { IfOk result (λ p. p.1 ≡ (new_places self.now).places) }
    {
        let free = free_cells(self.alloc, self.nodes.as_slice())?;
        Ok(place(&self.volume, free.as_slice()))
    }
}
