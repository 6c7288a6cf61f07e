//! What a node tells that adds no event.
ghost use Rattle.std.specs.Prelude.{◌≡◌, ◌++◌, ℕ, IsTrue, IsSome, IfSome, IfNone, None, is_some};
ghost use Rattle.std.specs.FinMap as maps;
ghost use Rattle.rz_events.specs.declared.nodes.Phase.TheVariants as phases;
ghost use Rattle.rz_events.specs.declared.events.Word.TheVariants as w;
ghost use Rattle.rz_node_model.specs.States.{NodeState};
ghost use Rattle.rz_node_model.specs.Records.{held_of, found};
ghost use Rattle.rz_core.specs.History.{of_word};
ghost use Rattle.rz_core.specs.NodeWord.{phase};
ghost use Rattle.rz_chronicle.specs.Kinds.{IsFit, keeps_legal};
ghost use Rattle.rz_shared_locked.specs.Adding.{AddsEvent};
ghost use Rattle.rz_shared_locked.specs.Told.{HoldsKeys, holds_record};
ghost use Rattle.rz_shared_locked.specs.Occupants.{IsIn, disk_of};

use crate::LockedNode;
use crate::counting::Metering;
use crate::occupant::Occupant;
use crate::waiting::unanswered;
use rz_chronicle::{Book, Pass};
use rz_disk::Disk;
use rz_events::Key;
use std::sync::Wait;

impl<D: Disk> Occupant<D> {
    /// How many keys the node holds, where its disk is here.
    pub(crate) fn keys_held(&self) -> Option<u32>
        ensures held { IfSome result (λ count. (s : NodeState) → IsIn self.now s → count ≡ maps.len s.held) }
        ensures away { IfNone result ((s : NodeState) → IsIn self.now s → ¬ (s.phase ≡ phases.Up)) }
        ensures here { is_some result ≡ is_some (disk_of self.now) }
    {
        match self {
            Occupant::Here(node) => Some(node.keys_held()),
            Occupant::Away(_) => None,
        }
    }

    /// Whether the node holds the record of a key with this stamp, where its disk is here.
    pub(crate) fn holds(&self, key: Key, stamp: u64) -> Option<bool>
        ensures held { IfSome result (λ b. (s : NodeState) → IsIn self.now s → b ≡ is_some (found stamp (held_of s.held key))) }
        ensures away { IfNone result ((s : NodeState) → IsIn self.now s → ¬ (s.phase ≡ phases.Up)) }
        ensures here { is_some result ≡ is_some (disk_of self.now) }
    {
        match self {
            Occupant::Here(node) => Some(node.holds(key, stamp)),
            Occupant::Away(_) => None,
        }
    }
}

impl<D: Disk, J: Metering> LockedNode<D, J> {
    /// How many keys the node holds, where its disk is here, as the disk of a node that is up is. Nothing is
    /// added to the log. It does not return where this is another node, or where its word cannot move.
    pub fn keys_held<R: Wait>(
        &mut self,
        rt: &R,
        book: &Book<J>,
        pass: &mut Pass<J>,
        node: u16,
    ) -> Option<u32>
        ensures locked_node { self.new.node ≡ self.old.node }
        ensures same { (pass.new.actor ≡ pass.old.actor) × (pass.new.keys ≡ pass.old.keys) }
        ensures nothing { AddsEvent pass.old.keys pass.old.log None pass.new.log }
        ensures held { IfSome result (λ count. IsTrue (keeps_legal J.kind) → HoldsKeys (pass.new.log ++ J.earlier) node count) }
        ensures away { IfNone result (IsTrue (keeps_legal J.kind) → ¬ (phase (of_word (w.Node node) (pass.new.log ++ J.earlier)) ≡ phases.Up)) }
        ensures here { IsTrue J.fixed → IsSome result }
        ensures fit { IsFit J.kind pass.new.log }
    {
        if !self.enter(book, pass, node) {
            unanswered(rt);
        }
        self.count_keys()
    }

    // The same by the log that the locked node has seen.
    fn count_keys(&self) -> Option<u32>
        ensures held { IfSome result (λ count. IsTrue (keeps_legal J.kind) → HoldsKeys (self.now.log ++ J.earlier) self.now.node count) }
        ensures away { IfNone result (IsTrue (keeps_legal J.kind) → ¬ (phase (of_word (w.Node self.now.node) (self.now.log ++ J.earlier)) ≡ phases.Up)) }
        ensures here { IsTrue J.fixed → IsSome result }
    {
        self.who.keys_held()
    }

    /// Whether the node holds the record of a key with this stamp, where its disk is here, as the disk of a
    /// node that is up is. Nothing is added to the log. It does not return where this is another node, or where
    /// its word cannot move.
    pub fn holds<R: Wait>(
        &mut self,
        rt: &R,
        book: &Book<J>,
        pass: &mut Pass<J>,
        node: u16,
        key: Key,
        stamp: u64,
    ) -> Option<bool>
        ensures locked_node { self.new.node ≡ self.old.node }
        ensures same { (pass.new.actor ≡ pass.old.actor) × (pass.new.keys ≡ pass.old.keys) }
        ensures nothing { AddsEvent pass.old.keys pass.old.log None pass.new.log }
        ensures held { IfSome result (λ b. IsTrue (keeps_legal J.kind) → b ≡ holds_record (pass.new.log ++ J.earlier) node key stamp) }
        ensures away { IfNone result (IsTrue (keeps_legal J.kind) → ¬ (phase (of_word (w.Node node) (pass.new.log ++ J.earlier)) ≡ phases.Up)) }
        ensures here { IsTrue J.fixed → IsSome result }
        ensures fit { IsFit J.kind pass.new.log }
    {
        if !self.enter(book, pass, node) {
            unanswered(rt);
        }
        self.has_record(key, stamp)
    }

    // The same by the log that the locked node has seen.
    fn has_record(&self, key: Key, stamp: u64) -> Option<bool>
        ensures held { IfSome result (λ b. IsTrue (keeps_legal J.kind) → b ≡ holds_record (self.now.log ++ J.earlier) self.now.node key stamp) }
        ensures away { IfNone result (IsTrue (keeps_legal J.kind) → ¬ (phase (of_word (w.Node self.now.node) (self.now.log ++ J.earlier)) ≡ phases.Up)) }
        ensures here { IsTrue J.fixed → IsSome result }
    {
        self.who.holds(key, stamp)
    }
}
