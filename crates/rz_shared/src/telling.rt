//! What a cluster tells that adds no event.
ghost use Rattle.std.specs.Prelude.{◌≡◌, ◌++◌, IsTrue, IsSome, IfSome, IfNone, IfOk, OnErr, None, is_some};
ghost use Rattle.rz_events.specs.declared.nodes.Phase.TheVariants as phases;
ghost use Rattle.rz_events.specs.declared.events.Word.TheVariants as w;
ghost use Rattle.rz_export_model.specs.Export.{published_after};
ghost use Rattle.rz_core.specs.History.{facts, of_word};
ghost use Rattle.rz_core.specs.NodeRows.{IsNodeOf};
ghost use Rattle.rz_core.specs.NodeWord.{phase};
ghost use Rattle.rz_core.specs.ExportWord.{export_of};
ghost use Rattle.rz_chronicle.specs.Kinds.{IsFit, keeps_legal, volume_in};
ghost use Rattle.rz_shared_locked.specs.Adding.{AddsEvent};
ghost use Rattle.rz_shared_locked.specs.Told.{HoldsKeys, holds_record};

use crate::Metering;
use crate::cluster::Cluster;
use rz_chronicle::{Book, Pass};
use rz_disk::Disk;
use rz_events::{Key, Listed};
use rz_metadata::NoReply;
use std::sync::Wait;

impl<D: Disk, J: Metering> Cluster<D, J> {
    /// Takes the lock of a node, and tells how many keys it holds, where its disk is here, as the disk of a node
    /// that is up is. Nothing is added to the log. It does not return where the node's word cannot move.
    pub fn keys_held<R: Wait>(
        &self,
        rt: &R,
        book: &Book<J>,
        pass: &mut Pass<J>,
        node: u16,
    ) -> Option<u32>
        requires node { IsNodeOf (volume_in J.kind) node }
        ensures same { (pass.new.actor ≡ pass.old.actor) × (pass.new.keys ≡ pass.old.keys) }
        ensures nothing { AddsEvent pass.old.keys pass.old.log None pass.new.log }
        ensures held { IfSome result (λ count. IsTrue (keeps_legal J.kind) → HoldsKeys (pass.new.log ++ J.earlier) node count) }
        ensures away { IfNone result (IsTrue (keeps_legal J.kind) → ¬ (phase (of_word (w.Node node) (pass.new.log ++ J.earlier)) ≡ phases.Up)) }
        ensures here { IsTrue J.fixed → IsSome result }
        ensures fit { IsFit J.kind pass.new.log }
    {
        let locked_node = self.locked_node(node);
        locked_node.lock(rt).keys_held(rt, book, pass, node)
    }

    /// Takes the lock of a node, and tells whether it holds the record of a key with this stamp, where its disk
    /// is here, as the disk of a node that is up is. Nothing is added to the log. It does not return where the
    /// node's word cannot move.
    pub fn holds<R: Wait>(
        &self,
        rt: &R,
        book: &Book<J>,
        pass: &mut Pass<J>,
        node: u16,
        key: Key,
        stamp: u64,
    ) -> Option<bool>
        requires node { IsNodeOf (volume_in J.kind) node }
        ensures same { (pass.new.actor ≡ pass.old.actor) × (pass.new.keys ≡ pass.old.keys) }
        ensures nothing { AddsEvent pass.old.keys pass.old.log None pass.new.log }
        ensures held { IfSome result (λ b. IsTrue (keeps_legal J.kind) → b ≡ holds_record (pass.new.log ++ J.earlier) node key stamp) }
        ensures away { IfNone result (IsTrue (keeps_legal J.kind) → ¬ (phase (of_word (w.Node node) (pass.new.log ++ J.earlier)) ≡ phases.Up)) }
        ensures here { IsTrue J.fixed → IsSome result }
        ensures fit { IsFit J.kind pass.new.log }
    {
        let locked_node = self.locked_node(node);
        locked_node.lock(rt).holds(rt, book, pass, node, key, stamp)
    }

    /// Takes the export's lock, and tells the least published block above `after` of the live files, if there is
    /// one. There is no reply where the journal refused a call. Nothing is added to the log. It does not return
    /// where the export's word cannot move.
    pub fn published<R: Wait>(
        &self,
        rt: &R,
        book: &Book<J>,
        pass: &mut Pass<J>,
        after: Option<Key>,
    ) -> Result<Option<Listed>, NoReply>
        ensures same { (pass.new.actor ≡ pass.old.actor) × (pass.new.keys ≡ pass.old.keys) }
        ensures nothing { AddsEvent pass.old.keys pass.old.log None pass.new.log }
        ensures listed { IfOk result (λ l. IsTrue (keeps_legal J.kind) → l ≡ published_after (export_of (volume_in J.kind) (facts (pass.new.log ++ J.earlier)) (of_word w.Export (pass.new.log ++ J.earlier))) after) }
        ensures refused { OnErr result (IsTrue (is_some J.journal)) }
        ensures fit { IsFit J.kind pass.new.log }
    {
        self.locked_export.lock(rt).published(rt, book, pass, after)
    }

    /// Takes the export's lock, and tells how many bytes of a half of the journal its entries take, if there is a
    /// journal.
    pub fn journal_used<R: Wait>(&self, rt: &R) -> Option<u64>
        ensures { is_some result ≡ is_some J.journal }
    {
        self.locked_export.lock(rt).journal_used()
    }
}
