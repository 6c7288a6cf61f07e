//! What stands in a store is told: nothing is added to the log.
ghost use Rattle.std.specs.Prelude.{◌≡◌, ◌++◌, IsTrue, IsSome, IfSome, IfNone, IfOk, OnErr, is_some};
ghost use Rattle.rz_events.specs.declared.nodes.Phase.TheVariants as phases;
ghost use Rattle.rz_events.specs.declared.events.Word.TheVariants as w;
ghost use Rattle.rz_export_model.specs.Export.{published_after};
ghost use Rattle.rz_core.specs.History.{of_word};
ghost use Rattle.rz_core.specs.NodeRows.{IsNodeOf};
ghost use Rattle.rz_core.specs.NodeWord.{phase};
ghost use Rattle.rz_chronicle.specs.Kinds.{keeps_legal, volume_in};
ghost use Rattle.rz_contents.specs.Model.{export_at};
ghost use Rattle.rz_shared_locked.specs.Told.{HoldsKeys, holds_record};

use crate::sole::{Sole, Stop};
use rz_disk::Disk;
use rz_events::{Key, Listed};
use rz_shared::Metering;
use std::sync::Wait;

impl<D: Disk, J: Metering> Sole<D, J> {
    /// How many keys a node holds records of: nothing where its disk is away, which that of a node that is up is
    /// not.
    pub fn keys_held<R: Wait>(&mut self, rt: &R, node: u16) -> Option<u32>
        requires node { IsNodeOf (volume_in J.kind) node }
        ensures same { self.new ≡ self.old }
        ensures held { IfSome result (λ count. IsTrue (keeps_legal J.kind) → HoldsKeys (self.old.pass.log ++ J.earlier) node count) }
        ensures away { IfNone result (IsTrue (keeps_legal J.kind) → ¬ (phase (of_word (w.Node node) (self.old.pass.log ++ J.earlier)) ≡ phases.Up)) }
    {
        rz_chronicle::added_alone();
        let book = &self.shared.book;
        let count = self
            .shared
            .cluster
            .keys_held(rt, book, &mut self.pass, node);
        let _by = self.pass.actor();
        count
    }

    /// Whether a node holds the record of a key with this stamp: nothing where its disk is away, which that of a
    /// node that is up is not.
    pub fn holds<R: Wait>(&mut self, rt: &R, node: u16, key: Key, stamp: u64) -> Option<bool>
        requires node { IsNodeOf (volume_in J.kind) node }
        ensures same { self.new ≡ self.old }
        ensures held { IfSome result (λ b. IsTrue (keeps_legal J.kind) → b ≡ holds_record (self.old.pass.log ++ J.earlier) node key stamp) }
        ensures away { IfNone result (IsTrue (keeps_legal J.kind) → ¬ (phase (of_word (w.Node node) (self.old.pass.log ++ J.earlier)) ≡ phases.Up)) }
    {
        rz_chronicle::added_alone();
        let book = &self.shared.book;
        let held = self
            .shared
            .cluster
            .holds(rt, book, &mut self.pass, node, key, stamp);
        let _by = self.pass.actor();
        held
    }

    /// The least published block above `after` of the files that have a name, if there is one.
    pub fn published<R: Wait>(&mut self, rt: &R, after: Option<Key>) -> Result<Option<Listed>, Stop>
        ensures same { self.new ≡ self.old }
        ensures listed { IfOk result (λ l. IsTrue (keeps_legal J.kind) → l ≡ published_after (export_at (volume_in J.kind) (self.old.pass.log ++ J.earlier)) after) }
        ensures refused { OnErr result (IsTrue (is_some J.journal)) }
    {
        rz_chronicle::added_alone();
        let book = &self.shared.book;
        let told = self
            .shared
            .cluster
            .published(rt, book, &mut self.pass, after);
        let _by = self.pass.actor();
        match told {
            Ok(listed) => Ok(listed),
            Err(_) => Err(self.stop(rt)),
        }
    }

    /// How many bytes of a half of the journal its entries take, if there is a journal.
    pub fn journal_used<R: Wait>(&self, rt: &R) -> Option<u64>
        ensures { is_some result ≡ is_some J.journal }
    {
        self.shared.cluster.journal_used(rt)
    }
}
