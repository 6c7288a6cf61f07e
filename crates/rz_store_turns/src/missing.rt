//! How many published blocks a node lacks.
ghost use Rattle.std.specs.Prelude.{◌≡◌, ◌+◌, ◌-◌, ◌^◌, ◌++◌, ◌≤◌, min, cond, IsTrue, IfSome, IfNone, IfOk, OnErr, is_some, length};
ghost use Rattle.rz_events.specs.declared.nodes.Phase.TheVariants as phases;
ghost use Rattle.rz_events.specs.declared.events.Word.TheVariants as w;
ghost use Rattle.rz_export_model.specs.Export.{is_on, names_node};
ghost use Rattle.rz_core.specs.History.{of_word};
ghost use Rattle.rz_core.specs.NodeRows.{IsNodeOf};
ghost use Rattle.rz_core.specs.NodeWord.{phase};
ghost use Rattle.rz_chronicle.specs.Kinds.{keeps_legal, volume_in};
ghost use Rattle.rz_store_turns.specs.Telling.{is_missing, AreMissing};

use crate::sole::{Sole, Stop};
use rz_disk::Disk;
use rz_events::Listed;
use rz_shared::Metering;
use std::sync::Wait;

/// Whether the published mask names the node among these places.
#[tactic(auto, using(std::proofs::lemmas::Nat::Bits::shr_and_one))]
fn names_node(places: &[u16], mask: u16, node: u16) -> bool
    requires { length places.now ≤ 16 }
    ensures { result ≡ names_node node mask 0 places.now }
{
    for (i, place) in places.iter().enumerate() {
        if *place == node && (mask >> i) & 1 == 1 {
            return true;
        }
    }
    false
}

/// Whether the published mask of a block names the node.
fn is_on(listed: &Listed, node: u16) -> bool
    ensures { result ≡ is_on node listed.now }
{
    names_node(listed.info.places.list(), listed.published.mask, node)
}

/// A count with one more, where there is one and it can be counted.
fn with_one(count: u64, is_one: bool) -> u64
    ensures { result ≡ cond is_one (min (count + 1) (2 ^ 64 - 1)) count }
{
    if is_one {
        count.saturating_add(1)
    } else {
        count
    }
}

impl<D: Disk, J: Metering> Sole<D, J> {
    /// How many published blocks of live files name the node, which does not hold their record, or 2^64 - 1 where
    /// there are more. It is None where the node's disk is away, as that of a node that is up is not. The journal may
    /// stop it.
    pub fn missing<R: Wait>(&mut self, rt: &R, node: u16) -> Result<Option<u64>, Stop>
        requires node { IsNodeOf (volume_in J.kind) node }
        ensures same { self.new ≡ self.old }
        ensures counted { IfOk result (λ told. IfSome told (λ count. IsTrue (keeps_legal J.kind) → AreMissing (volume_in J.kind) (self.old.pass.log ++ J.earlier) node count)) }
        ensures away { IfOk result (λ told. IfNone told (IsTrue (keeps_legal J.kind) → ¬ (phase (of_word (w.Node node) (self.old.pass.log ++ J.earlier)) ≡ phases.Up))) }
        ensures refused { OnErr result (IsTrue (is_some J.journal)) }
    {
        let mut count: u64 = 0;
        let mut after = None;
        for _ in rt.forever() {
            let Some(listed) = self.published(rt, after)? else {
                return Ok(Some(count));
            };
            let Some(lacks) = self.lacks(rt, node, &listed) else {
                return Ok(None);
            };
            count = with_one(count, lacks);
            after = Some(listed.key);
        }
        unreachable!()
    }

    // Whether a published block is missing at the node, where the node's disk is here.
    fn lacks<R: Wait>(&mut self, rt: &R, node: u16, listed: &Listed) -> Option<bool>
        requires node { IsNodeOf (volume_in J.kind) node }
        ensures same { self.new ≡ self.old }
        ensures lacks { IfSome result (λ b. IsTrue (keeps_legal J.kind) → b ≡ is_missing (self.old.pass.log ++ J.earlier) node listed.now) }
        ensures away { IfNone result (IsTrue (keeps_legal J.kind) → ¬ (phase (of_word (w.Node node) (self.old.pass.log ++ J.earlier)) ≡ phases.Up)) }
    {
        let held = self.holds(rt, node, listed.key, listed.published.stamp)?;
        Some(is_on(listed, node) && !held)
    }
}
