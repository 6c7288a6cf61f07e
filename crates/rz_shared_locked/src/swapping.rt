//! A new disk in the place of one that the administrator loses.
ghost use Rattle.std.specs.Prelude.{◌≡◌, ◌+◌, ◌<◌, ◌^◌, ℕ, false, None, IfOk, IfErr, OnErr};
ghost use Rattle.rz_events.specs.Volume.{Volume};
ghost use Rattle.rz_events.specs.declared.nodes.NodeAsk.TheVariants as ask;
ghost use Rattle.rz_events.specs.declared.nodes.NodeAnswer.TheVariants as answer;
ghost use Rattle.rz_events.specs.declared.events.Word.TheVariants as w;
ghost use Rattle.rz_node_model.specs.States.{NodeState};
ghost use Rattle.rz_node_model.specs.Answers.{lose_answer};
ghost use Rattle.rz_node_model.specs.NodeEvents.{lose_event};
ghost use Rattle.rz_cells_slots.specs.Shape.{IsGeometry};
ghost use Rattle.rz_core.specs.History.{Facts};
ghost use Rattle.rz_node_laws.specs.Images.{geometry_in};
ghost use Rattle.rz_chronicle.specs.Keys.{count_at, word_key};
ghost use Rattle.rz_chronicle.specs.Kinds.{IsFit, volume_in};
ghost use Rattle.rz_shared_locked.specs.LockedNodes.{Answered};
ghost use Rattle.rz_shared_locked.specs.Occupants.{IsIn, IsLaidOut, AreImaged, disk_of};
ghost use Rattle.rz_shared_locked.specs.Swaps.{IsUnswapped, lost_after};

use crate::LockedNode;
use crate::adding::add;
use crate::counting::{Metering, left_with};
use crate::occupant::{Occupant, disk_of};
use crate::waiting::unswapped;
use rz_chronicle::{Book, Pass};
use rz_disk::Disk;
use rz_events::{Actor, NodeAnswer, NodeAsk, Phase};
use rz_node::{Geometry, Node, node_event};
use std::alloc::Global;
use std::mem::replace;
use std::sync::Wait;

/// What came of a swap: the number of the loss, if the node was not lost already, and the disk that was
/// there, if one was.
#[derive(Drop)]
pub struct Swap<D: Disk> {
    pub loss: Option<u64>,
    pub disk: Option<D>,
}

/// Why a node got no new disk.
#[derive(Clone, Copy, Debug, PartialEq, Eq, Drop)]
pub enum SwapFault {
    NoMemory,
    /// It lost 2^64 - 1 disks, the most that can be counted.
    LossesSpent,
}

impl<D: Disk> Occupant<D> {
    /// Loses the disk, where that is not lost yet, and stands on a new one, which the next replacement makes
    /// anew. Otherwise the new disk comes back, and nothing changes.
    pub(crate) fn swap(
        &mut self,
        alloc: Global,
        geometry: Geometry,
        disk: D,
    ) -> Result<Swap<D>, (D, SwapFault)>
        requires { IsGeometry geometry }
        ensures loss { IfOk result (λ r. (s : NodeState) → IsIn self.old s → r.loss ≡ lose_answer s) }
        ensures already { IfOk result (λ r. r.loss ≡ None → (s : NodeState) → IsIn self.old s → s.phase ≡ Phase.Lost) }
        ensures disk { IfOk result (λ r. r.disk ≡ disk_of self.old) }
        ensures lost { IfOk result (λ r. (s : NodeState) → IsIn self.old s → IsIn self.new (lost_after r.loss s)) }
        ensures laid_out { IfOk result (λ r. IsLaidOut geometry self.new) }
        ensures empty { IfOk result (λ r. (v : Volume) (f : Facts) (n : ℕ) → AreImaged D.image v f n self.new) }
        ensures spent { IfErr result (λ e. e.1 ≡ SwapFault.LossesSpent → (s : NodeState) → IsIn self.old s → lose_answer s ≡ None) }
        ensures back { IfErr result (λ e. e.0 ≡ disk) }
        ensures same { OnErr result (self.new ≡ self.old) }
    {
        let known = self.known();
        let loss = match known.phase {
            Phase::Lost => None,
            Phase::Up | Phase::Down => {
                let Some(loss) = known.losses.checked_add(1) else {
                    return Err((disk, SwapFault::LossesSpent));
                };
                Some(loss)
            }
        };
        let losses = loss.unwrap_or(known.losses);
        match Node::lost(alloc, geometry, known.fence, losses, disk) {
            Ok(node) => {
                let before = replace(self, Occupant::Here(node));
                Ok(Swap {
                    loss,
                    disk: disk_of(before),
                })
            }
            Err(disk) => Err((disk, SwapFault::NoMemory)),
        }
    }
}

impl<D: Disk, J: Metering> LockedNode<D, J> {
    /// Loses the node's disk as the administrator, where it is not lost yet, and puts a new disk in its
    /// place. Otherwise the new disk comes back, and nothing is added. It does not return where this is another
    /// node, or where its word cannot move.
    pub fn swap<R: Wait>(
        &mut self,
        rt: &R,
        book: &Book<J>,
        pass: &mut Pass<J>,
        geometry: Geometry,
        disk: D,
    ) -> Result<Swap<D>, (D, SwapFault)>
        requires geometry { IsGeometry geometry }
        requires of_volume { geometry ≡ geometry_in (volume_in J.kind) geometry.node }
        requires free { J.fixed ≡ false }
        requires actor { pass.old.actor ≡ Actor.Admin }
        ensures locked_node { self.new.node ≡ self.old.node }
        ensures same { (pass.new.actor ≡ pass.old.actor) × (pass.new.keys ≡ pass.old.keys) }
        ensures swapped { IfOk result (λ r. Answered J.kind J.earlier geometry.node ask.Lose (answer.Lose r.loss) (lose_event geometry.node r.loss) pass.old.keys pass.old.log pass.new.log) }
        ensures unswapped { IfErr result (λ e. (e.0 ≡ disk) × IsUnswapped J.kind J.earlier geometry.node e.1 pass.old.keys pass.old.log pass.new.log) }
        ensures fit { IsFit J.kind pass.new.log }
    {
        if !self.enter(book, pass, geometry.node) {
            return unswapped(rt);
        }
        self.swapped(book, pass, geometry, disk)
    }

    // The swap where its pass and the locked node have entered, and the word can move.
    fn swapped(
        &mut self,
        book: &Book<J>,
        pass: &mut Pass<J>,
        geometry: Geometry,
        disk: D,
    ) -> Result<Swap<D>, (D, SwapFault)>
        requires one { self.old.log ≡ pass.old.log }
        requires room { count_at (word_key (w.Node self.old.node)) self.old.log + 1 < 2 ^ 62 }
        requires geometry { IsGeometry geometry }
        requires of_volume { geometry ≡ geometry_in (volume_in J.kind) self.old.node }
        requires free { J.fixed ≡ false }
        requires actor { pass.old.actor ≡ Actor.Admin }
        ensures locked_node { self.new.node ≡ self.old.node }
        ensures same { (pass.new.actor ≡ pass.old.actor) × (pass.new.keys ≡ pass.old.keys) }
        ensures swapped { IfOk result (λ r. Answered J.kind J.earlier self.old.node ask.Lose (answer.Lose r.loss) (lose_event self.old.node r.loss) pass.old.keys pass.old.log pass.new.log) }
        ensures unswapped { IfErr result (λ e. (e.0 ≡ disk) × IsUnswapped J.kind J.earlier self.old.node e.1 pass.old.keys pass.old.log pass.new.log) }
        ensures fit { IsFit J.kind pass.new.log }
    {
        crate::laws::locked_node_kept();
        crate::laws::answers();
        crate::laws::lost();
        rz_node_laws::longer::<D>();
        rz_chronicle::words_kept();
        rz_chronicle::one_rule();
        rz_chronicle::roomy();
        let by = pass.actor();
        let swap = match self.who.swap(self.alloc, geometry, disk) {
            Ok(swap) => swap,
            Err(back) => return Err(back),
        };
        let event = node_event(by, self.sid, &NodeAsk::Lose, &NodeAnswer::Lose(swap.loss));
        self.left = left_with(self.left, &event);
        add(book, pass, &mut self.word_token, event);
        Ok(swap)
    }
}
