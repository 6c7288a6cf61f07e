//! Who acts alone tends the nodes, as the administrator: a node is started, or gets a new disk.
ghost use Rattle.std.specs.Prelude.{◌≡◌, ◌++◌, false, IsTrue, IfOk, IfErr, None};
ghost use Rattle.rz_events.specs.declared.nodes.NodeAsk.TheVariants as ask;
ghost use Rattle.rz_events.specs.declared.nodes.NodeAnswer.TheVariants as answer;
ghost use Rattle.rz_events.specs.declared.events.Word.TheVariants as w;
ghost use Rattle.rz_node_model.specs.NodeEvents.{start_event, lose_event};
ghost use Rattle.rz_core.specs.History.{of_word};
ghost use Rattle.rz_core.specs.NodeRows.{IsNodeOf};
ghost use Rattle.rz_core.specs.NodeWord.{phase};
ghost use Rattle.rz_play.specs.Lines.{noted};
ghost use Rattle.rz_chronicle.specs.Kinds.{keeps_legal, volume_in};
ghost use Rattle.rz_shared_locked.specs.LockedNodes.{IsAnswerAt};
ghost use Rattle.rz_store_turns.specs.Performed.{IsQuiet};

use crate::sole::Sole;
use rz_disk::Disk;
use rz_events::{Actor, NodeAnswer, NodeAsk, Phase, StartAnswer};
use rz_shared::{Metering, Swap, SwapFault};
use std::sync::Wait;

impl<D: Disk, J: Metering> Sole<D, J> {
    /// Starts a node as the administrator, and tells how that came out. The event of the answer, where it has one,
    /// comes to the log, and nothing else. Users see nothing of it.
    pub fn start<R: Wait>(&mut self, rt: &R, node: u16) -> StartAnswer
        requires node { IsNodeOf (volume_in J.kind) node }
        ensures log { self.new.pass.log ≡ noted (start_event node result) self.old.pass.log }
        ensures right { IsAnswerAt J.kind J.earlier self.old.pass.log node ask.Start (answer.Start result) }
        ensures quiet { IsQuiet J.kind J.earlier self.old self.new }
    {
        rz_chronicle::added_alone();
        self.shared.book.turn_to(&mut self.pass, Actor::Admin);
        let _turned = self.pass.actor();
        let mut bins: [u64; 0] = [];
        let answer = self.shared.cluster.node_call(
            rt,
            &self.shared.book,
            &mut self.pass,
            node,
            &NodeAsk::Start,
            &mut bins,
        );
        let _by = self.pass.actor();
        self.stands();
        match answer {
            NodeAnswer::Start(started) => started,
            _ => unreachable!(),
        }
    }

    /// Loses the disk of a node as the administrator, where that is not lost yet, and puts a new disk in its place,
    /// which the node's rebuild makes anew. Otherwise the new disk comes back, and nothing happened. Users see
    /// nothing of it.
    pub fn swap<R: Wait>(&mut self, rt: &R, node: u16, disk: D) -> Result<Swap<D>, (D, SwapFault)>
        requires node { IsNodeOf (volume_in J.kind) node }
        requires free { J.fixed ≡ false }
        ensures log { IfOk result (λ s. self.new.pass.log ≡ noted (lose_event node s.loss) self.old.pass.log) }
        ensures right { IfOk result (λ s. IsAnswerAt J.kind J.earlier self.old.pass.log node ask.Lose (answer.Lose s.loss)) }
        ensures lost { IfOk result (λ s. IsTrue (keeps_legal J.kind) → phase (of_word (w.Node node) (self.new.pass.log ++ J.earlier)) ≡ Phase.Lost) }
        ensures back { IfErr result (λ e. (e.0 ≡ disk) × (self.new.pass.log ≡ self.old.pass.log)) }
        ensures spent { IfErr result (λ e. e.1 ≡ SwapFault.LossesSpent → IsAnswerAt J.kind J.earlier self.old.pass.log node ask.Lose (answer.Lose None)) }
        ensures quiet { IsQuiet J.kind J.earlier self.old self.new }
    {
        rz_chronicle::added_alone();
        rz_chronicle::roomy();
        self.stands();
        self.shared.book.turn_to(&mut self.pass, Actor::Admin);
        let _turned = self.pass.actor();
        let swapped = self
            .shared
            .cluster
            .swap(rt, &self.shared.book, &mut self.pass, node, disk);
        let _by = self.pass.actor();
        self.stands();
        swapped
    }
}
