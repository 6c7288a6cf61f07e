//! A node whose disk is away.
ghost use Rattle.std.specs.Prelude.{◌≡◌, ℕ};
ghost use Rattle.rz_events.specs.declared.nodes.Phase.TheVariants as phase;
ghost use Rattle.rz_node_model.specs.States.{NodeState};
ghost use Rattle.rz_node_model.specs.Answers.{IsNodeAnswer, lose_in};
ghost use Rattle.rz_node_model.specs.Afterwards.{after_answer, after_lose};
ghost use Rattle.rz_node.specs.Calls.{IsUnread};
ghost use Rattle.rz_core.specs.Tied.{IsOpening};
ghost use Rattle.rz_shared_locked.specs.Occupants.{IsAway};

use rz_events::{
    DropAnswer, FetchAnswer, KeepAnswer, NodeAnswer, NodeAsk, OpenFault, Phase, RefillAnswer,
    ReplaceAnswer, StartAnswer,
};

/// What is known of a node whose disk is away. It is down, and lost once the administrator lost it.
#[derive(Clone, Copy, Drop)]
pub struct Away {
    pub phase: Phase,
    /// The fence of its last replacement, or 0.
    pub fence: u64,
    /// How many disks it lost.
    pub losses: u64,
}

impl Away {
    /// Answers a call as a node that is down, or lost, whose disk fails each call that needs it.
    pub(crate) fn answer(&mut self, ask: &NodeAsk) -> NodeAnswer
        ensures answer { (cells : ℕ) (s : NodeState) → IsAway s self.old → IsNodeAnswer cells s ask.now result }
        ensures after { (s : NodeState) → IsAway s self.old → IsAway (after_answer ask.now result s) self.new }
        ensures opening { IsOpening result }
        ensures unread { IsUnread result }
    {
        match self.phase {
            Phase::Up | Phase::Down => self.answer_down(ask),
            Phase::Lost => self.answer_lost(ask),
        }
    }

    fn answer_down(&mut self, ask: &NodeAsk) -> NodeAnswer
        ensures answer { (cells : ℕ) (s : NodeState) → s.phase ≡ phase.Down → s.losses ≡ self.old.losses → IsNodeAnswer cells s ask.now result }
        ensures after { (s : NodeState) → s.phase ≡ phase.Down → IsAway s self.old → IsAway (after_answer ask.now result s) self.new }
        ensures opening { IsOpening result }
        ensures unread { IsUnread result }
    {
        match ask {
            NodeAsk::Keep(_) => NodeAnswer::Keep(KeepAnswer::Down),
            NodeAsk::Fetch { .. } => NodeAnswer::Fetch(FetchAnswer::Down),
            NodeAsk::Refill { .. } => NodeAnswer::Refill(RefillAnswer::Down),
            NodeAsk::Drop { .. } => NodeAnswer::Drop(DropAnswer::Down),
            NodeAsk::Probe => NodeAnswer::Probe(None),
            NodeAsk::Stop => NodeAnswer::Stop(false),
            NodeAsk::Start => NodeAnswer::Start(StartAnswer::Unopened(OpenFault::DiskFault)),
            NodeAsk::Lose => NodeAnswer::Lose(self.lose()),
            NodeAsk::Replace { .. } => NodeAnswer::Replace(ReplaceAnswer::NotLost),
        }
    }

    fn answer_lost(&self, ask: &NodeAsk) -> NodeAnswer
        ensures answer { (cells : ℕ) (s : NodeState) → s.phase ≡ phase.Lost → s.losses ≡ self.now.losses → IsNodeAnswer cells s ask.now result }
        ensures same { (s : NodeState) → s.phase ≡ phase.Lost → after_answer ask.now result s ≡ s }
        ensures opening { IsOpening result }
        ensures unread { IsUnread result }
    {
        match ask {
            NodeAsk::Keep(_) => NodeAnswer::Keep(KeepAnswer::Lost),
            NodeAsk::Fetch { .. } => NodeAnswer::Fetch(FetchAnswer::Lost),
            NodeAsk::Refill { .. } => NodeAnswer::Refill(RefillAnswer::Lost),
            NodeAsk::Drop { .. } => NodeAnswer::Drop(DropAnswer::Lost),
            NodeAsk::Probe => NodeAnswer::Probe(Some(self.losses)),
            NodeAsk::Stop => NodeAnswer::Stop(false),
            NodeAsk::Start => NodeAnswer::Start(StartAnswer::NotDown),
            NodeAsk::Lose => NodeAnswer::Lose(None),
            NodeAsk::Replace { loss, .. } => NodeAnswer::Replace(self.refusal(*loss)),
        }
    }

    /// Loses the disk that is away, and answers how many disks were lost by now. It answers None, and
    /// changes nothing, where the count cannot rise.
    fn lose(&mut self) -> Option<u64>
        ensures answer { result ≡ lose_in phase.Down self.old.losses }
        ensures after { (s : NodeState) → s.phase ≡ phase.Down → IsAway s self.old → IsAway (after_lose result s) self.new }
    {
        let losses = self.losses.checked_add(1)?;
        self.phase = Phase::Lost;
        self.losses = losses;
        Some(losses)
    }

    // Why a lost node without a disk is not replaced for this loss.
    fn refusal(&self, loss: u64) -> ReplaceAnswer
        ensures other { loss ≡ self.now.losses → result ≡ ReplaceAnswer.DiskFault }
        ensures this { ¬ (loss ≡ self.now.losses) → result ≡ ReplaceAnswer.OtherLoss self.now.losses }
    {
        if loss == self.losses {
            ReplaceAnswer::DiskFault
        } else {
            ReplaceAnswer::OtherLoss { loss: self.losses }
        }
    }
}
