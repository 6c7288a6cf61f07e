//! What kind of thing a machine asks.
ghost use Rattle.rz_operation_model.specs.Ask.{ask_of};
ghost use Rattle.rz_operation.specs.Asking.{IsAskKind};

use crate::Machine;
use rz_events::NodeAsk;
use rz_operation_states::Ask;

/// The kind of what a machine asks, without what is borrowed of it.
#[derive(Clone, Copy, Drop)]
pub enum AskKind {
    Rest,
    Export,
    Lock,
    Node { node: u16, ask: NodeAsk },
    Say,
}

impl Machine {
    /// The kind of what the operation asks next.
    pub fn ask_kind(&self) -> AskKind
        ensures { IsAskKind (ask_of self.now.layout self.now.work) result }
    {
        match self.next() {
            Ask::Rest => AskKind::Rest,
            Ask::Export(_) => AskKind::Export,
            Ask::Lock { .. } => AskKind::Lock,
            Ask::Node { node, ask } => AskKind::Node { node, ask },
            Ask::Say(_) => AskKind::Say,
        }
    }
}
