//! What an operation asks next.

ghost use Rattle.std.specs.Prelude.{◌≡◌, IsTrue};
ghost use Rattle.rz_operation_model.specs.Turns.{goes_by_link};
ghost use Rattle.rz_operation_states.specs.Answers.{IsPlaced};

use mj_angles::Layout;
use rz_events::{Answer, CallRef, Key, LeftWhy, NodeAsk, ReadMark, TreeCall, WriteEnd};

/// What an operation asks next. It borrows what it names.
#[derive(Clone, Copy, Drop)]
pub enum Ask<'a> {
    /// A call of the export.
    Export(CallRef<'a>),
    /// The file is opened by this call, and so many bytes from `from` on are locked, for this operation
    /// alone or shared.
    Lock {
        call: &'a TreeCall,
        exclusive: bool,
        from: u64,
        count: u64,
    },
    /// A call of a node. The bins of a keep or a refill are the machine's.
    Node {
        node: u16,
        ask: NodeAsk,
    },
    /// An event of the actor's own word.
    Say(Saying<'a>),
    /// Nothing is left to do.
    Rest,
}

/// An event of the actor's own word. A block of a range is a part of its operation.
#[derive(Clone, Copy, Drop)]
pub enum Saying<'a> {
    Got {
        key: Key,
        part: bool,
        mark: ReadMark,
    },
    Gave {
        key: Key,
        part: bool,
        end: WriteEnd,
    },
    Left {
        key: Key,
        why: LeftWhy,
    },
    Done(&'a Answer),
}

/// Whether the message of a call goes through the link.
pub fn goes_by_link(ask: &NodeAsk) -> bool
    ensures { result ≡ goes_by_link ask.now }
{
    match ask {
        NodeAsk::Keep(_) | NodeAsk::Fetch { .. } | NodeAsk::Refill { .. } | NodeAsk::Drop { .. } =>
            true,
        NodeAsk::Probe | NodeAsk::Stop | NodeAsk::Start | NodeAsk::Lose | NodeAsk::Replace { .. } =>
            false,
    }
}

/// Whether what is fetched lies at a position of the layout.
pub fn is_placed(layout: Layout, ask: &NodeAsk) -> bool
    ensures { IsTrue result → IsPlaced layout ask.now }
{
    match ask {
        NodeAsk::Fetch { position, .. } => usize::from(*position) < layout.safe(),
        _ => true,
    }
}
