//! The link between a client and the storage nodes: whether a message comes through.
//!
//! A [`Link`] is asked before each message to a node. A contract sees a count of lost messages, and
//! a link answers that one was lost only where this count rose. [`MemLink`] loses exactly the
//! messages that a list names, and [`PlainLink`] loses none. [`fate`] asks it once, or not at all
//! where a message is planned to be lost or does not go by a link. A link carries no bytes, and no
//! contract says that a message arrives in time.
#![tactic(auto)]

ghost use Rattle.std.specs.Prelude.{◌≢◌, ◌<◌, ◌≤◌, ℕ};

mod fates;
mod memory;
mod plain;

pub use fates::fate;
pub use memory::MemLink;
pub use plain::PlainLink;

/// How a message to a node fared. After [`Sent::RequestLost`] the node does not hear of it. After
/// [`Sent::ReplyLost`] the node does what was asked, and its answer does not come back.
#[derive(Clone, Copy, Debug, PartialEq, Eq)]
pub enum Sent {
    Through,
    RequestLost,
    ReplyLost,
}

/// What carries the messages to the storage nodes.
pub trait Link: Drop {
    ghost use Rattle.rz_link.specs.declared.Sent.{Sent};

    /// How many messages were lost.
    ghost lost: { Self → ℕ };

    /// What a link may say of the next message, which goes to this node, and what it is thereafter.
    ghost says: { Self → ℕ → Sent → Self → Type 0 };

    /// Says how the next message, which goes to the node with this sid, fares.
    fn send(&mut self, node: u16) -> Sent
        ensures says { says self.old node result self.new }
        ensures lasting { lost self.old ≤ lost self.new }
        ensures risen { result ≢ Sent.Through → lost self.old < lost self.new };
}
